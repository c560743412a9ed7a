//! Edits: the words that make one configuration of another, and the same changes made here.
ghost use Rattle.std.specs.Prelude.{◌≡◌, ℕ, ◌≤◌, ◌<◌, true, false, ◌==◌, [], ◌∷◌, ◌++◌, OnOk, IfOk, IsTrue, All, count_by};
ghost use Rattle.machine_shape.specs.Shape.{crosses_of, tables_of};
ghost use Rattle.machine_config.specs.Configuration.{is_closed, with_closed, with_open, with_setting, with_ticks};
ghost use Rattle.rig_port.specs.Linked.{AreEdited};

use crate::spelling::{put_setting, put_word};
use machine_config::{Config, Setting};
use machine_shape::{Cross, Table};
use std::alloc::{AllocError, Global};

// Opens a crosspoint, in the line and here.
fn open(line: &mut Vec<u8>, set: &mut Config, c: Cross) -> Result<(), AllocError>
    requires { c.0 < crosses_of set.old.config.shape }

    ensures shape { set.new.config.shape ≡ set.old.config.shape }
    ensures made { OnOk result (AreEdited set.old.config line.old.items set.new.config line.new.items) }
    ensures open { OnOk result (set.new.config ≡ with_open set.old.config c.0) }
{
    put_word(line, b'o', c.0)?;
    set.open_cross(c);
    Ok(())
}

// Closes a crosspoint, in the line and here; where it is closed, nothing is sent.
fn close_once(line: &mut Vec<u8>, set: &mut Config, c: Cross) -> Result<(), AllocError>
    requires { c.0 < crosses_of set.old.config.shape }

    ensures shape { set.new.config.shape ≡ set.old.config.shape }
    ensures made { OnOk result (AreEdited set.old.config line.old.items set.new.config line.new.items) }
    ensures closed { OnOk result (set.new.config ≡ with_closed set.old.config c.0) }
{
    if !set.has_cross(c) {
        put_word(line, b'c', c.0)?;
        set.close_cross(c)?;
    }
    Ok(())
}

// Whether a table does the same by both.
#[tactic(auto, using(crate::proofs::Settings::same_setting))]
fn is_same(a: Option<Setting>, b: Option<Setting>) -> bool
    ensures { IsTrue result → a ≡ b }
{
    let Some(x) = a else {
        return b.is_none();
    };
    let Some(y) = b else {
        return false;
    };
    if x.cells != y.cells {
        return false;
    }
    if x.latched != y.latched {
        return false;
    }
    x.init == y.init
}

// Gives a table its setting, in the line and here; where it has it, nothing is sent.
fn give(
    line: &mut Vec<u8>,
    set: &mut Config,
    t: Table,
    s: Option<Setting>,
) -> Result<(), AllocError>
    requires within { t.0 < tables_of set.old.config.shape }

    ensures shape { set.new.config.shape ≡ set.old.config.shape }
    ensures made { OnOk result (AreEdited set.old.config line.old.items set.new.config line.new.items) }
    ensures given { OnOk result (set.new.config ≡ with_setting set.old.config t.0 s) }
{
    if is_same(set.setting(t), s) {
        return Ok(());
    }
    match s {
        Some(setting) => {
            put_setting(line, t.0, setting)?;
            set.switch_on(t, setting);
        }
        None => {
            put_word(line, b'x', t.0)?;
            set.switch_off(t);
        }
    }
    Ok(())
}

// Sets the ticks that a cycle has there, in the line and here; where they are so, nothing is sent.
fn give_ticks(line: &mut Vec<u8>, set: &mut Config, config: &Config) -> Result<(), AllocError>
    requires { set.old.config.shape ≡ config.now.config.shape }

    ensures shape { set.new.config.shape ≡ set.old.config.shape }
    ensures made { OnOk result (AreEdited set.old.config line.old.items set.new.config line.new.items) }
    ensures given { OnOk result (set.new.config ≡ with_ticks set.old.config config.now.config.ticks) }
{
    // What is set there is one of its machine.
    let _shape = config.shape();
    let ticks = config.ticks();
    if set.ticks() != ticks {
        put_word(line, b'k', u32::from(ticks))?;
        set.set_ticks(ticks);
    }
    Ok(())
}

// Adds a crosspoint that isn't kept.
fn add_gone(gone: &mut Vec<Cross>, c: Cross, is_kept: bool) -> Result<(), AllocError>
    ensures kept { is_kept ≡ true → OnOk result (gone.new.items ≡ gone.old.items) }
    ensures gone { is_kept ≡ false → OnOk result (gone.new.items ≡ gone.old.items ++ c ∷ []) }
{
    if is_kept {
        return Ok(());
    }
    gone.push(c)?;
    Ok(())
}

// The crosspoints that are closed here and open there.
fn gone_of(alloc: Global, set: &Config, config: &Config) -> Result<Vec<Cross>, AllocError>
    requires { set.now.config.shape ≡ config.now.config.shape }

    ensures within { IfOk result (λ gone. All (λ c. c.0 < crosses_of set.now.config.shape) gone.items) }
    ensures all { IfOk result (λ gone. (x : ℕ) → is_closed set.now.config x ≡ true → is_closed config.now.config x ≡ false →
        1 ≤ count_by (λ c. c.0 == x) gone.items) }
{
    // What is set is one of its machine.
    let _shape = set.shape();
    let mut gone = Vec::new(alloc);
    let closed = set.closed();
    'closed: for k in 0..closed.len() {
        let c = closed[k];
        add_gone(&mut gone, c, config.has_cross(c))?;
    }
    Ok(gone)
}

// Opens what is closed here and open there.
fn open_gone(
    alloc: Global,
    line: &mut Vec<u8>,
    set: &mut Config,
    config: &Config,
) -> Result<(), AllocError>
    requires { set.old.config.shape ≡ config.now.config.shape }

    ensures shape { set.new.config.shape ≡ set.old.config.shape }
    ensures made { OnOk result (AreEdited set.old.config line.old.items set.new.config line.new.items) }
    ensures fewer { OnOk result ((x : ℕ) → is_closed set.new.config x ≡ true → is_closed config.now.config x ≡ true) }
{
    let gone = gone_of(alloc, set, config)?;
    'gone: for k in 0..gone.len() {
        open(line, set, gone[k])?;
    }
    Ok(())
}

// Closes what is closed there.
fn close_new(line: &mut Vec<u8>, set: &mut Config, config: &Config) -> Result<(), AllocError>
    requires shape { set.old.config.shape ≡ config.now.config.shape }
    requires fewer { (x : ℕ) → is_closed set.old.config x ≡ true → is_closed config.now.config x ≡ true }

    ensures shape { set.new.config.shape ≡ set.old.config.shape }
    ensures made { OnOk result (AreEdited set.old.config line.old.items set.new.config line.new.items) }
    ensures closed { OnOk result (set.new.config.closed ≡ config.now.config.closed) }
{
    // What is set there is one of its machine.
    let _shape = config.shape();
    let closed = config.closed();
    'closed: for k in 0..closed.len() {
        close_once(line, set, closed[k])?;
    }
    Ok(())
}

// Gives all tables the settings that they have there.
fn give_all(line: &mut Vec<u8>, set: &mut Config, config: &Config) -> Result<(), AllocError>
    requires { set.old.config.shape ≡ config.now.config.shape }

    ensures shape { set.new.config.shape ≡ set.old.config.shape }
    ensures made { OnOk result (AreEdited set.old.config line.old.items set.new.config line.new.items) }
    ensures closed { OnOk result (set.new.config.closed ≡ set.old.config.closed) }
    ensures given { OnOk result (set.new.config.tables ≡ config.now.config.tables) }
{
    // Both are one of their machine.
    let _shape = set.shape();
    let shape = config.shape();
    'tables: for t in 0..shape.tables() {
        give(line, set, Table(t), config.setting(Table(t)))?;
    }
    Ok(())
}

/// Adds the words that make the one configuration of the other, and makes it here. The words cost what differs.
///
/// # Errors
///
/// Out of memory. The one is on the way to the other then.
pub fn put_edits(
    alloc: Global,
    line: &mut Vec<u8>,
    set: &mut Config,
    config: &Config,
) -> Result<(), AllocError>
    requires { set.old.config.shape ≡ config.now.config.shape }

    ensures shape { set.new.config.shape ≡ set.old.config.shape }
    ensures made { OnOk result (AreEdited set.old.config line.old.items set.new.config line.new.items) }
    ensures same { OnOk result (set.new.config ≡ config.now.config) }
{
    open_gone(alloc, line, set, config)?;
    close_new(line, set, config)?;
    give_all(line, set, config)?;
    give_ticks(line, set, config)?;
    Ok(())
}
