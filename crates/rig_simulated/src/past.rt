//! When tables give again what they gave some ticks before.

ghost use Rattle.std.specs.Prelude.{◌≡◌, ◌⊎◌, ◌<◌, ◌≤◌, true, length, map, None, IfSome};
ghost use Rattle.rig_simulated.specs.Pasts.{given_by, KeepsPast, SkipsTicks};

use crate::gates::Gate;
use std::alloc::{AllocError, Global};

/// With fewer ticks it isn't worth while to look for such that lead back.
pub const MANY_TICKS: u16 = 64;

/// After so many ticks what the tables give is kept first.
const FIRST_KEPT: u16 = 16;

/// What the tables gave after some tick of a cycle.
#[derive(Drop)]
pub struct Past {
    /// By their places in the list of those that are on; empty where nothing is to be kept.
    pub outputs: Vec<bool>,
    /// After how many ticks they gave it, and 0 where nothing is kept.
    pub at: u16,
    /// Where a table gave something else at the last look: the next one begins there, and mostly needs to go no further.
    pub differs: usize,
}

/// With nothing kept.
pub fn no_past(alloc: Global) -> Past {
    Past {
        outputs: Vec::new(alloc),
        at: 0,
        differs: 0,
    }
}

/// Makes room for what so many tables give, if that is worth while.
pub fn make_past(past: &mut Past, tables: usize, is_worth: bool) -> Result<(), AllocError> {
    past.outputs.clear();
    if !is_worth {
        return Ok(());
    }
    past.outputs.resize(tables, false)?;
    Ok(())
}

/// Keeps nothing.
pub fn forget(past: &mut Past)
    ensures { past.new.at ≡ 0 }
{
    past.at = 0;
}

/// Puts what the tables give.
fn put_outputs(outputs: &mut [bool], gates: &[Gate])
    requires { length outputs.old ≡ length gates.now }
    ensures { outputs.new ≡ map given_by gates.now }
{
    'gates: for k in 0..gates.len() {
        outputs[k] = gates[k].output;
    }
}

/// Keeps what the tables give after so many ticks, where there is room for it.
fn keep(past: &mut Past, gates: &[Gate], made: u16)
    ensures { (past.new ≡ past.old) ⊎ ((past.new.at ≡ made) × (past.new.outputs.items ≡ map given_by gates.now)) }
{
    if past.outputs.len() != gates.len() {
        return;
    }
    put_outputs(&mut past.outputs, gates);
    past.at = made;
}

/// The first table, from a place on, that gives something else.
fn other_from(outputs: &[bool], gates: &[Gate], from: usize) -> Option<usize>
    requires { length outputs.now ≡ length gates.now }
    ensures { from ≡ 0 → result ≡ None → outputs.now ≡ map given_by gates.now }
{
    'gates: for k in from..gates.len() {
        if outputs[k] != gates[k].output {
            return Some(k);
        }
    }
    None
}

/// Whether the tables give what was kept after fewer ticks.
fn gives_again(past: &mut Past, gates: &[Gate], made: u16) -> bool
    ensures again { result ≡ true → (0 < past.old.at) × (past.old.at < made) × (past.old.outputs.items ≡ map given_by gates.now) }
    ensures outputs { past.new.outputs ≡ past.old.outputs }
    ensures at { past.new.at ≡ past.old.at }
{
    if past.at == 0 {
        return false;
    }
    if past.at >= made {
        return false;
    }
    if past.outputs.len() != gates.len() {
        return false;
    }
    if let Some(place) = other_from(&past.outputs, gates, past.differs) {
        past.differs = place;
        return false;
    }
    match other_from(&past.outputs, gates, 0) {
        None => true,
        Some(place) => {
            past.differs = place;
            false
        }
    }
}

/// After some of all ticks: where the tables give what they gave before, how many ticks are left without those that lead
/// back to it over and over. Else it may be that what they give is kept, each time after twice as many ticks or more.
pub fn look_back(past: &mut Past, gates: &[Gate], made: u16, ticks: u16) -> Option<u16>
    requires { made ≤ ticks }
    ensures kept { result ≡ None → KeepsPast past.old past.new made gates.now }
    ensures skips { IfSome result (λ left. SkipsTicks past.old made ticks left gates.now) }
{
    if made < FIRST_KEPT {
        return None;
    }
    let at = past.at;
    if gives_again(past, gates, made) {
        return Some((ticks - made) % (made - at));
    }
    if made / 2 >= at {
        keep(past, gates, made);
    }
    None
}
