//! Questions to a machine that a test of `diag_evidence` answers.
ghost use Rattle.std.specs.Prelude.{◌≡◌, ◌<◌, ℕ, true, Some, IsTrue, length};
ghost use Rattle.machine_shape.specs.Shape.{crosses_of, pins_of, tables_of};
ghost use Rattle.machine_config.specs.Groups.{among};
ghost use Rattle.rig.specs.Rig.{shape_of};
ghost use Rattle.diag_tests.specs.Routes.{IsRoute};
ghost use Rattle.diag_evidence.specs.Kept.{Advances, KeepsSet, keeps_cross};
ghost use Rattle.example_parts.specs.Laid.{IsLaid};

use crate::crossbars::setup::{Laid, Setup, laid_of};
use diag_evidence::Facts;
use diag_evidence::laws::tests_add_up;
use diag_tests::Route;
use machine_shape::{Cross, Table, Wire};
use rig::{PinBits, Rig, RigFail};
use std::alloc::Global;
use std::slice;

// Toggles a crosspoint of what is laid, if it is closed, and reads a pin.
fn toggle_laid(
    rig: &mut Box<dyn Rig>,
    facts: &mut Facts,
    laid: &mut Laid,
    c: Cross,
    at: u32,
) -> Result<Option<bool>, RigFail>
    requires attached { shape_of (rig_state rig.old) ≡ Some facts.old.shape }
    requires laid { IsLaid facts.old.shape laid.old.left laid.old.right laid.old.config.config }
    requires drive { length laid.old.drive ≡ pins_of facts.old.shape }
    requires cross { c.0 < crosses_of facts.old.shape }
    requires at { at < pins_of facts.old.shape }
    ensures advances { Advances (rig_state rig.old) (rig_state rig.new) facts.old facts.new }
    ensures set { KeepsSet facts.old facts.new }
{
    tests_add_up();
    if !laid.config.has_cross(c) {
        return Ok(None);
    }
    let yes = facts.toggle_cross(rig, &mut laid.config, c, &laid.drive, at)?;
    Ok(Some(yes))
}

// Toggles a cell of a table of what is laid, if that is on, and reads a pin.
fn toggle_laid_cell(
    rig: &mut Box<dyn Rig>,
    facts: &mut Facts,
    laid: &mut Laid,
    t: Table,
    address: u8,
    at: u32,
) -> Result<Option<bool>, RigFail>
    requires attached { shape_of (rig_state rig.old) ≡ Some facts.old.shape }
    requires laid { IsLaid facts.old.shape laid.old.left laid.old.right laid.old.config.config }
    requires drive { length laid.old.drive ≡ pins_of facts.old.shape }
    requires table { t.0 < tables_of facts.old.shape }
    requires address { address < 64 }
    requires at { at < pins_of facts.old.shape }
    ensures advances { Advances (rig_state rig.old) (rig_state rig.new) facts.old facts.new }
    ensures set { KeepsSet facts.old facts.new }
{
    tests_add_up();
    if laid.config.setting(t).is_none() {
        return Ok(None);
    }
    let yes = facts.toggle_cell(rig, &mut laid.config, t, address, &laid.drive, at)?;
    Ok(Some(yes))
}

// Toggles the register of a table of what is laid, if that is on and latched, and reads a pin.
fn toggle_laid_register(
    rig: &mut Box<dyn Rig>,
    facts: &mut Facts,
    laid: &mut Laid,
    t: Table,
    at: u32,
) -> Result<Option<bool>, RigFail>
    requires attached { shape_of (rig_state rig.old) ≡ Some facts.old.shape }
    requires laid { IsLaid facts.old.shape laid.old.left laid.old.right laid.old.config.config }
    requires drive { length laid.old.drive ≡ pins_of facts.old.shape }
    requires table { t.0 < tables_of facts.old.shape }
    requires at { at < pins_of facts.old.shape }
    ensures advances { Advances (rig_state rig.old) (rig_state rig.new) facts.old facts.new }
    ensures set { KeepsSet facts.old facts.new }
{
    tests_add_up();
    let Some(setting) = laid.config.setting(t) else {
        return Ok(None);
    };
    if !setting.latched {
        return Ok(None);
    }
    let yes = facts.toggle_register(rig, &mut laid.config, t, &laid.drive, at)?;
    Ok(Some(yes))
}

// Whether the crosspoints of a route are kept.
fn keeps_route(facts: &Facts, route: &Route) -> bool
    requires { IsRoute facts.now.shape route.now }
    ensures { IsTrue result → (x : ℕ) → among route.now.crosses x ≡ true → keeps_cross facts.now x ≡ true }
{
    'steps: for k in 0..route.len() {
        if !facts.keeps_cross(route.cross_at(k)) {
            return false;
        }
    }
    true
}

// Swings the left route of what is laid, if its crosspoints are kept.
fn swing_laid(
    alloc: Global,
    rig: &mut Box<dyn Rig>,
    facts: &mut Facts,
    laid: &Laid,
) -> Result<Option<bool>, RigFail>
    requires attached { shape_of (rig_state rig.old) ≡ Some facts.old.shape }
    requires laid { IsLaid facts.old.shape laid.now.left laid.now.right laid.now.config.config }
    requires drive { length laid.now.drive ≡ pins_of facts.old.shape }
    ensures advances { Advances (rig_state rig.old) (rig_state rig.new) facts.old facts.new }
    ensures set { KeepsSet facts.old facts.new }
{
    tests_add_up();
    if !keeps_route(facts, &laid.left) {
        return Ok(None);
    }
    match PinBits::new(alloc, facts.shape().pins()) {
        Ok(high) => {
            let yes = facts.test_stuck(rig, &laid.config, &laid.drive, &high, &laid.left)?;
            Ok(Some(yes))
        }
        Err(_) => Err(RigFail::Memory),
    }
}

// Whether the two routes of what is laid are apart, if their crosspoints are kept and they don't meet. The last wire of the left one is
// put on trial before.
fn part_laid(
    rig: &mut Box<dyn Rig>,
    facts: &mut Facts,
    laid: &Laid,
) -> Result<Option<bool>, RigFail>
    requires attached { shape_of (rig_state rig.old) ≡ Some facts.old.shape }
    requires laid { IsLaid facts.old.shape laid.now.left laid.now.right laid.now.config.config }
    requires drive { length laid.now.drive ≡ pins_of facts.old.shape }
    ensures advances { Advances (rig_state rig.old) (rig_state rig.new) facts.old facts.new }
    ensures set { KeepsSet facts.old facts.new }
{
    tests_add_up();
    if !keeps_route(facts, &laid.left) {
        return Ok(None);
    }
    if !keeps_route(facts, &laid.right) {
        return Ok(None);
    }
    if laid.left.meets(&laid.right) {
        return Ok(None);
    }
    facts.begin(laid.left.wire_at(laid.left.len()));
    let rights = slice::from_ref(&laid.right);
    let yes = facts.all_apart(rig, &laid.config, &laid.drive, &laid.left, rights)?;
    Ok(Some(yes))
}

/// What a machine is asked.
#[derive(Clone, Copy)]
enum Question {
    Cross { cross: u32, at: u32 },
    Cell { table: u32, address: u8, at: u32 },
    Register { table: u32, at: u32 },
    Swing,
    Apart,
}

// What words ask, where they ask something.
fn question_of(key: &str, numbers: &[u32]) -> Option<Question> {
    match (key, numbers) {
        ("toggle", [cross, at]) => Some(Question::Cross {
            cross: *cross,
            at: *at,
        }),
        ("cell", [table, address, at]) => match u8::try_from(*address) {
            Ok(address) => Some(Question::Cell {
                table: *table,
                address,
                at: *at,
            }),
            Err(_) => None,
        },
        ("register", [table, at]) => Some(Question::Register {
            table: *table,
            at: *at,
        }),
        ("swing", []) => Some(Question::Swing),
        ("apart", []) => Some(Question::Apart),
        _ => None,
    }
}

// Asks about what is laid. None where the machine has no such part.
fn ask(
    alloc: Global,
    rig: &mut Box<dyn Rig>,
    facts: &mut Facts,
    laid: &mut Laid,
    question: Question,
) -> Result<Option<bool>, RigFail>
    requires attached { shape_of (rig_state rig.old) ≡ Some facts.old.shape }
    requires laid { IsLaid facts.old.shape laid.old.left laid.old.right laid.old.config.config }
    requires drive { length laid.old.drive ≡ pins_of facts.old.shape }
    ensures advances { Advances (rig_state rig.old) (rig_state rig.new) facts.old facts.new }
    ensures set { KeepsSet facts.old facts.new }
{
    tests_add_up();
    let shape = facts.shape();
    match question {
        Question::Cross { cross, at } if cross < shape.crosses() && at < shape.pins() => {
            toggle_laid(rig, facts, laid, Cross(cross), at)
        }
        Question::Cell { table, address, at }
            if table < shape.tables() && address < 64 && at < shape.pins() => {
            toggle_laid_cell(rig, facts, laid, Table(table), address, at)
        }
        Question::Register { table, at } if table < shape.tables() && at < shape.pins() => {
            toggle_laid_register(rig, facts, laid, Table(table), at)
        }
        Question::Swing => swing_laid(alloc, rig, facts, laid),
        Question::Apart => part_laid(rig, facts, laid),
        _ => Ok(None),
    }
}

/// What a test answers. None where the words ask for none, or for one that isn't to be asked so.
pub fn answer(
    alloc: Global,
    rig: &mut Box<dyn Rig>,
    facts: &mut Facts,
    setup: &Setup,
    key: &str,
    numbers: &[u32],
) -> Result<Option<bool>, RigFail>
    requires attached { shape_of (rig_state rig.old) ≡ Some facts.old.shape }
    ensures advances { Advances (rig_state rig.old) (rig_state rig.new) facts.old facts.new }
    ensures set { KeepsSet facts.old facts.new }
{
    tests_add_up();
    let Some(question) = question_of(key, numbers) else {
        return Ok(None);
    };
    match laid_of(alloc, &facts.shape(), setup) {
        Some(mut laid) => ask(alloc, rig, facts, &mut laid, question),
        None => Ok(None),
    }
}

// Whether a pair of different wires is kept.
fn keeps_pair(facts: &Facts, a: u32, b: u32) -> Option<bool> {
    let wires = facts.shape().wires();
    if a >= wires {
        return None;
    }
    if b >= wires {
        return None;
    }
    if a == b {
        return None;
    }
    Some(facts.keeps_pair(Wire(a), Wire(b)))
}

// Whether a cell is kept.
fn keeps_cell(facts: &Facts, t: u32, address: u32) -> Option<bool> {
    let address = u8::try_from(address).ok()?;
    if t >= facts.shape().tables() {
        return None;
    }
    if address >= 64 {
        return None;
    }
    Some(facts.keeps_cell(Table(t), address))
}

/// Whether a fact is kept. None where these numbers are no such fact.
pub fn keeps(facts: &Facts, what: &str, numbers: &[u32]) -> Option<bool> {
    let shape = facts.shape();
    match (what, numbers) {
        ("cross", [c]) if *c < shape.crosses() => Some(facts.keeps_cross(Cross(*c))),
        ("wire", [w]) if *w < shape.wires() => Some(facts.keeps_wire(Wire(*w))),
        ("pair", [a, b]) => keeps_pair(facts, *a, *b),
        ("cell", [t, address]) => keeps_cell(facts, *t, *address),
        ("register", [t]) if *t < shape.tables() => Some(facts.keeps_register(Table(*t))),
        _ => None,
    }
}
