//! The tests of tables over known wires.
ghost use Rattle.std.specs.Prelude.{◌≡◌, ◌≤◌, ◌<◌, ◌+◌, ◌*◌, ℕ, All, Option, Some, IfOk, IfSome, IfNone, OnOk, IsErrOf, IsTrue, false};
ghost use Rattle.base_io.specs.Counts.{Rose};
ghost use Rattle.machine_shape.specs.Shape.{table_wire, tables_of};
ghost use Rattle.machine_meaning.specs.Faults.{Faults};
ghost use Rattle.machine_meaning.specs.Standing.{IsSeated};
ghost use Rattle.rig.specs.Rig.{ForEach, shape_of};
ghost use Rattle.diag_evidence.specs.Kept.{Advances};
ghost use Rattle.diag_growth.specs.Seats.{AddsOnlyTableFacts, IsSeat, KeepsTable};
ghost use Rattle.diag_known.specs.Vocabulary.{IsKeptCrossOf, IsKnown, HasWire};
ghost use Rattle.diag_growth.specs.Seating.{AreAllWithout};
ghost use Rattle.diag_growth.specs.Tables.{SeatedAreKept, SeatedIsKept, TakesForTable, fresh_tables, keeps_table};

use crate::outside::outside_of;
use crate::seats::{find_place, seat_of};
use crate::{Seat, test_table};
use diag_evidence::Facts;
use diag_known::{Known, standing};
use machine_shape::{Node, Table};
use rig::{Rig, RigFail};
use std::alloc::AllocError;

// Whether all pins of a table are known.
fn has_pins(known: &Known, t: Table) -> bool
    requires { t.0 < tables_of known.now.shape }
    ensures all { IsTrue result → (j : ℕ) → j < 7 → HasWire known.now.steps (table_wire known.now.shape t.0 j) }
    ensures misses { result ≡ false → ((j : ℕ) → j < 7 → HasWire known.now.steps (table_wire known.now.shape t.0 j)) → ⊥ }
{
    let shape = known.shape();
    'pins: for j in 0..7 {
        if !known.has(shape.pin_of(t, j)) {
            return false;
        }
    }
    true
}

// Whether the cells and the register of a table are kept.
fn is_kept(facts: &Facts, t: Table) -> bool
    requires { t.0 < tables_of facts.now.shape }
    ensures is { result ≡ keeps_table facts.now t.0 }
    ensures kept { IsTrue result → KeepsTable facts.now t.0 }
{
    'cells: for address in 0..64 {
        if !facts.keeps_cell(t, address) {
            return false;
        }
    }
    facts.keeps_register(t)
}

// What stands without a hextant.
#[derive(Drop)]
struct Without {
    hextant: Node,
    known: Known,
}

// What stands without a hextant.
fn without_of(known: &Known, facts: &Facts, hextant: Node) -> Result<Without, AllocError>
    requires known { IsKnown facts.now known.now }
    ensures hextant { IfOk result (λ without. without.hextant.0 ≡ hextant.0) }
    ensures stands { IfOk result (λ without. AreAllWithout facts.now known.now.steps hextant.0 without.known) }
{
    let outside = outside_of(known, hextant)?;
    let stands = standing(known.alloc(), facts, outside)?;
    Ok(Without {
        hextant,
        known: stands,
    })
}

// Makes it what stands without this hextant, unless it is.
fn renew(
    without: &mut Without,
    known: &Known,
    facts: &Facts,
    hextant: Node,
) -> Result<(), AllocError>
    requires known { IsKnown facts.now known.now }
    requires stands { AreAllWithout facts.now known.now.steps without.old.hextant.0 without.old.known }
    ensures hextant { OnOk result (without.new.hextant.0 ≡ hextant.0) }
    ensures stands { OnOk result (AreAllWithout facts.now known.now.steps without.new.hextant.0 without.new.known) }
{
    if without.hextant.0 == hextant.0 {
        return Ok(());
    }
    *without = without_of(known, facts, hextant)?;
    Ok(())
}

// Where a table is tested, if it is seated.
fn seat_for(
    known: &Known,
    facts: &Facts,
    without: &mut Without,
    t: Table,
) -> Result<Option<Seat>, AllocError>
    requires known { IsKnown facts.now known.now }
    requires stands { AreAllWithout facts.now known.now.steps without.old.hextant.0 without.old.known }
    requires table { t.0 < tables_of facts.now.shape }
    ensures seat { IfOk result (λ found. IfSome found (λ seat. IsSeat facts.now seat × (seat.table.0 ≡ t.0))) }
    ensures none { IfOk result (λ found. IfNone found
        (¬ IsSeated facts.now.shape (HasWire known.now.steps) (IsKeptCrossOf facts.now) t.0)) }
    ensures stands { OnOk result (AreAllWithout facts.now known.now.steps without.new.hextant.0 without.new.known) }
{
    if !has_pins(known, t) {
        return Ok(None);
    }
    renew(without, known, facts, known.shape().hextant_of(t))?;
    let Some(place) = find_place(known, &without.known, facts, t)? else {
        return Ok(None);
    };
    let seat = seat_of(known, &without.known, facts, t, place)?;
    Ok(Some(seat))
}

// Tests a table, if it is seated and not kept yet.
fn test_seated(
    rig: &mut Box<dyn Rig>,
    facts: &mut Facts,
    known: &Known,
    without: &mut Without,
    t: Table,
) -> Result<(), RigFail>
    requires attached { shape_of (rig_state rig.old) ≡ Some facts.old.shape }
    requires known { IsKnown facts.old known.now }
    requires stands { AreAllWithout facts.old known.now.steps without.old.hextant.0 without.old.known }
    requires table { t.0 < tables_of facts.old.shape }
    ensures table_each { OnOk result (ForEach (rig_state rig.new) (λ told. SeatedIsKept told facts.old facts.new known.now.steps t.0)) }
    ensures stands { OnOk result (AreAllWithout facts.old known.now.steps without.new.hextant.0 without.new.known) }
    ensures advances { Advances (rig_state rig.old) (rig_state rig.new) facts.old facts.new }
    ensures only { AddsOnlyTableFacts facts.old facts.new }
    ensures loads { TakesForTable facts.old t.0 (rig_state rig.old).loads (rig_state rig.new).loads }
    ensures cause { IsErrOf result RigFail.Failed → Rose (rig_state rig.old).failures (rig_state rig.new).failures }
{
    if is_kept(facts, t) {
        return Ok(());
    }
    let Ok(found) = seat_for(known, facts, without, t) else {
        return Err(RigFail::Memory);
    };
    let Some(seat) = found else {
        return Ok(());
    };
    test_table(known.alloc(), rig, facts, &seat)
}

// Whether a table is kept, or has a pin that isn't known, and so isn't seated.
fn needs_no_test(facts: &Facts, known: &Known, t: Table) -> bool
    requires known { IsKnown facts.now known.now }
    requires table { t.0 < tables_of facts.now.shape }
    ensures { IsTrue result → (told : Option Faults) → SeatedIsKept told facts.now facts.now known.now.steps t.0 }
{
    if is_kept(facts, t) {
        return true;
    }
    !has_pins(known, t)
}

// Whether none of these tables needs a test.
fn need_no_tests(facts: &Facts, known: &Known, tables: &[Table]) -> bool
    requires known { IsKnown facts.now known.now }
    requires tables { All (λ t. t.0 < tables_of facts.now.shape) tables.now }
    ensures { IsTrue result → (told : Option Faults) → SeatedAreKept told facts.now facts.now known.now.steps tables.now }
{
    'tables: for i in 0..tables.len() {
        if !needs_no_test(facts, known, tables[i]) {
            return false;
        }
    }
    true
}

// Tests these tables, with what stands without the hextant of each.
fn test_each(
    rig: &mut Box<dyn Rig>,
    facts: &mut Facts,
    known: &Known,
    tables: &[Table],
) -> Result<(), RigFail>
    requires attached { shape_of (rig_state rig.old) ≡ Some facts.old.shape }
    requires known { IsKnown facts.old known.now }
    requires tables { All (λ t. t.0 < tables_of facts.old.shape) tables.now }
    ensures tables_each { OnOk result (ForEach (rig_state rig.new) (λ told. SeatedAreKept told facts.old facts.new known.now.steps
        tables.now)) }
    ensures advances { Advances (rig_state rig.old) (rig_state rig.new) facts.old facts.new }
    ensures only { AddsOnlyTableFacts facts.old facts.new }
    ensures loads { (rig_state rig.new).loads ≤ (rig_state rig.old).loads + 130 * fresh_tables facts.old tables.now }
    ensures cause { IsErrOf result RigFail.Failed → Rose (rig_state rig.old).failures (rig_state rig.new).failures }
{
    // That of no hextant yet.
    let Ok(mut without) = without_of(known, facts, Node(0)) else {
        return Err(RigFail::Memory);
    };
    'tables: for i in 0..tables.len() {
        test_seated(rig, facts, known, &mut without, tables[i])?;
    }
    Ok(())
}

/// Tests these tables over known wires, with 130 loads at most for each of which a cell or the register wasn't kept before, and
/// none for the others. For each set of faults that explains the log then, and of which what was kept is true, each of these tables
/// that is seated in the known wires and the kept crosspoints, has no wrong cell and no stuck register has its 64 cells and its
/// register kept after an Ok. At every end no other facts are new. Where each is kept or has a pin that isn't known, it looks no further.
///
/// # Errors
///
/// `Failed` where a call of the rig failed, `Memory` where memory was lacking.
pub fn test_tables(
    rig: &mut Box<dyn Rig>,
    facts: &mut Facts,
    known: &Known,
    tables: &[Table],
) -> Result<(), RigFail>
    requires attached { shape_of (rig_state rig.old) ≡ Some facts.old.shape }
    requires known { IsKnown facts.old known.now }
    requires tables { All (λ t. t.0 < tables_of facts.old.shape) tables.now }
    ensures tables_each { OnOk result (ForEach (rig_state rig.new) (λ told. SeatedAreKept told facts.old facts.new known.now.steps
        tables.now)) }
    ensures advances { Advances (rig_state rig.old) (rig_state rig.new) facts.old facts.new }
    ensures only { AddsOnlyTableFacts facts.old facts.new }
    ensures loads { (rig_state rig.new).loads ≤ (rig_state rig.old).loads + 130 * fresh_tables facts.old tables.now }
    ensures cause { IsErrOf result RigFail.Failed → Rose (rig_state rig.old).failures (rig_state rig.new).failures }
{
    if need_no_tests(facts, known, tables) {
        return Ok(());
    }
    test_each(rig, facts, known, tables)
}
