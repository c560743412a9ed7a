//! A load of nothing behind the last test.
ghost use Rattle.std.specs.Prelude.{◌≡◌, ◌≤◌, [], Some, IfErr, IsTrue, OnErr, OnOk};
ghost use Rattle.base_io.specs.Counts.{next_count};
ghost use Rattle.rig.specs.Rig.{LoadFails, Narrows, Tells, cycles_made, shape_of};
ghost use Rattle.cmd_steps.specs.Vocabulary.{StoreState, SinkState, outside, Took};
ghost use Rattle.diag_evidence.specs.Kept.{TakesFewCycles};
ghost use Rattle.diag_list.specs.Possible.{TakesFewLoadsOn};
ghost use Rattle.diag_list.specs.Lists.{lists_now, WritesList};
ghost use Rattle.diag_settled.specs.Settled.{HasLoadLeft};

use base_io::Sink;
use cmd_steps::{Stop, write};
use diag_list::list_of;
use machine_config::Config;
use machine_defects::{Defects, defects_text};
use machine_shape::Shape;
use rig::{Rig, RigFail, load};
use std::alloc::Global;

/// How many loads the rig counts.
pub fn loads_of(rig: &Box<dyn Rig>) -> u64
    ensures { result ≡ (rig_state rig.now).loads }
{
    rig.loads()
}

/// Loads nothing: no crosspoint is closed and no table is on. So the session before has ended, as each one that was followed by
/// another.
///
/// # Errors
///
/// `Failed` where the load failed, `Memory` where memory was lacking.
pub fn settle(alloc: Global, shape: &Shape, rig: &mut Box<dyn Rig>) -> Result<(), RigFail>
    requires { shape_of (rig_state rig.old) ≡ Some shape.now }

    ensures machine { (rig_state rig.new).machine ≡ (rig_state rig.old).machine }
    ensures later { (rig_state rig.old).failures ≤ (rig_state rig.new).failures }
    ensures narrows { Narrows (rig_state rig.old) (rig_state rig.new) }
    ensures tells { Tells (rig_state rig.old) (rig_state rig.new) }
    ensures made { cycles_made (rig_state rig.new) ≡ cycles_made (rig_state rig.old) }
    ensures counted { OnOk result ((rig_state rig.new).loads ≡ next_count (rig_state rig.old).loads) }
    ensures not_counted { OnErr result ((rig_state rig.new).loads ≡ (rig_state rig.old).loads) }
    ensures refused { IfErr result (λ e. LoadFails e (rig_state rig.old) (rig_state rig.new)) }
{
    let Ok(config) = Config::with_room(alloc, *shape, 0) else {
        return Err(RigFail::Memory);
    };
    match load(rig, &config, 0) {
        Ok(()) => Ok(()),
        Err(fail) => Err(fail),
    }
}

// Whether a list has a load left that it may take, where it was begun at so many.
fn has_load_left(shape: &Shape, before: u64, now: u64) -> bool
    ensures { IsTrue result → HasLoadLeft shape.now before now }
{
    let crosses = u64::from(shape.crosses());
    let wires = u64::from(shape.wires());
    let tables = u64::from(shape.tables());
    let taken = now.saturating_sub(before);
    taken < 16 * crosses + (20 * wires + 130 * tables)
        && taken != 2 * crosses + (3 * wires + 130 * tables)
}

/// Lists the defects of the machine that is attached, and loads nothing behind the last test. Whatever it answers, it took few loads,
/// this one among them, and few cycles for each. The load is left out where the list took as many as it may.
///
/// # Errors
///
/// The rig's fault, or out of memory.
pub fn list_settled(alloc: Global, shape: &Shape, rig: &mut Box<dyn Rig>) -> Result<Defects, Stop>
    requires { shape_of (rig_state rig.old) ≡ Some shape.now }

    ensures machine { (rig_state rig.new).machine ≡ (rig_state rig.old).machine }
    ensures loads { TakesFewLoadsOn (rig_state rig.new) shape.now (rig_state rig.old).loads (rig_state rig.new).loads }
    ensures cycles { TakesFewCycles (rig_state rig.old) (rig_state rig.new) }
    // Whatever the store and the sink are.
    ensures took { (store : StoreState) (sink : SinkState) → Took [] (lists_now shape.now (rig_state rig.old) (rig_state rig.new)) result
        (outside store (rig_state rig.old) sink) (outside store (rig_state rig.new) sink) }
{
    let before = loads_of(rig);
    let list = list_of(alloc, shape, rig)?;
    let now = loads_of(rig);
    if !has_load_left(shape, before, now) {
        return Ok(list);
    }
    match settle(alloc, shape, rig) {
        Ok(()) => Ok(list),
        Err(fail) => Err(Stop::from(fail)),
    }
}

/// Lists the defects of the machine that is attached, loads nothing behind the last test, and writes the list. Wherever it ends, it took
/// few cycles for each load.
///
/// # Errors
///
/// The rig's fault, lack of memory, or the sink's fault.
pub fn write_settled<K: Sink>(
    alloc: Global,
    shape: &Shape,
    rig: &mut Box<dyn Rig>,
    sink: &mut K,
) -> Result<Defects, Stop>
    requires { shape_of (rig_state rig.old) ≡ Some shape.now }

    ensures machine { (rig_state rig.new).machine ≡ (rig_state rig.old).machine }
    ensures cycles { TakesFewCycles (rig_state rig.old) (rig_state rig.new) }
    // Whatever the store is.
    ensures written { (store : StoreState) → WritesList shape.now result
        (outside store (rig_state rig.old) (K.sink_state sink.old)) (outside store (rig_state rig.new) (K.sink_state sink.new)) }
{
    let list = list_settled(alloc, shape, rig)?;
    let text = defects_text(alloc, &list)?;
    write(sink, &text)?;
    Ok(list)
}
