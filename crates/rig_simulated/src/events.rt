//! Ticks that evaluate the tables whose inputs changed, and no others.

ghost use Rattle.std.specs.Prelude.{◌≡◌, ℕ, ◌<◌, ◌≤◌, true, false, length, slice_index_or, All, IfOk, OnOk};
ghost use Rattle.machine_shape.specs.Shape.{tables_of};
ghost use Rattle.rig_simulated.specs.declared.events.Flip.{Flip};
ghost use Rattle.rig_simulated.specs.Gates.{level_at, Fits, IsClear};
ghost use Rattle.rig_simulated.specs.Cycles.{IsTick, HaveTicked};
ghost use Rattle.rig_simulated.specs.Pulls.{AreZero, HasGiven};
ghost use Rattle.rig_simulated.specs.Queues.{IsQueue, KeepsMarks};
ghost use Rattle.rig_simulated.specs.Events.{AreStill, AreFlips, HaveFlips, AreAlike, PutFlips, InputsKept, IsSound, AreEvents};

use crate::classes::ClassNode;
use crate::gates::{Gate, level_at, ticked};
use crate::marks::clear_tables;
use crate::past::{Past, forget, look_back};
use crate::pulls::{clear_pulls, count_pulls, give};
use crate::queue::{Queue, add_all, empty, make_room, place_at};
use crate::readers::{Readers, add_readers, fill_readers};
use machine_faults::FaultSet;
use std::alloc::{AllocError, Global};

/// A table that gives something else after a tick.
#[derive(Clone, Copy, Debug)]
pub struct Flip {
    /// Its place in the list of those that are on.
    pub place: usize,
    pub output: bool,
}

/// What is kept to evaluate only the tables whose inputs changed.
#[derive(Drop)]
pub struct Events {
    pub readers: Readers,
    /// The tables that are to be evaluated.
    pub queue: Queue,
    /// The tables that change in a tick; only the first ones count.
    pub flips: Vec<Flip>,
    /// How many tables pull each class; between cycles none.
    pub pulls: Vec<usize>,
    /// Whether the readers are those of the tables that are on.
    pub listed: bool,
}

/// With nothing listed.
pub fn new_events(alloc: Global, wires: usize) -> Result<Events, AllocError>
    ensures len { IfOk result (λ e. length e.pulls.items ≡ wires) }
    ensures zero { IfOk result (λ e. AreZero e.pulls.items) }
{
    let pulls = vec![in alloc; 0; wires]?;
    Ok(Events {
        readers: Readers {
            list: Vec::new(alloc),
            starts: Vec::new(alloc),
        },
        queue: Queue {
            due: Vec::new(alloc),
            count: 0,
            marks: Vec::new(alloc),
        },
        flips: Vec::new(alloc),
        pulls,
        listed: false,
    })
}

/// Makes room for the changes of so many tables.
fn make_flips(flips: &mut Vec<Flip>, places: usize) -> Result<(), AllocError>
    ensures { OnOk result (length flips.new.items ≡ places) }
{
    flips.clear();
    'places: for _k in 0..places {
        flips.push(Flip {
            place: 0,
            output: false,
        })?;
    }
    Ok(())
}

/// Finds the readers of what these tables give, if that is worth while.
pub fn list_tables(events: &mut Events, gates: &[Gate], is_worth: bool) -> Result<(), AllocError>
    ensures pulls { events.new.pulls ≡ events.old.pulls }
    ensures events { OnOk result (events.new.listed ≡ true → AreEvents gates.now events.new) }
{
    events.listed = false;
    if !is_worth {
        return Ok(());
    }
    fill_readers(&mut events.readers, gates)?;
    make_room(&mut events.queue, gates.len())?;
    make_flips(&mut events.flips, gates.len())?;
    events.listed = true;
    Ok(())
}

/// What stays the same while a machine ticks.
#[derive(Clone, Copy)]
pub struct Frame<'a, 'b, 'c> {
    pub faults: &'a FaultSet,
    /// By classes.
    pub knots: &'b [ClassNode],
    /// By classes: whether a pin of the machine that is driven 0 pulls it.
    pub low_pins: &'c [bool],
}

/// Evaluates the tables that are listed, and notes those that give something else. How many these are.
fn evaluate(
    frame: &Frame<'_, '_, '_>,
    low_tables: &[bool],
    gates: &[Gate],
    queue: &Queue,
    flips: &mut Vec<Flip>,
) -> usize
    requires fits { All (Fits (tables_of frame.now.faults.now.shape) (length frame.now.knots.now)) gates.now }
    requires pins { length frame.now.low_pins.now ≡ length frame.now.knots.now }
    requires tables { length low_tables.now ≡ length frame.now.knots.now }
    requires queue { IsQueue queue.now }
    requires marks { length queue.now.marks.items ≡ length gates.now }
    requires room { length flips.old.items ≡ length gates.now }
    ensures len { length flips.new.items ≡ length flips.old.items }
    ensures room { result ≤ length flips.new.items }
    ensures flips { AreFlips frame.now.faults.now.faults (level_at frame.now.knots.now frame.now.low_pins.now low_tables.now)
        gates.now flips.new.items result }
    ensures due { HaveFlips frame.now.faults.now.faults (level_at frame.now.knots.now frame.now.low_pins.now low_tables.now)
        gates.now queue.now.due.items
        queue.now.count flips.new.items result }
{
    let mut count = 0;
    'due: for i in 0..queue.count {
        let place = place_at(queue, i);
        let gate = ticked(
            frame.faults,
            frame.knots,
            frame.low_pins,
            low_tables,
            gates[place],
        );
        if gate.output == gates[place].output {
            continue;
        }
        flips[count] = Flip {
            place,
            output: gate.output,
        };
        count += 1;
    }
    count
}

/// Lets a table give something else, and lists the tables that read its class if its level changes so.
fn flip_one(
    flip: Flip,
    frame: &Frame<'_, '_, '_>,
    events: &mut Events,
    low_tables: &mut [bool],
    gates: &mut [Gate],
)
    requires place { flip.place < length gates.old }
    requires pins { length frame.now.low_pins.now ≡ length frame.now.knots.now }
    requires tables { length low_tables.old ≡ length frame.now.knots.now }
    requires sound { IsSound gates.old events.old.readers events.old.queue events.old.pulls.items low_tables.old }
    ensures len { length low_tables.new ≡ length low_tables.old }
    ensures readers { events.new.readers ≡ events.old.readers }
    ensures flips { events.new.flips ≡ events.old.flips }
    ensures listed { events.new.listed ≡ events.old.listed }
    ensures sound { IsSound gates.new events.new.readers events.new.queue events.new.pulls.items low_tables.new }
    ensures gates { HasGiven flip.place flip.output gates.old gates.new }
    ensures kept { KeepsMarks events.old.queue.marks.items events.new.queue.marks.items }
    ensures inputs { InputsKept gates.old events.new.queue.marks.items (level_at frame.now.knots.now frame.now.low_pins.now low_tables.old)
        (level_at frame.now.knots.now frame.now.low_pins.now low_tables.new) }
{
    let class = gates[flip.place].out;
    let before = level_at(frame.knots, frame.low_pins, low_tables, class);
    give(
        gates,
        &mut events.pulls,
        low_tables,
        flip.place,
        flip.output,
    );
    if level_at(frame.knots, frame.low_pins, low_tables, class) == before {
        return;
    }
    add_readers(&events.readers, flip.place, class, &mut events.queue);
}

/// Lets the tables that change give something else, and lists those that read a class whose level changes so.
fn flip_all(
    events: &mut Events,
    count: usize,
    frame: &Frame<'_, '_, '_>,
    low_tables: &mut [bool],
    gates: &mut [Gate],
)
    requires room { count ≤ length events.old.flips.items }
    requires within { (j : ℕ) (d : Flip) → j < count → (slice_index_or events.old.flips.items j d).place < length gates.old }
    requires pins { length frame.now.low_pins.now ≡ length frame.now.knots.now }
    requires tables { length low_tables.old ≡ length frame.now.knots.now }
    requires sound { IsSound gates.old events.old.readers events.old.queue events.old.pulls.items low_tables.old }
    ensures len { length low_tables.new ≡ length low_tables.old }
    ensures readers { events.new.readers ≡ events.old.readers }
    ensures flips { events.new.flips ≡ events.old.flips }
    ensures listed { events.new.listed ≡ events.old.listed }
    ensures sound { IsSound gates.new events.new.readers events.new.queue events.new.pulls.items low_tables.new }
    ensures alike { AreAlike gates.old gates.new }
    ensures put { PutFlips gates.old events.old.flips.items count count gates.new }
    ensures inputs { InputsKept gates.old events.new.queue.marks.items (level_at frame.now.knots.now frame.now.low_pins.now low_tables.old)
        (level_at frame.now.knots.now frame.now.low_pins.now low_tables.new) }
{
    'flips: for j in 0..count {
        flip_one(events.flips[j], frame, events, low_tables, gates);
    }
}

/// Makes one tick. How many tables give something else after it.
fn tick_listed(
    events: &mut Events,
    frame: &Frame<'_, '_, '_>,
    low_tables: &mut [bool],
    gates: &mut [Gate],
) -> usize
    requires fits { All (Fits (tables_of frame.now.faults.now.shape) (length frame.now.knots.now)) gates.old }
    requires pins { length frame.now.low_pins.now ≡ length frame.now.knots.now }
    requires tables { length low_tables.old ≡ length frame.now.knots.now }
    requires flips { length events.old.flips.items ≡ length gates.old }
    requires sound { IsSound gates.old events.old.readers events.old.queue events.old.pulls.items low_tables.old }
    requires still { AreStill frame.now.faults.now.faults (level_at frame.now.knots.now frame.now.low_pins.now low_tables.old)
        gates.old events.old.queue.marks.items }
    ensures fits { All (Fits (tables_of frame.now.faults.now.shape) (length frame.now.knots.now)) gates.new }
    ensures tables { length low_tables.new ≡ length frame.now.knots.now }
    ensures flips { length events.new.flips.items ≡ length gates.new }
    ensures sound { IsSound gates.new events.new.readers events.new.queue events.new.pulls.items low_tables.new }
    ensures still { AreStill frame.now.faults.now.faults (level_at frame.now.knots.now frame.now.low_pins.now low_tables.new)
        gates.new events.new.queue.marks.items }
    ensures tick { IsTick frame.now.faults.now.faults frame.now.knots.now frame.now.low_pins.now gates.old gates.new }
    ensures listed { events.new.listed ≡ events.old.listed }
{
    let count = evaluate(frame, low_tables, gates, &events.queue, &mut events.flips);
    empty(&mut events.queue);
    flip_all(events, count, frame, low_tables, gates);
    count
}

/// Makes so many ticks. Once no table is to be evaluated all further ones change nothing, and are left out.
fn tick_listed_on(
    events: &mut Events,
    frame: &Frame<'_, '_, '_>,
    low_tables: &mut [bool],
    gates: &mut [Gate],
    ticks: u16,
)
    requires fits { All (Fits (tables_of frame.now.faults.now.shape) (length frame.now.knots.now)) gates.old }
    requires pins { length frame.now.low_pins.now ≡ length frame.now.knots.now }
    requires tables { length low_tables.old ≡ length frame.now.knots.now }
    requires flips { length events.old.flips.items ≡ length gates.old }
    requires sound { IsSound gates.old events.old.readers events.old.queue events.old.pulls.items low_tables.old }
    requires still { AreStill frame.now.faults.now.faults (level_at frame.now.knots.now frame.now.low_pins.now low_tables.old)
        gates.old events.old.queue.marks.items }
    ensures fits { All (Fits (tables_of frame.now.faults.now.shape) (length frame.now.knots.now)) gates.new }
    ensures tables { length low_tables.new ≡ length frame.now.knots.now }
    ensures flips { length events.new.flips.items ≡ length gates.new }
    ensures sound { IsSound gates.new events.new.readers events.new.queue events.new.pulls.items low_tables.new }
    ensures ticked { HaveTicked frame.now.faults.now.faults frame.now.knots.now frame.now.low_pins.now gates.old ticks gates.new }
    ensures listed { events.new.listed ≡ events.old.listed }
{
    'ticks: for _n in 0..ticks {
        if events.queue.count == 0 {
            return;
        }
        tick_listed(events, frame, low_tables, gates);
    }
}

/// Makes so many ticks, or fewer that lead to the same: until no table is to be evaluated, or they lead back to what the
/// tables gave before, which they would do over and over. Whether more than half of them changed more than a quarter of
/// the tables.
fn tick_listed_times(
    events: &mut Events,
    frame: &Frame<'_, '_, '_>,
    low_tables: &mut [bool],
    gates: &mut [Gate],
    past: &mut Past,
    ticks: u16,
) -> bool
    requires fits { All (Fits (tables_of frame.now.faults.now.shape) (length frame.now.knots.now)) gates.old }
    requires pins { length frame.now.low_pins.now ≡ length frame.now.knots.now }
    requires tables { length low_tables.old ≡ length frame.now.knots.now }
    requires flips { length events.old.flips.items ≡ length gates.old }
    requires sound { IsSound gates.old events.old.readers events.old.queue events.old.pulls.items low_tables.old }
    requires still { AreStill frame.now.faults.now.faults (level_at frame.now.knots.now frame.now.low_pins.now low_tables.old)
        gates.old events.old.queue.marks.items }
    ensures fits { All (Fits (tables_of frame.now.faults.now.shape) (length frame.now.knots.now)) gates.new }
    ensures tables { length low_tables.new ≡ length frame.now.knots.now }
    ensures flips { length events.new.flips.items ≡ length gates.new }
    ensures sound { IsSound gates.new events.new.readers events.new.queue events.new.pulls.items low_tables.new }
    ensures ticked { HaveTicked frame.now.faults.now.faults frame.now.knots.now frame.now.low_pins.now gates.old ticks gates.new }
    ensures listed { events.new.listed ≡ events.old.listed }
{
    let few = gates.len() / 4;
    let mut busy = 0u16;
    forget(past);
    'ticks: for n in 0..ticks {
        if events.queue.count == 0 {
            return busy > ticks / 2;
        }
        let count = tick_listed(events, frame, low_tables, gates);
        busy = busy.saturating_add(u16::from(count > few));
        if let Some(left) = look_back(past, gates, n + 1, ticks) {
            tick_listed_on(events, frame, low_tables, gates, left);
            return busy > n / 2;
        }
    }
    busy > ticks / 2
}

/// Makes so many ticks, of which the first evaluates all tables, and each further one those of which an input changed.
/// Whether more than half of them changed more than a quarter of the tables.
pub fn settle_listed(
    events: &mut Events,
    frame: &Frame<'_, '_, '_>,
    low_tables: &mut [bool],
    gates: &mut [Gate],
    past: &mut Past,
    ticks: u16,
) -> bool
    requires fits { All (Fits (tables_of frame.now.faults.now.shape) (length frame.now.knots.now)) gates.old }
    requires pins { length frame.now.low_pins.now ≡ length frame.now.knots.now }
    requires tables { length low_tables.old ≡ length frame.now.knots.now }
    requires clear { IsClear low_tables.old }
    requires pulls { length events.old.pulls.items ≡ length frame.now.knots.now }
    requires zero { AreZero events.old.pulls.items }
    requires events { AreEvents gates.old events.old }
    ensures fits { All (Fits (tables_of frame.now.faults.now.shape) (length frame.now.knots.now)) gates.new }
    ensures tables { length low_tables.new ≡ length frame.now.knots.now }
    ensures clear { IsClear low_tables.new }
    ensures pulls { length events.new.pulls.items ≡ length frame.now.knots.now }
    ensures zero { AreZero events.new.pulls.items }
    ensures events { AreEvents gates.new events.new }
    ensures ticked { HaveTicked frame.now.faults.now.faults frame.now.knots.now frame.now.low_pins.now gates.old ticks gates.new }
    ensures listed { events.new.listed ≡ events.old.listed }
{
    count_pulls(gates, &mut events.pulls, low_tables);
    add_all(&mut events.queue);
    let busy = tick_listed_times(events, frame, low_tables, gates, past, ticks);
    clear_pulls(gates, &mut events.pulls);
    clear_tables(gates, low_tables);
    busy
}

/// Leaves it at evaluating all tables in each tick from now on, if so much changes that this is quicker.
pub fn give_up(events: &mut Events, busy: bool)
    ensures pulls { events.new.pulls ≡ events.old.pulls }
    ensures listed { events.new.listed ≡ true → events.new ≡ events.old }
{
    if busy {
        events.listed = false;
    }
}
