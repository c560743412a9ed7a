//! The tables that read a class.

ghost use Rattle.std.specs.Prelude.{◌≡◌, ℕ, ◌<◌, true, length, slice_index, All, OnOk};
ghost use Rattle.std.specs.List.{Contains};
ghost use Rattle.std.specs.List.Sorted.{IsNonDecreasingBy};
ghost use Rattle.rig_simulated.specs.Queues.{is_marked, IsQueue, KeepsMarks};
ghost use Rattle.rig_simulated.specs.Readers.{AreListed, AreStarts, AreReaders, StartsAt, HaveGrown};

use crate::gates::Gate;
use crate::queue::{Queue, add};
use base_table::TABLE_INPUTS;
use std::alloc::AllocError;

/// A table that reads a class.
#[derive(Clone, Copy, Debug)]
pub struct Reader {
    pub class: u32,
    /// The table's place in the list of those that are on.
    pub place: usize,
}

/// For what each table gives the tables that read it.
#[derive(Drop)]
pub struct Readers {
    /// By their classes.
    pub list: Vec<Reader>,
    /// Of each table, where the readers of what it gives begin.
    pub starts: Vec<usize>,
}

/// Adds a table to the readers of each class that it reads.
fn push_readers(list: &mut Vec<Reader>, gate: Gate, place: usize) -> Result<(), AllocError>
    ensures { OnOk result (HaveGrown gate place list.old.items list.new.items) }
{
    'inputs: for j in 0..TABLE_INPUTS {
        list.push(Reader {
            class: gate.ins[j],
            place,
        })?;
    }
    Ok(())
}

/// The readers of all classes.
fn fill_list(list: &mut Vec<Reader>, gates: &[Gate]) -> Result<(), AllocError>
    ensures sorted { OnOk result (IsNonDecreasingBy (λ (x : Reader). x.class) list.new.items) }
    ensures within { OnOk result (All (λ (x : Reader). x.place < length gates.now) list.new.items) }
    ensures listed { OnOk result (AreListed gates.now (length gates.now) list.new.items) }
{
    list.clear();
    'gates: for k in 0..gates.len() {
        push_readers(list, gates[k], k)?;
    }
    list.sort_unstable_by_key(|reader| reader.class);
    Ok(())
}

/// Where the readers of a class begin.
fn start_of(list: &[Reader], class: u32) -> usize
    requires { IsNonDecreasingBy (λ (x : Reader). x.class) list.now }
    ensures { StartsAt list.now class result }
{
    list.partition_point(|reader| reader.class < class)
}

/// Where the readers of what each table gives begin.
fn fill_starts(starts: &mut Vec<usize>, list: &[Reader], gates: &[Gate]) -> Result<(), AllocError>
    requires { IsNonDecreasingBy (λ (x : Reader). x.class) list.now }
    ensures len { OnOk result (length starts.new.items ≡ length gates.now) }
    ensures starts { OnOk result (AreStarts gates.now (length gates.now) list.now starts.new.items) }
{
    starts.clear();
    'gates: for k in 0..gates.len() {
        starts.push(start_of(list, gates[k].out))?;
    }
    Ok(())
}

/// Finds the readers of what these tables give.
pub fn fill_readers(readers: &mut Readers, gates: &[Gate]) -> Result<(), AllocError>
    ensures { OnOk result (AreReaders gates.now readers.new) }
{
    fill_list(&mut readers.list, gates)?;
    fill_starts(&mut readers.starts, &readers.list, gates)?;
    Ok(())
}

/// Lists the tables that read what the table at a place gives.
pub fn add_readers(readers: &Readers, place: usize, class: u32, queue: &mut Queue)
    requires place { place < length readers.now.starts.items }
    requires start { StartsAt readers.now.list.items class (slice_index readers.now.starts.items place) }
    requires sorted { IsNonDecreasingBy (λ (x : Reader). x.class) readers.now.list.items }
    requires within { All (λ (x : Reader). x.place < length queue.old.marks.items) readers.now.list.items }
    requires queue { IsQueue queue.old }
    ensures queue { IsQueue queue.new }
    ensures len { length queue.new.marks.items ≡ length queue.old.marks.items }
    ensures kept { KeepsMarks queue.old.marks.items queue.new.marks.items }
    ensures marked { (k : ℕ) → Contains readers.now.list.items (record { class = class; place = k }) →
        is_marked queue.new.marks.items k ≡ true }
{
    'readers: for i in readers.starts[place]..readers.list.len() {
        let reader = readers.list[i];
        if reader.class > class {
            return;
        }
        add(queue, reader.place);
    }
}
