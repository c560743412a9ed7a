//! The tables that are to be evaluated.

ghost use Rattle.std.specs.Prelude.{◌≡◌, ℕ, ◌<◌, true, false, length, slice_index, OnOk};
ghost use Rattle.rig_simulated.specs.Queues.{is_marked, IsQueue, KeepsMarks};

use std::alloc::AllocError;

/// The places of tables that are to be evaluated, each once.
#[derive(Drop)]
pub struct Queue {
    /// The places; only the first ones count.
    pub due: Vec<usize>,
    pub count: usize,
    /// Whether a place is listed.
    pub marks: Vec<bool>,
}

/// Makes room for so many places, and lists none.
pub fn make_room(queue: &mut Queue, places: usize) -> Result<(), AllocError>
    ensures queue { OnOk result (IsQueue queue.new) }
    ensures len { OnOk result (length queue.new.marks.items ≡ places) }
{
    queue.count = 0;
    queue.due.clear();
    queue.marks.clear();
    'places: for _k in 0..places {
        queue.due.push(0)?;
        queue.marks.push(false)?;
    }
    Ok(())
}

/// Lists a place, if it isn't yet.
pub fn add(queue: &mut Queue, place: usize)
    requires queue { IsQueue queue.old }
    requires place { place < length queue.old.marks.items }
    ensures queue { IsQueue queue.new }
    ensures len { length queue.new.marks.items ≡ length queue.old.marks.items }
    ensures kept { KeepsMarks queue.old.marks.items queue.new.marks.items }
    ensures marked { is_marked queue.new.marks.items place ≡ true }
{
    if queue.marks[place] {
        return;
    }
    queue.due[queue.count] = place;
    queue.count += 1;
    queue.marks[place] = true;
}

/// Lists all places.
pub fn add_all(queue: &mut Queue)
    requires { IsQueue queue.old }
    ensures queue { IsQueue queue.new }
    ensures len { length queue.new.marks.items ≡ length queue.old.marks.items }
    ensures marked { (k : ℕ) → k < length queue.new.marks.items → is_marked queue.new.marks.items k ≡ true }
{
    'places: for k in 0..queue.marks.len() {
        add(queue, k);
    }
}

/// A place that is listed.
pub fn place_at(queue: &Queue, i: usize) -> usize
    requires queue { IsQueue queue.now }
    requires within { i < queue.now.count }
    ensures place { result ≡ slice_index queue.now.due.items i }
    ensures within { result < length queue.now.marks.items }
{
    queue.due[i]
}

/// Takes all marks away.
pub fn empty(queue: &mut Queue)
    requires { IsQueue queue.old }
    ensures queue { IsQueue queue.new }
    ensures len { length queue.new.marks.items ≡ length queue.old.marks.items }
    ensures none { (k : ℕ) → is_marked queue.new.marks.items k ≡ false }
{
    'due: for i in 0..queue.count {
        let place = queue.due[i];
        queue.marks[place] = false;
    }
    queue.count = 0;
}
