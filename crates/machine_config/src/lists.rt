//! Lists in which each member stands once.
ghost use Rattle.std.specs.Prelude.{◌≡◌, ℕ, ◌*◌, ◌<◌, true, false, IfSome, IfNone, None, [], length, All, replicate, slice_index_or};
ghost use Rattle.std.specs.Vec.{vec_capacity};
ghost use Rattle.machine_config.specs.Kept.{AreMarked, AreListed, has_mark};

use crate::Setting;
use base_bits::BitSet;
use machine_shape::{Cross, Table};

/// Where an item stands, sought from the end.
pub fn place_of<T: PartialEq>(items: &[T], x: &T) -> Option<usize>
    ensures found { IfSome result (λ i. (i < length items.now) × ((d : T) → T.eq (slice_index_or items.now i d) x.now ≡ true)) }
    ensures none { IfNone result ((k : ℕ) (d : T) → k < length items.now → T.eq (slice_index_or items.now k d) x.now ≡ false) }
{
    for i in (0..items.len()).rev() {
        if items[i] == *x {
            return Some(i);
        }
    }
    None
}

/// Takes all crosspoints from the list, and their marks away. The list keeps its room.
pub fn open_all(closed: &mut Vec<Cross>, marks: &mut BitSet)
    requires marked { AreMarked marks.old closed.old.items }
    requires within { All (λ c. c.0 < length marks.old) closed.old.items }
    ensures empty { closed.new.items ≡ [] }
    ensures room { vec_capacity closed.new ≡ vec_capacity closed.old }
    ensures len { length marks.new ≡ length marks.old }
    ensures clear { (q : ℕ) → has_mark marks.new q ≡ false }
{
    while let Some(c) = closed.pop() {
        marks.remove(c.0);
    }
}

/// Takes all tables from the list, and switches them off. The list keeps its room.
pub fn switch_all_off(on: &mut Vec<Table>, tables: &mut [Option<Setting>])
    requires { AreListed tables.old on.old.items }
    ensures empty { on.new.items ≡ [] }
    ensures room { vec_capacity on.new ≡ vec_capacity on.old }
    ensures off { tables.new ≡ replicate (length tables.old) None }
{
    while let Some(t) = on.pop() {
        tables[t.0 as usize] = None;
    }
}
