//! Whether numbers are seen for the first time.
ghost use Rattle.std.specs.Prelude.{◌≡◌, ◌<◌, ◌∷◌, [], Some, IsTrue, length, slice_get};
ghost use Rattle.diag_sweep.specs.Sights.{Seen, SeesMore};

use base_bits::BitSet;

/// Whether a number wasn't seen. It is then.
pub(crate) fn is_new(seen: &mut BitSet, n: u32) -> bool
    requires { n < length seen.old }
    ensures len { length seen.new ≡ length seen.old }
    ensures sees { IsTrue result → SeesMore seen.old seen.new (n ∷ []) }
{
    if seen.has(n) {
        return false;
    }
    seen.insert(n);
    true
}

// A number at a place.
fn number_at(numbers: &[u32], place: usize) -> u32
    requires { place < length numbers.now }
    ensures { slice_get numbers.now place ≡ Some result }
{
    numbers[place]
}

/// Whether these numbers are seen for the first time.
pub(crate) fn see_all(seen: &mut BitSet, numbers: &[u32]) -> bool
    ensures len { length seen.new ≡ length seen.old }
    ensures seen { IsTrue result → Seen seen.new numbers.now }
{
    seen.clear();
    'numbers: for k in 0..numbers.len() {
        let number = number_at(numbers, k);
        if number >= seen.len() {
            return false;
        }
        if !is_new(seen, number) {
            return false;
        }
    }
    true
}
