//! Lists of crosspoints that begin alike.
ghost use Rattle.std.specs.Prelude.{◌≡◌, ◌≢◌, ◌+◌, ◌<◌, ◌≤◌, IsTrue, false, length, slice_get, take};

use machine_shape::Cross;

/// How many crosspoints are compared at a time.
const PART: usize = 256;

// Whether two lists that are alike up to a place are so for another part. Each is looked at, which a compiler does several at a time.
fn are_alike(one: &[Cross], other: &[Cross], from: usize) -> bool
    requires one { from + 256 ≤ length one.now }
    requires other { from + 256 ≤ length other.now }
    requires alike { take from one.now ≡ take from other.now }
    ensures { IsTrue result → take (from + 256) one.now ≡ take (from + 256) other.now }
{
    let mut same = true;
    'places: for k in from..from + PART {
        if one[k].0 != other[k].0 {
            same = false;
        }
    }
    same
}

// How many crosspoints come first in both of two lists that are alike up to a place.
fn count_from(one: &[Cross], other: &[Cross], from: usize) -> usize
    requires one { from ≤ length one.now }
    requires other { from ≤ length other.now }
    requires alike { take from one.now ≡ take from other.now }
    ensures one { result ≤ length one.now }
    ensures other { result ≤ length other.now }
    ensures alike { take result one.now ≡ take result other.now }
    ensures most { result < length one.now → result < length other.now → slice_get one.now result ≢ slice_get other.now result }
{
    let most = one.len().min(other.len());
    'places: for k in from..most {
        if one[k].0 != other[k].0 {
            return k;
        }
    }
    most
}

/// How many crosspoints come first in both lists. Long lists that begin alike are compared part by part.
pub fn count_alike(one: &[Cross], other: &[Cross]) -> usize
    ensures one { result ≤ length one.now }
    ensures other { result ≤ length other.now }
    ensures alike { take result one.now ≡ take result other.now }
    ensures most { result < length one.now → result < length other.now → slice_get one.now result ≢ slice_get other.now result }
{
    let parts = one.len().min(other.len()) / PART;
    'parts: for part in 0..parts {
        if !are_alike(one, other, part * PART) {
            return count_from(one, other, part * PART);
        }
    }
    count_from(one, other, parts * PART)
}

/// Whether two lists are one.
pub fn are_same(one: &[Cross], other: &[Cross]) -> bool
    ensures yes { IsTrue result → one.now ≡ other.now }
    ensures no { result ≡ false → one.now ≢ other.now }
{
    one.len() == other.len() && count_alike(one, other) == one.len()
}
