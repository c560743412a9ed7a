//! The copies of what an image lays, and their bits.
ghost use Rattle.std.specs.Prelude.{◌≡◌, ◌+◌, ◌++◌, ◌↔◌, IsTrue, length};
ghost use Rattle.run_image.specs.Copying.{share, times, repeated, AreShared};
ghost use Rattle.run_image.specs.declared.copies.Copies.TheVariants.{Two};

/// How many copies an image lays side by side that are driven with the same bits. What they read is compared.
#[derive(Clone, Copy, Debug, PartialEq, Eq)]
pub enum Copies {
    /// What is laid stands alone, and nothing is compared.
    One,
    /// There are two, and each row is what both of them read.
    Two,
}

// Of so many pins, those of one copy.
pub(crate) fn share_of(copies: Copies, pins: u32) -> u32
    ensures { result ≡ share copies pins }
{
    match copies {
        Copies::One => pins,
        Copies::Two => pins / 2,
    }
}

// The bits, twice.
fn put_twice(bits: &[bool], all: &mut [bool])
    requires { length all.old ≡ length bits.now + length bits.now }
    ensures { all.new ≡ bits.now ++ bits.now }
{
    let count = bits.len();
    all[..count].copy_from_slice(bits);
    all[count..].copy_from_slice(bits);
}

// The bits, once for each copy.
pub(crate) fn repeat(copies: Copies, bits: &[bool], all: &mut [bool])
    requires { length all.old ≡ times copies (length bits.now) }
    ensures repeated { all.new ≡ repeated copies bits.now }
    ensures length { length all.new ≡ length all.old }
{
    match copies {
        Copies::One => all.copy_from_slice(bits),
        Copies::Two => put_twice(bits, all),
    }
}

// Whether these are the same bits.
fn are_same(first: &[bool], second: &[bool]) -> bool
    ensures { IsTrue result ↔ (first.now ≡ second.now) }
{
    first == second
}

// What the first of two copies has read, and whether the second has read the same.
fn halve(all: &[bool], bits: &mut [bool]) -> bool
    requires { length all.now ≡ length bits.old + length bits.old }
    ensures shared { AreShared Two result all.now bits.new }
    ensures length { length bits.new ≡ length bits.old }
{
    let count = bits.len();
    bits.copy_from_slice(&all[..count]);
    are_same(bits, &all[count..])
}

// What each copy has read, and whether that is the same.
pub(crate) fn share_row(copies: Copies, all: &[bool], bits: &mut [bool]) -> bool
    requires { length all.now ≡ times copies (length bits.old) }
    ensures shared { AreShared copies result all.now bits.new }
    ensures length { length bits.new ≡ length bits.old }
{
    match copies {
        Copies::One => {
            bits.copy_from_slice(all);
            true
        }
        Copies::Two => halve(all, bits),
    }
}
