//! What a line of a text lists.

ghost use Rattle.std.specs.Prelude.{◌≡◌};
ghost use Rattle.machine_defects.specs.Text.{kind_of, entry_number, is_before};

use machine_shape::{Cross, Table, Wire};

/// What a line lists.
#[derive(Clone, Copy, Debug, PartialEq, Eq)]
pub enum Entry {
    Wire { wire: Wire },
    Cross { cross: Cross },
    Table { table: Table },
}

/// The place of the entry's kind: wires come first, then crosspoints, then tables.
fn kind_of(e: Entry) -> u8
    ensures { result ≡ kind_of e }
{
    match e {
        Entry::Wire { .. } => 0,
        Entry::Cross { .. } => 1,
        Entry::Table { .. } => 2,
    }
}

/// The number of what is listed.
fn number_of(e: Entry) -> u32
    ensures { result ≡ entry_number e }
{
    match e {
        Entry::Wire { wire } => wire.0,
        Entry::Cross { cross } => cross.0,
        Entry::Table { table } => table.0,
    }
}

/// Whether the first stands before the second.
pub fn is_before(a: Entry, b: Entry) -> bool
    ensures { result ≡ is_before a b }
{
    kind_of(a) < kind_of(b) || (kind_of(a) == kind_of(b) && number_of(a) < number_of(b))
}
