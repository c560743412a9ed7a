//! Who reads each table of a network.

ghost use Rattle.std.specs.Prelude.{◌≡◌, ◌<◌, ℕ, length, IfOk, MatchOption};
ghost use Rattle.map_network.specs.Networks.{IsNetwork};
ghost use Rattle.map_network.specs.Levels.{IsSourceIn, AreSourcesIn};
ghost use Rattle.map_network.specs.Merging.{CanJoin, IsWhole};
ghost use Rattle.map_network.specs.Joining.{all_readers, in_tables, noted, noted_one, one_more, with_reader};

use crate::joining::joined_at;
use crate::network::{NetTable, Network};
use crate::source::Source;
use std::alloc::{AllocError, Global};

/// How many read a table, and who was found last.
#[derive(Clone, Copy, Debug)]
pub struct Readers {
    pub count: u32,
    pub last: u32,
}

fn one_more(count: u32) -> u32
    ensures { result ≡ one_more count }
{
    if count < u32::MAX { count + 1 } else { count }
}

fn with_reader(readers: Readers, reader: u32) -> Readers
    ensures { result ≡ with_reader readers reader }
{
    if readers.count > 0 && readers.last == reader {
        readers
    } else {
        Readers {
            count: one_more(readers.count),
            last: reader,
        }
    }
}

fn note_one(readers: &mut Vec<Readers>, reader: u32, source: Source)
    requires { IsSourceIn (length readers.old.items) source }
    ensures { readers.new.items ≡ noted_one reader source readers.old.items }
{
    match source {
        Source::Input(_) => {}
        Source::Table(table) => {
            readers[table as usize] = with_reader(readers[table as usize], reader);
        }
    }
}

/// Notes that the reader reads these sources.
fn note(readers: &mut Vec<Readers>, reader: u32, ins: &[Source])
    requires { AreSourcesIn (length readers.old.items) ins.now }
    ensures noted { readers.new.items ≡ noted reader ins.now readers.old.items }
    ensures len { length readers.new.items ≡ length readers.old.items }
{
    'ins: for k in 0..ins.len() {
        note_one(readers, reader, ins[k]);
    }
}

/// The readers of each table. Outputs count as one reader, with the number behind the last table.
pub fn readers_of(
    alloc: Global,
    tables: &[NetTable],
    outputs: &[Source],
) -> Result<Vec<Readers>, AllocError>
    requires few { length tables.now < 4294967296 }
    requires tables { (j : ℕ) → j < length tables.now → AreSourcesIn (length tables.now) (in_tables tables.now j).ins }
    requires outputs { AreSourcesIn (length tables.now) outputs.now }
    ensures { IfOk result (λ readers. readers.items ≡ all_readers tables.now outputs.now) }
{
    let mut readers = vec![in alloc; Readers { count: 0, last: 0 }; tables.len()]?;
    'tables: for j in 0..tables.len() {
        note(&mut readers, j as u32, tables[j].ins.as_slice());
    }
    note(&mut readers, tables.len() as u32, outputs);
    Ok(readers)
}

/// The only reader of the table, if the table can be put into it.
fn reader_for(alloc: Global, network: &Network, readers: &[Readers], table: u32) -> Option<u32>
    requires network { IsNetwork network.now }
    requires readers { readers.now ≡ all_readers network.now.tables network.now.outputs }
    requires within { table < length network.now.tables }
    ensures { MatchOption result ((r : ℕ) → CanJoin network.now table r → ⊥) (λ reader. CanJoin network.now table reader) }
{
    let Readers { count, last } = readers[table as usize];
    if count != 1 {
        return None;
    }
    match joined_at(alloc, network.tables.as_slice(), table, last) {
        Some(_) => Some(last),
        None => None,
    }
}

/// A table that can be put into its reader, and the reader.
pub fn find_joinable(alloc: Global, network: &Network) -> Result<Option<(u32, u32)>, AllocError>
    requires { IsNetwork network.now }
    ensures { IfOk result (λ found. MatchOption found (IsWhole network.now) (λ pair. CanJoin network.now pair.0 pair.1)) }
{
    let tables = network.tables.as_slice();
    let readers = readers_of(alloc, tables, network.outputs.as_slice())?;
    'tables: for table in 0..tables.len() {
        if let Some(reader) = reader_for(alloc, network, &readers, table as u32) {
            return Ok(Some((table as u32, reader)));
        }
    }
    Ok(None)
}
