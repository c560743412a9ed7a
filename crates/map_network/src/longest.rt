//! The depth of a network.

ghost use Rattle.std.specs.Prelude.{◌≡◌, ◌<◌, ℕ, [], length, IfOk, OnOk, MatchOption};
ghost use Rattle.map_network.specs.declared.longest.Mark.TheVariants.{New};
ghost use Rattle.map_network.specs.Networks.{IsNetwork, table_at};
ghost use Rattle.map_network.specs.Depths.{IsDepth};
ghost use Rattle.map_network.specs.Levels.{mark_at, level_in, level_of, new_table, IsSourceIn, AreSourcesIn, IsNewAmong, IsMost};
ghost use Rattle.map_network.specs.Levels.{source_level, level_at, AreMarks, IsLastOf, IsReadByLast, IsDoneIn, source_at, IsSearching};
ghost use Rattle.map_network.specs.Levels.{StaysSeen, work_of};

use crate::network::{NetTable, Network};
use crate::source::Source;
use std::alloc::{AllocError, Global};

/// How far the search has come with a table.
#[derive(Clone, Copy, Debug, PartialEq, Eq)]
pub enum Mark {
    New,
    /// It stands on the path.
    Open,
    /// The longest path to it has so many tables.
    Done(u32),
}

/// A search through the tables. Each table of the path reads the next.
#[derive(Debug, Drop)]
pub struct Search {
    pub marks: Vec<Mark>,
    pub path: Vec<u32>,
}

/// The marks at the start: a latched table is done, since no path leads through it.
fn marks_of(alloc: Global, tables: &[NetTable]) -> Result<Vec<Mark>, AllocError>
    ensures { IfOk result (λ marks. AreMarks tables.now (length tables.now) marks.items) }
{
    let mut marks = vec![in alloc; Mark::New; tables.len()]?;
    'tables: for j in 0..tables.len() {
        if tables[j].latched {
            marks[j] = Mark::Done(0);
        }
    }
    Ok(marks)
}

fn last_of(path: &Vec<u32>) -> Option<u32>
    ensures { MatchOption result (path.now.items ≡ []) (λ table. IsLastOf path.now.items table) }
{
    if path.is_empty() {
        return None;
    }
    Some(path[path.len() - 1])
}

/// What a table reads.
fn ins_of(network: &Network, table: u32) -> &[Source]
    requires { table < length network.now.tables }
    ensures { result.now ≡ (table_at network.now table).ins }
{
    network.tables.as_slice()[table as usize].ins.as_slice()
}

/// The table of the source, if it is new.
fn new_table(marks: &[Mark], source: Source) -> Option<u32>
    requires { IsSourceIn (length marks.now) source }
    ensures { result ≡ new_table marks.now source }
{
    match source {
        Source::Input(_) => None,
        Source::Table(table) => match marks[table as usize] {
            Mark::New => Some(table),
            Mark::Open | Mark::Done(_) => None,
        },
    }
}

/// A table among the sources that is new.
fn new_among(marks: &[Mark], ins: &[Source]) -> Option<u32>
    requires { AreSourcesIn (length marks.now) ins.now }
    ensures { IsNewAmong marks.now ins.now result }
{
    'ins: for k in 0..ins.len() {
        if let Some(table) = new_table(marks, ins[k]) {
            return Some(table);
        }
    }
    None
}

fn level_of(mark: Mark) -> u32
    ensures { result ≡ level_of mark }
{
    match mark {
        Mark::New | Mark::Open => 0,
        Mark::Done(level) => level,
    }
}

fn level_in(marks: &[Mark], source: Source) -> u32
    requires { IsSourceIn (length marks.now) source }
    ensures { result ≡ level_in marks.now source }
{
    match source {
        Source::Input(_) => 0,
        Source::Table(table) => level_of(marks[table as usize]),
    }
}

/// The greatest level among the sources, or 0.
fn most(marks: &[Mark], ins: &[Source]) -> u32
    requires { AreSourcesIn (length marks.now) ins.now }
    ensures { IsMost (source_level marks.now ins.now) (length ins.now) result }
{
    let mut best = 0;
    'ins: for k in 0..ins.len() {
        let level = level_in(marks, ins[k]);
        if level > best {
            best = level;
        }
    }
    best
}

/// The greatest level of all, or 0.
fn most_of_all(marks: &[Mark]) -> u32
    ensures { IsMost (level_at marks.now) (length marks.now) result }
{
    let mut best = 0;
    'marks: for k in 0..marks.len() {
        let level = level_of(marks[k]);
        if level > best {
            best = level;
        }
    }
    best
}

/// Puts a table that is new on the path.
fn open(search: &mut Search, network: &Network, table: u32) -> Result<(), AllocError>
    requires searching { IsSearching network.now search.old }
    requires fresh { mark_at search.old.marks.items table ≡ New }
    requires read { IsReadByLast network.now search.old.path.items table }
    ensures searching { OnOk result (IsSearching network.now search.new) }
    ensures less { OnOk result (work_of search.new.marks.items < work_of search.old.marks.items) }
    ensures seen { OnOk result (StaysSeen search.old.marks.items search.new.marks.items) }
    ensures itself { OnOk result (mark_at search.new.marks.items table ≡ New → ⊥) }
{
    search.path.push(table)?;
    search.marks[table as usize] = Mark::Open;
    Ok(())
}

/// Takes the last table off the path: all that it reads is done.
fn close(search: &mut Search, network: &Network, table: u32)
    requires network { IsNetwork network.now }
    requires searching { IsSearching network.now search.old }
    requires last { IsLastOf search.old.path.items table }
    requires visited { (k : ℕ) → k < length (table_at network.now table).ins →
        IsDoneIn search.old.marks.items (source_at (table_at network.now table).ins k) }
    ensures searching { IsSearching network.now search.new }
    ensures less { work_of search.new.marks.items < work_of search.old.marks.items }
    ensures seen { StaysSeen search.old.marks.items search.new.marks.items }
{
    let ins = ins_of(network, table);
    let level = most(&search.marks, ins) + 1;
    search.marks[table as usize] = Mark::Done(level);
    let _ = search.path.pop();
}

/// One step of the search, from the last table of the path.
fn step(search: &mut Search, network: &Network, table: u32) -> Result<(), AllocError>
    requires network { IsNetwork network.now }
    requires searching { IsSearching network.now search.old }
    requires last { IsLastOf search.old.path.items table }
    ensures searching { OnOk result (IsSearching network.now search.new) }
    ensures less { OnOk result (work_of search.new.marks.items < work_of search.old.marks.items) }
    ensures seen { OnOk result (StaysSeen search.old.marks.items search.new.marks.items) }
{
    let ins = ins_of(network, table);
    match new_among(&search.marks, ins) {
        Some(source) => open(search, network, source),
        None => {
            close(search, network, table);
            Ok(())
        }
    }
}

/// Visits all that the path leads to.
fn run(search: &mut Search, network: &Network) -> Result<(), AllocError>
    requires network { IsNetwork network.now }
    requires searching { IsSearching network.now search.old }
    ensures searching { OnOk result (IsSearching network.now search.new) }
    ensures ended { OnOk result (search.new.path.items ≡ []) }
    ensures seen { OnOk result (StaysSeen search.old.marks.items search.new.marks.items) }
{
    'steps: while let Some(table) = last_of(&search.path) {
        step(search, network, table)?;
    }
    Ok(())
}

/// Visits a table, if it is new, and all that it reads.
fn visit(search: &mut Search, network: &Network, table: u32) -> Result<(), AllocError>
    requires network { IsNetwork network.now }
    requires searching { IsSearching network.now search.old }
    requires ended { search.old.path.items ≡ [] }
    requires within { table < length network.now.tables }
    ensures searching { OnOk result (IsSearching network.now search.new) }
    ensures ended { OnOk result (search.new.path.items ≡ []) }
    ensures seen { OnOk result (StaysSeen search.old.marks.items search.new.marks.items) }
    ensures itself { OnOk result (mark_at search.new.marks.items table ≡ New → ⊥) }
{
    match search.marks[table as usize] {
        Mark::New => {
            open(search, network, table)?;
            run(search, network)
        }
        Mark::Open | Mark::Done(_) => Ok(()),
    }
}

/// The most combinational tables on one path, each of which reads the one before. The time is linear in the number of
/// tables, and no call is nested, however long a path is.
///
/// # Errors
///
/// Out of memory.
pub fn depth(alloc: Global, network: &Network) -> Result<u32, AllocError>
    requires { IsNetwork network.now }
    ensures { IfOk result (λ depth. IsDepth network.now depth) }
{
    let tables = network.tables.as_slice();
    let mut search = Search {
        marks: marks_of(alloc, tables)?,
        path: Vec::new(alloc),
    };
    'tables: for table in 0..tables.len() {
        visit(&mut search, network, table as u32)?;
    }
    Ok(most_of_all(&search.marks))
}
