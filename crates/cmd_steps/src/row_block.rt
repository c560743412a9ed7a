//! Rows that are written in blocks.
ghost use Rattle.std.specs.Prelude.{◌≡◌, ◌++◌, ◌<◌, length, [], IfOk, IfErr, OnErr, IsSome};
ghost use Rattle.design_vectors.specs.Rows.{row_line};
ghost use Rattle.cmd_steps.specs.Files.{most_vector_bytes};
ghost use Rattle.cmd_steps.specs.NextVectors.{StaysOpen, WaitsOrPuts, NextOf, NextStops, rows_at};
ghost use Rattle.cmd_steps.specs.Took.{Puts};

use crate::output::write;
use crate::refusal::Stop;
use base_io::{Sink, Store};
use design_vectors::{VectorText, put_row};
use std::alloc::{AllocError, Global};
use std::marker::Model;

/// How many bytes of rows go out together at most, unless a single line is longer.
const BLOCK: usize = 65536;

/// Rows of one width that wait to be written together. Contracts see that width and the lines that wait.
#[derive(Drop)]
pub struct RowBlock {
    width: u32,
    /// The lines that wait are the first `count` bytes.
    text: Vec<u8>,
    count: usize,
}

impl Model for RowBlock {
    ghost use Rattle.std.specs.Prelude.{◌≡◌, ◌+◌, ◌≤◌, max, length, take};
    ghost use Rattle.cmd_steps.specs.NextVectors.{WaitingRows};

    ghost Value = { WaitingRows };

    ghost view = { λ b. record { width = b.width; text = take b.count b.text.items } };

    // One more line has room.
    ghost invariant = { λ b. b.count + (max 1 b.width + 1) ≤ length b.text.items };
}

impl RowBlock {
    /// No rows, with room for 65,536 bytes or one longer line of so many bits.
    pub fn new(alloc: Global, width: u32) -> Result<Self, AllocError>
        ensures { IfOk result (λ b. b ≡ record { width = width; text = [] }) }
    {
        let line = if width == 0 { 2 } else { width as usize + 1 };
        let size = if line < BLOCK { BLOCK } else { line };
        let text = vec![in alloc; 0u8; size]?;
        Ok(RowBlock {
            width,
            text,
            count: 0,
        })
    }

    /// Lets a row wait behind the others. Where one more would have no room, all are written. Takes no memory.
    ///
    /// # Errors
    ///
    /// The sink's, where it doesn't take them. Then none waits any more.
    pub fn add<K: Sink>(&mut self, row: &[bool], sink: &mut K) -> Result<(), Stop>
        requires { length row.now ≡ self.old.width }
        ensures width { self.new.width ≡ self.old.width }
        ensures waits { let lines = self.old.text ++ row_line row.now in
            WaitsOrPuts lines self.new.text result (K.sink_state sink.old) (K.sink_state sink.new) }
    {
        let end = put_row(&mut self.text, self.count, row);
        let line = end - self.count;
        if self.text.len() - end < line {
            self.count = 0;
            return write(sink, &self.text[..end]);
        }
        self.count = end;
        Ok(())
    }

    /// Writes the rows that wait: then none does any more.
    ///
    /// # Errors
    ///
    /// The sink's, where rows wait and it doesn't take them.
    pub fn put<K: Sink>(&mut self, sink: &mut K) -> Result<(), Stop>
        ensures width { self.new.width ≡ self.old.width }
        ensures empty { self.new.text ≡ [] }
        ensures puts { Puts self.old.text result (K.sink_state sink.old) (K.sink_state sink.new) }
        ensures some { OnErr result (0 < length self.old.text) }
    {
        let end = self.count;
        if end == 0 {
            return Ok(());
        }
        self.count = 0;
        write(sink, &self.text[..end])
    }
}

/// Reads the next vector of the current file. False says that it has no more. The rows that wait are written before
/// the store is asked for bytes, and at the end of the file.
///
/// # Errors
///
/// The sink's, where it doesn't take the rows; then the first fault of the file, or the store's.
pub fn next_vector<S: Store, K: Sink>(
    vectors: &mut VectorText,
    vector: &mut Vec<bool>,
    block: &mut RowBlock,
    store: &mut S,
    sink: &mut K,
) -> Result<bool, Stop>
    requires current { IsSome (S.store_state store.old).current }
    requires width { length vector.old.items ≡ vectors.old.width }
    requires limit { vectors.old.limit ≡ most_vector_bytes }

    ensures stays { StaysOpen (S.store_state store.old) (S.store_state store.new) }
    ensures vectors { vectors.new.width ≡ vectors.old.width }
    ensures limit { vectors.new.limit ≡ vectors.old.limit }
    ensures length { length vector.new.items ≡ length vector.old.items }
    ensures block { block.new.width ≡ block.old.width }
    ensures gives { IfOk result (λ more. NextOf more vector.new.items
        (rows_at vectors.old block.old (S.store_state store.old) (K.sink_state sink.old))
        (rows_at vectors.new block.new (S.store_state store.new) (K.sink_state sink.new))) }
    ensures refused { IfErr result (λ stop. NextStops stop
        (rows_at vectors.old block.old (S.store_state store.old) (K.sink_state sink.old))
        (rows_at vectors.new block.new (S.store_state store.new) (K.sink_state sink.new))) }
{
    if vectors.next_unread(vector) {
        return Ok(true);
    }
    block.put(sink)?;
    let more = vectors.next(store, vector)?;
    Ok(more)
}
