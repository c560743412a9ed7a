//! Vectors that are evaluated at once, each in a lane of its own.

ghost use Rattle.std.specs.Prelude.{◌≡◌, ◌<◌, ◌≤◌, true, length, IfOk};
ghost use Rattle.design_eval.specs.Bits.{AreBelow};
ghost use Rattle.design_eval.specs.Blocks.{HaveKept, IsBlock, IsRowOf};
ghost use Rattle.design_eval.specs.Plans.{IsPlan};

use crate::lanes::{LANES, read_lane, stand_in};
use crate::plan::Plan;
use crate::word_truth::settle_words;
use design_netlist::Netlist;
use std::alloc::{AllocError, Global};

/// A block takes about as long as so many vectors do one after the other.
const LINES_AT_LEAST: u32 = 8;

/// After a block in which few bits changed, so many vectors get none: marks are cheaper there.
const VECTORS_WITHOUT_BLOCKS: u32 = 1023;

/// The last vectors that were evaluated at once. A vector that is asked for gets the row of its lane where it has one.
#[derive(Drop)]
pub struct Block {
    /// A word for each signal, with a bit for each vector; words of signals that nothing drives stay 0.
    pub words: Vec<u64>,
    /// How many vectors were evaluated.
    pub count: u32,
    /// The lane of the vector that is likely to be asked for next.
    pub next: u32,
    /// How many vectors get no block next.
    pub pause: u32,
}

/// A block with no vectors.
pub fn no_vectors(alloc: Global, netlist: &Netlist) -> Result<Block, AllocError>
    ensures { IfOk result (IsBlock netlist.now) }
{
    let words = vec![in alloc; 0u64; netlist.parts().names.len()]?;
    Ok(Block {
        words,
        count: 0,
        next: 0,
        pause: 0,
    })
}

// Whether a vector's bytes and an LF stand at a place of the text.
fn is_line(text: &[u8], from: usize, width: usize) -> bool {
    let end = from.saturating_add(width);
    if end >= text.len() || text[end] != b'\n' {
        return false;
    }
    'bytes: for at in from..end {
        if text[at] != b'0' && text[at] != b'1' {
            return false;
        }
    }
    true
}

// How many lines of a vector's bytes alone stand at the beginning of the text, at most one fewer than there are lanes.
fn lines_in(text: &[u8], width: usize) -> u32
    ensures { result ≤ 63 }
{
    let mut from = 0usize;
    'lines: for count in 0..LANES - 1 {
        if !is_line(text, from, width) {
            return count;
        }
        from = from.saturating_add(width).saturating_add(1);
    }
    LANES - 1
}

// The word of an input: its bit in the first lane, and its bits on the lines of the text in the lanes behind. It is
// a guess, on which nothing rests: a lane's bits are compared with the vector that is asked for.
fn column(bit: bool, text: &[u8], place: usize, size: usize, lines: u32) -> u64 {
    let mut word = 0u64;
    let mut at = (lines as usize).saturating_mul(size).saturating_add(place);
    'lines: for _ in 0..lines {
        at = at.saturating_sub(size);
        let byte = if at < text.len() { text[at] } else { b'0' };
        word = (word << 1) | u64::from(byte & 1);
    }
    (word << 1) | u64::from(bit)
}

// Gives the inputs their bits in all lanes: the vector's in the first one, and those of the lines behind.
fn put_columns(words: &mut Vec<u64>, signals: &[u32], vector: &[bool], text: &[u8], lines: u32)
    requires bits { length vector.now ≡ length signals.now }
    requires within { AreBelow (length words.old.items) signals.now }
    ensures size { length words.new.items ≡ length words.old.items }
    ensures kept { HaveKept signals.now words.old.items words.new.items }
{
    let size = signals.len().saturating_add(1);
    'signals: for k in 0..signals.len() {
        words[signals[k] as usize] = column(vector[k], text, k, size, lines);
    }
}

// How many vectors get no block after this one: some, if from lane to lane fewer than one of a hundred bits change.
fn pause_after(words: &[u64]) -> u32 {
    let mut changes = 0u64;
    'words: for k in 0..words.len() {
        let changed = (words[k] ^ (words[k] << 1)) & !1;
        changes = changes.saturating_add(u64::from(changed.count_ones()));
    }
    if changes < words.len() as u64 / 2 {
        VECTORS_WITHOUT_BLOCKS
    } else {
        0
    }
}

// Evaluates a vector and those on the lines of the text at once.
fn fill_lanes(
    block: &mut Block,
    netlist: &Netlist,
    plan: &Plan,
    vector: &[bool],
    text: &[u8],
    lines: u32,
)
    requires plan { IsPlan netlist.now plan.now }
    requires block { IsBlock netlist.now block.old }
    requires inputs { length vector.now ≡ length netlist.now.inputs }
    requires lines { lines ≤ 63 }
    ensures block { IsBlock netlist.now block.new }
    ensures some { 0 < block.new.count }
{
    let covers = netlist.parts().covers.as_slice();
    put_columns(&mut block.words, &plan.wiring.inputs, vector, text, lines);
    settle_words(&plan.turns, covers, &mut block.words);
    block.count = lines + 1;
    block.pause = pause_after(&block.words);
}

// Gives the row of a vector if a lane has it.
fn give_lane(
    block: &Block,
    netlist: &Netlist,
    plan: &Plan,
    lane: u32,
    vector: &[bool],
    out: &mut [bool],
) -> bool
    requires plan { IsPlan netlist.now plan.now }
    requires block { IsBlock netlist.now block.now }
    requires latches { length netlist.now.latches ≡ 0 }
    requires lane { lane < block.now.count }
    requires inputs { length vector.now ≡ length netlist.now.inputs }
    requires outputs { length out.old ≡ length netlist.now.outputs }
    ensures { result ≡ true → IsRowOf netlist.now vector.now out.new }
{
    let _draft = netlist.parts();
    if !stand_in(&block.words, &plan.wiring.inputs, lane, vector) {
        return false;
    }
    read_lane(&block.words, &plan.wiring.outputs, lane, out);
    true
}

/// Gives the row of a vector where it can be evaluated with others at once, or was. `ahead` is the text behind the
/// vector, as far as it is known: a guess at the next vectors, on which no row rests. False leaves the row undone.
/// Takes no memory.
pub fn give_ahead(
    block: &mut Block,
    netlist: &Netlist,
    plan: &Plan,
    vector: &[bool],
    ahead: &[u8],
    out: &mut [bool],
) -> bool
    requires plan { IsPlan netlist.now plan.now }
    requires block { IsBlock netlist.now block.old }
    requires inputs { length vector.now ≡ length netlist.now.inputs }
    requires outputs { length out.old ≡ length netlist.now.outputs }
    ensures block { IsBlock netlist.now block.new }
    ensures row { result ≡ true → IsRowOf netlist.now vector.now out.new }
{
    if !netlist.parts().latches.as_slice().is_empty() {
        return false;
    }
    if block.next < block.count {
        let lane = block.next;
        block.next += 1;
        if give_lane(block, netlist, plan, lane, vector, out) {
            return true;
        }
    }
    if block.pause > 0 {
        block.pause -= 1;
        return false;
    }
    let lines = lines_in(ahead, vector.len());
    if lines < LINES_AT_LEAST {
        return false;
    }
    fill_lanes(block, netlist, plan, vector, ahead, lines);
    block.next = 1;
    give_lane(block, netlist, plan, 0, vector, out)
}
