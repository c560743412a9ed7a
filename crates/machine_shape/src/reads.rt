//! From names back to wires and tables.
ghost use Rattle.std.specs.Prelude.{◌≡◌, ◌≢◌, ◌<◌, ◌≤◌, ◌==◌, ◌∷◌, ◌^◌, [], ℕ, List, length, IfSome, IfNone, take, drop};
ghost use Rattle.std.specs.List.{position};
ghost use Rattle.machine_shape.specs.Kinds.{path_of};
ghost use Rattle.machine_shape.specs.Names.{numbered, part_name, wire_name, table_name};
ghost use Rattle.machine_shape.specs.Reading.{IsRead, IsReadable, NoDot};
ghost use Rattle.machine_shape.specs.Shape.{levels_of, wires_of, tables_of, place_of};
ghost use Rattle.machine_shape.specs.Walk.{wires_in};

use crate::places::{first_table, first_wire, levels_of, steps_of};
use crate::tree::{below, way_under};
use crate::way::{Read, Way};
use crate::{Level, Shape, Table, Wire};
use base_text::read_number;

/// The place of the first dot.
fn dot_in(text: &[u8]) -> Option<usize>
    ensures { result ≡ position (λ b. b == 46) text.now }
{
    text.iter().position(|b| *b == b'.')
}

/// The text before a place.
fn text_before(text: &[u8], place: usize) -> &[u8]
    requires { place ≤ length text.now }
    ensures { result.now ≡ take place text.now }
{
    &text[..place]
}

/// The text from a place on.
fn after(text: &[u8], place: usize) -> &[u8]
    requires { place ≤ length text.now }
    ensures { result.now ≡ drop place text.now }
{
    &text[place..]
}

/// The number below `limit` that follows the letter in a word.
fn read_numbered(word: &[u8], letter: u8, limit: u32) -> Option<u32>
    ensures some { IfSome result (λ n. (word.now ≡ numbered letter n) × (n < limit)) }
    ensures none { IfNone result ((n : ℕ) → n < limit → word.now ≢ numbered letter n) }
{
    match word {
        [first, digits @ ..] if *first == letter && limit > 0 => {
            match read_number(digits, u64::from(limit - 1)) {
                Some(n) => Some(n as u32),
                None => None,
            }
        }
        _ => None,
    }
}

/// Reads the words of a way, from the node with these levels on, and leaves the last word.
fn read_steps(levels: &[Level], letters: &[u8], text: &[u8]) -> Option<Read>
    requires deep { length levels.now ≤ 4 }
    requires letters { NoDot letters.now }
    ensures some { IfSome result (λ r. IsRead levels.now letters.now text.now (path_of r.way) r.last) }
    ensures len { IfSome result (λ r. r.way.len ≤ length levels.now) }
    ensures none { IfNone result (¬ IsReadable levels.now letters.now text.now) }
{
    let Some(dot) = dot_in(text) else {
        return Some(Read {
            way: Way {
                steps: [0; 4],
                len: 0,
            },
            last: 0,
        });
    };
    match levels {
        [] => None,
        [level, rest @ ..] => match letters {
            [] => None,
            [letter, others @ ..] => {
                let Some(child) = read_numbered(text_before(text, dot), *letter, level.children)
                else {
                    return None;
                };
                let Some(read) = read_steps(rest, others, after(text, dot + 1)) else {
                    return None;
                };
                Some(Read {
                    way: way_under(child, read.way),
                    last: dot + 1 + read.last,
                })
            }
        },
    }
}

/// The position of the wire whose name, after its node's or table's, is this word.
fn read_part(letter: u8, levels: &[Level], word: &[u8]) -> Option<u32>
    requires small { wires_in levels.now < 2 ^ 32 }
    requires letter { letter ≢ 108 }
    ensures some { IfSome result (λ k. (k < wires_in levels.now) × (word.now ≡ part_name letter levels.now k)) }
    ensures none { IfNone result ((k : ℕ) → k < wires_in levels.now → word.now ≢ part_name letter levels.now k) }
{
    match levels {
        [] => match word {
            b"q" => Some(6),
            _ => read_numbered(word, b'i', 6),
        },
        [level, ..] => match read_numbered(word, letter, level.ports) {
            Some(k) => Some(k),
            None => match read_numbered(word, b'l', level.lines) {
                Some(k) => Some(level.ports + k),
                None => None,
            },
        },
    }
}

/// What follows `r.` in a name that begins so.
fn after_root(name: &[u8]) -> Option<&[u8]>
    ensures some { IfSome result (λ word. name.now ≡ 114 ∷ 46 ∷ word.now) }
    ensures none { IfNone result ((word : List ℕ) → name.now ≢ 114 ∷ 46 ∷ word) }
{
    if name.len() < 2 {
        return None;
    }
    if name[0] != b'r' {
        return None;
    }
    if name[1] != b'.' {
        return None;
    }
    Some(after(name, 2))
}

/// The wire of the root whose name, after `r.`, is this word.
fn root_wire(shape: Shape, word: &[u8]) -> Option<Wire>
    ensures some { IfSome result (λ w. (w.0 < wires_of shape) × (wire_name shape w.0 ≡ 114 ∷ 46 ∷ word.now)) }
    ensures none { IfNone result ((w : ℕ) → w < wires_of shape → wire_name shape w ≢ 114 ∷ 46 ∷ word.now) }
{
    let levels = levels_of(shape);
    match read_part(b'p', &levels, word) {
        Some(k) => Some(Wire(k)),
        None => None,
    }
}

/// The wire below the root that has this name.
fn inner_wire(shape: Shape, name: &[u8]) -> Option<Wire>
    ensures some { IfSome result (λ w. (w.0 < wires_of shape) × (wire_name shape w.0 ≡ name.now)) }
    ensures none { IfNone result ((w : ℕ) → w < wires_of shape → wire_name shape w ≡ name.now → (place_of shape w).path ≡ []) }
{
    let levels = levels_of(shape);
    let Some(read) = read_steps(&levels, b"mcht", name) else {
        return None;
    };
    let way = steps_of(&read.way);
    if way.len() == 0 {
        return None;
    }
    let word = after(name, read.last);
    match read_part(b'o', below(&levels, way.len()), word) {
        Some(k) => Some(Wire(first_wire(shape, way) + k)),
        None => None,
    }
}

impl Shape {
    /// The wire that has this name. None exactly where no wire of this shape has it.
    pub fn wire_of(&self, name: &[u8]) -> Option<Wire>
        ensures some { IfSome result (λ w. (w.0 < wires_of self.now) × (wire_name self.now w.0 ≡ name.now)) }
        ensures none { IfNone result ((w : ℕ) → w < wires_of self.now → wire_name self.now w ≢ name.now) }
    {
        match after_root(name) {
            Some(word) => root_wire(*self, word),
            None => inner_wire(*self, name),
        }
    }

    /// The table that has this name. None exactly where no table of this shape has it.
    pub fn table_of(&self, name: &[u8]) -> Option<Table>
        ensures some { IfSome result (λ t. (t.0 < tables_of self.now) × (table_name self.now t.0 ≡ name.now)) }
        ensures none { IfNone result ((t : ℕ) → t < tables_of self.now → table_name self.now t ≢ name.now) }
    {
        let levels = levels_of(*self);
        let Some(read) = read_steps(&levels, b"mcht", name) else {
            return None;
        };
        let way = steps_of(&read.way);
        if way.len() != 3 {
            return None;
        }
        let word = after(name, read.last);
        match read_numbered(word, b't', levels[3].children) {
            Some(k) => Some(Table(first_table(*self, way) + k)),
            None => None,
        }
    }
}
