//! A command to be tried: its words, what is given besides, and which calls fail.

use crate::commands::design::Ports;
use example_kit::{Fails, Turn};
use std::alloc::Global;

/// Which program is called.
#[derive(Clone, Copy, Drop)]
pub enum Call {
    /// That of the commands, over a simulated rig.
    Commands,
    /// The mapper.
    Mapper,
    /// That of the commands, over a machine behind a port.
    Port,
}

/// What every end has to be where calls fail in turn.
#[derive(Drop)]
pub struct Each {
    /// Of what calls fail in turn, the first, the second and so on, until none is left that can.
    pub turn: Turn,
    pub status: u8,
    pub last: Vec<u8>,
}

/// Lines of which so many are there.
#[derive(Drop)]
pub struct Just {
    pub lines: String,
    pub count: usize,
}

/// What is said of single lines of what is written, where it isn't known as a whole.
#[derive(Drop)]
pub struct Marks {
    /// Lines of which one is there.
    pub some: Option<String>,
    pub just: Option<Just>,
    /// Words, and the only lines that begin with one of them.
    pub words: Vec<String>,
    pub only: String,
    /// What stands last.
    pub last: Vec<u8>,
    /// The ports of the design that is written, and how many tables it has at most.
    pub design: Option<Ports>,
}

/// A command to be tried.
#[derive(Drop)]
pub struct Step {
    pub words: Vec<String>,
    pub call: Call,
    pub fails: Fails,
    /// The status with which it ended before, over the same rig, where it was done before.
    pub before: Option<u8>,
    /// The bytes that the sink takes, where it takes so many and no more.
    pub takes: Option<usize>,
    /// Whether it is tried over each sink that takes too few bytes.
    pub cuts: bool,
    /// The sizes of the pieces in which the store gives its files, besides whole.
    pub pieces: Vec<usize>,
    /// The size of the pieces in which it gives them otherwise, where it doesn't give them whole.
    pub drips: Option<usize>,
    pub each: Option<Each>,
    /// How many of the first lines are written at once.
    pub together: usize,
    /// Whether every end where calls fail in turn goes on from the one before, by a line.
    pub onward: bool,
    /// How many lines the last of these ends wrote, where it isn't all but one.
    pub until: Option<usize>,
    pub most_loads: Option<u64>,
    pub marks: Marks,
    /// The name under which what is written is kept for later steps.
    pub keep: Option<String>,
    /// The name under which it is kept for later cases too.
    pub stay: Option<String>,
}

/// What a word says is called.
pub fn call_of(word: &str) -> Call {
    match word {
        "maps" => Call::Mapper,
        "ports" => Call::Port,
        _ => Call::Commands,
    }
}

impl Marks {
    /// Nothing is said.
    pub fn new(alloc: Global) -> Marks {
        Marks {
            some: None,
            just: None,
            words: Vec::new(alloc),
            only: String::new(alloc),
            last: Vec::new(alloc),
            design: None,
        }
    }
}

impl Step {
    /// A command of these words, and nothing else said.
    pub fn new(alloc: Global, words: Vec<String>, call: Call) -> Step {
        Step {
            words,
            call,
            fails: Fails::new(alloc),
            before: None,
            takes: None,
            cuts: false,
            pieces: Vec::new(alloc),
            drips: None,
            each: None,
            together: 0,
            onward: false,
            until: None,
            most_loads: None,
            marks: Marks::new(alloc),
            keep: None,
            stay: None,
        }
    }
}
