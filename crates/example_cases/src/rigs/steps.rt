//! Cases that ask a machine step by step: a word for each step, with what belongs to it behind colons.

use crate::rigs::faults::sim_of;
use crate::rigs::memory_board::{MemoryBoard, Orders};
use crate::rigs::table_port::{Exchange, TablePort, answers_all, exchanges_of};
use crate::rigs::talk::Talk;
use example_kit::TINY;
use machine_config::Setting;
use machine_shape::{Counts, Shape};
use rig::{Rig, RigFail};
use rig_board::BoardRig;
use rig_port::{Port, PortBoard, RigPort};
use std::alloc::{AllocError, Global};
use std::cell::Cell;
use std::rc::Rc;
use std::{fs, io};

// The table that words say is on: its number, its cells as a number, and 1 where it is latched, 2 where it begins with a 1, or 3.
fn table_of(words: &str) -> Option<(u32, Setting)> {
    let (table, rest) = words.split_once(':')?;
    let (cells, flags) = rest.split_once(':')?;
    let table = table.parse::<u32>().ok()?;
    let cells = cells.parse::<u64>().ok()?;
    let flags = flags.parse::<u8>().ok()?;
    Some((
        table,
        Setting {
            cells,
            latched: flags == 1 || flags == 3,
            init: flags == 2 || flags == 3,
        },
    ))
}

// Sets what a word says; false where it says nothing.
fn set<R: Rig>(talk: &mut Talk<R>, what: &str, rest: &str) -> io::Result<bool> {
    if what == "table" {
        let Some((table, setting)) = table_of(rest) else {
            return Ok(false);
        };
        return Ok(talk.set_table(table, Some(setting)));
    }
    if what == "ticks" {
        return Ok(talk.set_ticks(rest.parse::<u16>().unwrap_or(0)));
    }
    let Ok(number) = rest.parse::<u32>() else {
        return Ok(false);
    };
    match what {
        "close" => Ok(talk.close(number)?),
        "open" => Ok(talk.open(number)),
        "off" => Ok(talk.set_table(number, None)),
        _ => Ok(false),
    }
}

// Takes a step, and tells how it ended; false where the word says none.
fn step<R: Rig>(
    rt: &HostRuntime,
    talk: &mut Talk<R>,
    orders: &Orders,
    word: &str,
) -> io::Result<bool> {
    let alloc: Global = rt.alloc();
    let (what, rest) = word.split_once(':').unwrap_or((word, ""));
    let mut read = String::new(alloc);
    let answer = match what {
        "attach" => talk.attach("none"),
        "load" => talk.load(rest.parse::<u32>().unwrap_or(0)),
        "cycle" => talk.cycle(alloc, rest, &mut read)?,
        "cycles" => talk.cycles(alloc, rest, &mut read)?,
        "failed" => {
            orders.fail_next(RigFail::Failed);
            return Ok(true);
        }
        "memory" => {
            orders.fail_next(RigFail::Memory);
            return Ok(true);
        }
        _ => return set(talk, what, rest),
    };
    let ended = answer.word();
    println!(rt; "{word} {ended}{read}")?;
    Ok(true)
}

// Takes the steps that words say; false where a word says none.
fn take_steps<R: Rig>(
    rt: &HostRuntime,
    talk: &mut Talk<R>,
    orders: &Orders,
    words: &[String],
) -> io::Result<bool> {
    'steps: for word in words {
        if !step(rt, talk, orders, word.as_str())? {
            return Ok(false);
        }
    }
    Ok(true)
}

// A machine of the counts of `tiny`, but with so many pins.
fn shape_of(pins: &str) -> Option<Shape> {
    let pins = pins.parse::<u16>().ok()?;
    Shape::new(Counts { pins, ..TINY }).ok()
}

// Takes steps over a board in memory that these orders are said to.
fn take_over_memory(
    rt: &HostRuntime,
    shape: Shape,
    orders: &Rc<Orders>,
    words: &[String],
) -> io::Result<bool> {
    let alloc: Global = rt.alloc();
    let board = MemoryBoard::new(orders.clone()?);
    let mut talk = Talk::new(alloc, BoardRig::new(alloc, board), shape)?;
    take_steps(rt, &mut talk, orders, words)
}

/// Over a board in memory. False where a word says no step.
pub fn try_board(rt: &HostRuntime, words: &[String]) -> io::Result<bool> {
    let Ok(shape) = Shape::new(TINY) else {
        return Ok(false);
    };
    let orders = Rc::new(rt.alloc(), Orders::new())?;
    let done = take_over_memory(rt, shape, &orders, words)?;
    let failures = orders.failures();
    println!(rt; "the board counts {failures}")?;
    Ok(done)
}

// The requests of a table.
fn table_in(rt: &HostRuntime, name: &str) -> io::Result<Vec<Exchange>> {
    let text = fs::read_to_string(rt, name)?;
    Ok(exchanges_of(rt.alloc(), text.as_str())?)
}

// Takes steps over a board behind a port that answers the requests of a table, and tells there how many were asked.
fn take_over_table(
    rt: &HostRuntime,
    shape: Shape,
    port: TablePort,
    words: &[String],
) -> io::Result<bool> {
    let alloc: Global = rt.alloc();
    let board = PortBoard::new(alloc, port);
    let mut talk = Talk::new(alloc, BoardRig::new(alloc, board), shape)?;
    take_steps(rt, &mut talk, &Orders::new(), words)
}

/// The words are a number of pins, a table and steps: over a board of so many pins behind a port that answers the requests of the table.
/// False where they aren't, byte by byte, what was asked, or a word says no step.
pub fn try_asks(rt: &HostRuntime, words: &[String]) -> io::Result<bool> {
    let [pins, table, words @ ..] = words else {
        return Ok(false);
    };
    let Some(shape) = shape_of(pins.as_str()) else {
        return Ok(false);
    };
    let table = table_in(rt, table.as_str())?;
    let all = table.len();
    let asked = Rc::new(rt.alloc(), Cell::new(0usize))?;
    let port = TablePort::new(table, asked.clone()?);
    let done = take_over_table(rt, shape, port, words)?;
    let count = asked.get();
    println!(rt; "asked {count} of {all} requests")?;
    Ok(done && count == all)
}

// Opens a port and asks it all requests of a table; `None` where it doesn't open.
fn answers<P: Port>(
    alloc: Global,
    port: &mut P,
    table: &[Exchange],
) -> Result<Option<bool>, AllocError> {
    match port.open("none") {
        Ok(()) => Ok(Some(answers_all(alloc, port, table)?)),
        Err(_) => Ok(None),
    }
}

/// The words are a number of pins and a table: asks a simulated rig of so many pins behind a port the requests of the table. False where a
/// reply isn't, byte by byte, that of the table.
pub fn try_answers(rt: &HostRuntime, words: &[String]) -> io::Result<bool> {
    let [pins, table] = words else {
        return Ok(false);
    };
    let Some(shape) = shape_of(pins.as_str()) else {
        return Ok(false);
    };
    let table = table_in(rt, table.as_str())?;
    let mut port = RigPort::new(rt.alloc(), sim_of(rt)?, shape);
    let answered = answers(rt.alloc(), &mut port, &table);
    tell_answers(rt, table.len(), answered)
}

// Prints whether all requests were answered.
fn tell_answers(
    rt: &HostRuntime,
    all: usize,
    answered: Result<Option<bool>, AllocError>,
) -> io::Result<bool> {
    match answered? {
        Some(right) => {
            println!(rt; "answers {all} requests: {right}")?;
            Ok(right)
        }
        None => Ok(false),
    }
}
