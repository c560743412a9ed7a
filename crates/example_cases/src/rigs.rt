//! Commands over rigs that compare readings, and over a machine behind files or behind a port in memory; and boards and ports, step by
//! step.
//!
//! A text has a case in each line; its head says how they are written. Each is printed, with what the command wrote and its status.

mod faults;
pub mod late_board;
mod lost;
mod memory_board;
pub mod spoiled_port;
mod spoiling;
mod steps;
mod table_port;
mod talk;
pub mod telling_rig;

use crate::over::{over_files, over_late, over_port, over_told, over_turned, over_twin};
use crate::rigs::faults::{fault_files, sim_of, sim_over};
use crate::rigs::late_board::LateBoard;
use crate::rigs::lost::{Outcome, load_twice};
use crate::rigs::spoiling::try_spoilt;
use crate::rigs::steps::{try_answers, try_asks, try_board};
use crate::rigs::telling_rig::TellingRig;
use base_io::{FileStore, StdSink};
use example_kit::{TINY, words_of};
use example_rigs::TurnRig;
use machine_shape::Shape;
use rig_board::BoardRig;
use rig_doubled::TwinRig;
use rig_port::{FileBoard, PortBoard, RigPort};
use std::alloc::Global;
use std::cell::Cell;
use std::rc::Rc;
use std::{fs, io};

/// A number; 0 where the word is none.
pub fn number_of(word: &str) -> u64 {
    word.parse::<u64>().unwrap_or(0)
}

// Prints what was read behind two loads.
fn tell_lost(rt: &HostRuntime, found: &Outcome) -> io::Result<bool> {
    let first = &found.first;
    let second = &found.second;
    let again = found.again;
    println!(rt; "reads {first}, then {second}, {again} loads made again")?;
    Ok(true)
}

// The files and the standard output of a command.
type Files = FileStore<HostRuntime>;

type Output = StdSink<HostRuntime>;

// How a command over a rig ended.
#[derive(Clone, Copy)]
enum Ended {
    // With this status.
    Status(u8),
    // So, and with so many loads that were asked for and so many of the inner rig, which are to be so many for each but the last.
    Passed {
        status: u8,
        asked: u64,
        made: u64,
        times: u64,
    },
    // The words say no case.
    Not,
}

// Prints the status of a command.
fn tell(rt: &HostRuntime, status: u8) -> io::Result<bool> {
    println!(rt; "status {status}")?;
    Ok(true)
}

// Prints it, and whether the inner rig was loaded so often for each load but the last, and once for that.
fn tell_passes(
    rt: &HostRuntime,
    status: u8,
    asked: u64,
    made: u64,
    times: u64,
) -> io::Result<bool> {
    let but_last = asked.saturating_sub(1);
    let due = but_last.saturating_mul(times).saturating_add(1);
    let right = 0 < but_last && made == due;
    println!(rt; "status {status}, each load but the last was made {times} times: {right}")?;
    Ok(right)
}

// Prints how a command ended.
fn tell_end(rt: &HostRuntime, ended: Ended) -> io::Result<bool> {
    match ended {
        Ended::Status(status) => tell(rt, status),
        Ended::Passed {
            status,
            asked,
            made,
            times,
        } => tell_passes(rt, status, asked, made, times),
        Ended::Not => Ok(false),
    }
}

// Over a rig that turns the reading of a number, and asks again where the name says so.
fn turned(
    rt: &HostRuntime,
    words: &[String],
    store: &mut Files,
    sink: &mut Output,
) -> io::Result<Ended> {
    let [number, words @ ..] = words else {
        return Ok(Ended::Not);
    };
    let inner = TurnRig::new(sim_of(rt)?, number_of(number.as_str()));
    let status = over_turned(rt.alloc(), inner, words, store, sink)?;
    Ok(Ended::Status(status))
}

// Over a rig that asks again, and how often its inner rig was loaded.
fn passed(
    rt: &HostRuntime,
    words: &[String],
    store: &mut Files,
    sink: &mut Output,
) -> io::Result<Ended> {
    let [times, words @ ..] = words else {
        return Ok(Ended::Not);
    };
    let alloc: Global = rt.alloc();
    let loads = Rc::new(alloc, Cell::new(0u64))?;
    let told = loads.clone()?;
    let inner = TellingRig::new(sim_of(rt)?, told);
    let (status, asked) = over_told(alloc, inner, words, store, sink)?;
    Ok(Ended::Passed {
        status,
        asked,
        made: loads.get(),
        times: number_of(times.as_str()),
    })
}

// Over two rigs side by side, the second under this name.
fn doubled(
    rt: &HostRuntime,
    words: &[String],
    store: &mut Files,
    sink: &mut Output,
) -> io::Result<Ended> {
    let [name, words @ ..] = words else {
        return Ok(Ended::Not);
    };
    let alloc: Global = rt.alloc();
    let name = String::from_str(alloc, name.as_str())?;
    let first = fault_files(rt)?;
    let second = fault_files(rt)?;
    let twin = TwinRig::new(alloc, sim_over(alloc, first), sim_over(alloc, second), name);
    let status = over_twin(alloc, twin, words, store, sink)?;
    Ok(Ended::Status(status))
}

// Over a machine that is another, of this name, from a load on.
fn late(
    rt: &HostRuntime,
    words: &[String],
    store: &mut Files,
    sink: &mut Output,
) -> io::Result<Ended> {
    let [from, name, words @ ..] = words else {
        return Ok(Ended::Not);
    };
    let alloc: Global = rt.alloc();
    let name = String::from_str(alloc, name.as_str())?;
    let board = LateBoard::new(alloc, sim_of(rt)?, number_of(from.as_str()), name);
    let status = over_late(alloc, board, words, store, sink)?;
    Ok(Ended::Status(status))
}

// Over a machine behind files.
fn behind_files(
    rt: &HostRuntime,
    words: &[String],
    store: &mut Files,
    sink: &mut Output,
) -> io::Result<Ended> {
    let alloc: Global = rt.alloc();
    let board = FileBoard::new(alloc, rt.clone()?);
    let status = over_files(alloc, board, words, store, sink)?;
    Ok(Ended::Status(status))
}

// Over a simulated rig that answers requests: a machine of the counts of `tiny` behind a port.
fn behind_port(
    rt: &HostRuntime,
    words: &[String],
    store: &mut Files,
    sink: &mut Output,
) -> io::Result<Ended> {
    let Ok(shape) = Shape::new(TINY) else {
        return Ok(Ended::Not);
    };
    let (status, _) = over_port(rt.alloc(), sim_of(rt)?, shape, words, store, sink)?;
    Ok(Ended::Status(status))
}

// Does a command over a rig of this kind.
fn done(
    rt: &HostRuntime,
    kind: &str,
    words: &[String],
    store: &mut Files,
    sink: &mut Output,
) -> io::Result<Ended> {
    match kind {
        "repeat" | "turn" => turned(rt, words, store, sink),
        "passes" => passed(rt, words, store, sink),
        "twin" => doubled(rt, words, store, sink),
        "late" => late(rt, words, store, sink),
        "port" => behind_files(rt, words, store, sink),
        "end" => behind_port(rt, words, store, sink),
        _ => Ok(Ended::Not),
    }
}

// Tries a command over a rig of this kind; false where the words say no case.
fn try_command(rt: &HostRuntime, kind: &str, words: &[String]) -> io::Result<bool> {
    let files = rt.clone()?;
    let mut sink = StdSink::new(rt.clone()?);
    let mut store = FileStore::new(rt.alloc(), files);
    let ended = done(rt, kind, words, &mut store, &mut sink)?;
    tell_end(rt, ended)
}

// Over a machine behind a port, what is read behind a load that may have been made again.
fn try_lost(rt: &HostRuntime, words: &[String]) -> io::Result<bool> {
    let [name] = words else {
        return Ok(false);
    };
    let Ok(shape) = Shape::new(TINY) else {
        return Ok(false);
    };
    let alloc: Global = rt.alloc();
    let port = RigPort::new(alloc, sim_of(rt)?, shape);
    let mut rig = BoardRig::new(alloc, PortBoard::new(alloc, port));
    let found = load_twice(alloc, &mut rig, &shape, name.as_str());
    match found {
        Ok(found) => tell_lost(rt, &found),
        Err(_) => Ok(false),
    }
}

// Tries the case that words say; false where they say none.
fn try_words(rt: &HostRuntime, words: &[String]) -> io::Result<bool> {
    let [kind, words @ ..] = words else {
        return Ok(false);
    };
    match kind.as_str() {
        "spoilt" => try_spoilt(rt, words),
        "lost" => try_lost(rt, words),
        "board" => try_board(rt, words),
        "asks" => try_asks(rt, words),
        "answers" => try_answers(rt, words),
        kind => try_command(rt, kind, words),
    }
}

// Tries a case; false where the line says none.
fn try_line(rt: &HostRuntime, line: &str) -> io::Result<bool> {
    println!(rt; "{line}")?;
    let words = words_of(rt.alloc(), line)?;
    try_words(rt, words.as_slice())
}

/// Tries all cases of some texts, and tells whether each line says one.
pub fn try_texts(rt: &HostRuntime, names: &[String]) -> io::Result<bool> {
    let mut right = true;
    for name in names.iter() {
        let text = fs::read_to_string(rt, name.as_str())?;
        for line in text.lines() {
            if !line.is_empty() && !line.starts_with("#") && !try_line(rt, line)? {
                right = false;
            }
        }
    }
    Ok(right)
}
