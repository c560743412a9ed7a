//! The report: a line for each level, the entries of the list by kind, what it leaves of tables and pins, the loads that it took,
//! and with a design a line for each of its plans.

use crate::level::level_at;
use crate::line::put_line;
use crate::listed::{listed_crosses, listed_tables, listed_wires};
use crate::plans::put_plans;
use base_io::{Sink, Store};
use cmd_steps::{DesignFile, Refusal, Stop, attach, finish, read_design, read_shape, write};
use design_netlist::Netlist;
use diag_machine::{Parts, diagnose_in_parts};
use machine_defects::Defects;
use rig::Rig;
use std::alloc::{AllocError, Global};

/// The names of the levels, from the root down.
const LEVELS: [&str; 4] = ["root", "module", "chip", "hextant"];

/// The defects of a machine, and how many loads it took to list them, in all and by part.
#[derive(Drop)]
struct Diagnosis {
    list: Defects,
    loads: u64,
    parts: Parts,
}

// Adds the lines of the levels.
fn put_levels(text: &mut Vec<u8>, list: &Defects) -> Result<(), AllocError> {
    for depth in 0..4usize {
        let level = level_at(list, depth);
        put_line(text, LEVELS[depth], &level.counts())?;
    }
    Ok(())
}

// Adds the entries of a list by kind, what it leaves of tables and pins, and the loads that it took.
fn put_list(text: &mut Vec<u8>, diagnosis: &Diagnosis) -> Result<(), AllocError> {
    let list = &diagnosis.list;
    let listed = [
        ("wires", listed_wires(list)),
        ("crosspoints", listed_crosses(list)),
        ("tables", listed_tables(list)),
    ];
    let free = [
        ("tables", list.free_tables() as u64),
        ("pins", list.free_pins() as u64),
    ];
    put_line(text, "listed", &listed)?;
    put_line(text, "free", &free)?;
    put_line(text, "diagnosis", &[("loads", diagnosis.loads)])?;
    put_line(text, "part sweep", &[("loads", diagnosis.parts.sweep)])?;
    put_line(text, "part growth", &[("loads", diagnosis.parts.growth)])?;
    put_line(text, "part tables", &[("loads", diagnosis.parts.tables)])
}

// The text of the report on a machine.
fn text_of(alloc: Global, diagnosis: &Diagnosis) -> Result<Vec<u8>, AllocError> {
    let mut text = Vec::new(alloc);
    put_levels(&mut text, &diagnosis.list)?;
    put_list(&mut text, diagnosis)?;
    Ok(text)
}

// How many loads a rig has made.
fn loads_of(rig: &Box<dyn Rig>) -> u64 {
    rig.loads()
}

// Reads a machine, attaches it under a name, and lists its defects.
fn diagnose_machine<S: Store>(
    alloc: Global,
    machine: &str,
    name: &str,
    store: &mut S,
    rig: &mut Box<dyn Rig>,
) -> Result<Diagnosis, Stop> {
    let shape = read_shape(alloc, store, machine)?;
    attach(rig, &shape, name)?;
    let before = loads_of(rig);
    let mut parts = Parts::none();
    let list = diagnose_in_parts(alloc, rig, &shape, &mut parts)?;
    let loads = loads_of(rig).saturating_sub(before);
    Ok(Diagnosis { list, loads, parts })
}

// The report on a machine.
fn machine_report<S: Store>(
    alloc: Global,
    machine: &str,
    name: &str,
    store: &mut S,
    rig: &mut Box<dyn Rig>,
) -> Result<Vec<u8>, Stop> {
    let diagnosis = diagnose_machine(alloc, machine, name, store, rig)?;
    report_of(alloc, &diagnosis)
}

// The report on what was listed of a machine.
fn report_of(alloc: Global, diagnosis: &Diagnosis) -> Result<Vec<u8>, Stop> {
    let text = text_of(alloc, diagnosis)?;
    Ok(text)
}

// The same, and on the plans of a design.
fn report_on(alloc: Global, netlist: &Netlist, diagnosis: &Diagnosis) -> Result<Vec<u8>, Stop> {
    let mut text = text_of(alloc, diagnosis)?;
    put_plans(alloc, &mut text, netlist, &diagnosis.list)?;
    Ok(text)
}

// The report on a machine and on the plans of a design.
fn report_with<S: Store>(
    alloc: Global,
    machine: &str,
    name: &str,
    netlist: &Netlist,
    store: &mut S,
    rig: &mut Box<dyn Rig>,
) -> Result<Vec<u8>, Stop> {
    let diagnosis = diagnose_machine(alloc, machine, name, store, rig)?;
    report_on(alloc, netlist, &diagnosis)
}

// The report on a machine and on the plans of a design, which is read first.
fn design_report<S: Store>(
    alloc: Global,
    machine: &str,
    name: &str,
    design: &str,
    store: &mut S,
    rig: &mut Box<dyn Rig>,
) -> Result<Vec<u8>, Stop> {
    let netlist = read_design(alloc, DesignFile::Design, store, design)?;
    report_with(alloc, machine, name, &netlist, store, rig)
}

// The report that the words ask for.
fn text_for<S: Store>(
    alloc: Global,
    words: &[String],
    store: &mut S,
    rig: &mut Box<dyn Rig>,
) -> Result<Vec<u8>, Stop> {
    match words {
        [machine, name] => machine_report(alloc, machine, name, store, rig),
        [machine, name, design] => design_report(alloc, machine, name, design, store, rig),
        _ => Err(Stop::Refused(Refusal::Words)),
    }
}

// Writes the report that the words ask for.
fn written<S: Store, K: Sink>(
    alloc: Global,
    words: &[String],
    store: &mut S,
    rig: &mut Box<dyn Rig>,
    sink: &mut K,
) -> Result<(), Stop> {
    let text = text_for(alloc, words, store, rig)?;
    write(sink, &text)
}

/// Reports on a machine, a rig and, where a third word is given, a design, and answers the status.
pub fn report<S: Store, K: Sink>(
    alloc: Global,
    words: &[String],
    store: &mut S,
    rig: &mut Box<dyn Rig>,
    sink: &mut K,
) -> u8 {
    match written(alloc, words, store, rig, sink) {
        Ok(()) => 0,
        Err(stop) => finish(sink, &stop),
    }
}
