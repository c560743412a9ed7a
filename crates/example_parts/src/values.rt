//! Values from outside, and public calls that no command shows: that they answer with ample memory, and what.
//!
//! A line is printed for each that is wrong, and at last how many are right.

mod configs;
mod drafts;
mod generated;
mod graphs;
mod images;
mod networks;
mod outside;
mod sets;
mod shapes;
mod texts;
mod vectors;

use std::alloc::Global;
use std::io;

/// A name, and whether what bears it is right; None where it has no answer.
type Value = (&'static str, Option<bool>);

// How many there were, and how many were right.
#[derive(Clone, Copy)]
struct Tally {
    right: u32,
    all: u32,
}

impl Tally {
    // Counts one, and prints its name where it isn't right.
    fn count(&mut self, rt: &HostRuntime, name: &str, right: Option<bool>) -> io::Result<()> {
        self.all = self.all.saturating_add(1);
        match right {
            Some(true) => self.right = self.right.saturating_add(1),
            Some(false) => println!(rt; "{name} is wrong")?,
            None => println!(rt; "{name} has no answer")?,
        }
        Ok(())
    }

    // Counts all of these.
    fn count_all(&mut self, rt: &HostRuntime, values: &[Value]) -> io::Result<()> {
        for (name, right) in values {
            self.count(rt, name, *right)?;
        }
        Ok(())
    }
}

// Machines, and what they hold.
fn of_machines(alloc: Global) -> [Value; 12] {
    [
        ("tiny-numbering", shapes::tiny_numbering()),
        ("names-both-ways", shapes::names_both_ways()),
        ("config-after-each-call", configs::after_each_call(alloc)),
        ("pin-bits", configs::pin_bits(alloc)),
        ("generator-seven", generated::generator_seven()),
        ("bench-faults-seven", generated::bench_faults_seven(alloc)),
        ("bench-design-parts", generated::bench_design_parts(alloc)),
        ("machine-text-faults", texts::machine_text_of_tiny(alloc)),
        ("machine-two-forms", texts::machine_two_forms(alloc)),
        ("large-counts", texts::large_counts(alloc)),
        ("fault-text-faults", texts::faults_text_in_order(alloc)),
        ("defects-text-in-order", texts::defects_text_in_order(alloc)),
    ]
}

// Designs by hand, and networks of designs.
fn of_designs(alloc: Global) -> [Value; 7] {
    [
        ("cyclic-undriven-doubled", drafts::faulty_drafts(alloc)),
        ("text-of-a-netlist", drafts::text_of_netlist(alloc)),
        ("repeated-input-cover", networks::repeated_input(alloc)),
        ("seven-input-nand", networks::seven_input_nand(alloc)),
        ("toggling-latch", networks::toggling_latch(alloc)),
        ("merged-inverter-latch", networks::merged_latch(alloc)),
        ("spread-two-readers", networks::spread_two_readers(alloc)),
    ]
}

// Designs and the labels of their signals.
fn of_graphs(alloc: Global) -> [Value; 10] {
    [
        ("other-rows", graphs::other_rows(alloc)),
        ("dependent-inputs", graphs::dependent_inputs(alloc)),
        ("seven-inputs", graphs::seven_inputs(alloc)),
        ("forty-inputs", graphs::forty_inputs(alloc)),
        ("labels-of-latches", graphs::latch_labels(alloc)),
        ("wrong-labels-of-latches", graphs::wrong_latch_labels(alloc)),
        ("other-outputs", graphs::other_outputs(alloc)),
        ("lists-that-do-not-fit", graphs::unfit_lists(alloc)),
        ("undriven-signal", graphs::undriven_signal(alloc)),
        ("cells-of-labels", graphs::cells_of_labels(alloc)),
    ]
}

// Sets, vectors and the bytes of images; the store and the sink of this runtime.
fn of_bytes(rt: &HostRuntime) -> [Value; 9] {
    let alloc: Global = rt.alloc();
    [
        ("sets-of-numbers", sets::holds_numbers(alloc)),
        ("numerals", sets::reads_and_writes_numerals(alloc)),
        ("vector-limit", vectors::vector_limit(alloc)),
        ("image-bytes", images::image_bytes(alloc)),
        ("flipped-image-bits", images::flipped_image_bits(alloc)),
        ("large-ticks", images::large_ticks(alloc)),
        ("touched-lists", images::touched_lists(alloc)),
        ("file-store", outside::file_store(rt)),
        ("std-sink", outside::std_sink(rt)),
    ]
}

/// Tries all, and tells whether all are right.
pub fn try_all(rt: &HostRuntime) -> io::Result<bool> {
    let mut tally = Tally { right: 0, all: 0 };
    let alloc: Global = rt.alloc();
    tally.count_all(rt, &of_machines(alloc))?;
    tally.count_all(rt, &of_designs(alloc))?;
    tally.count_all(rt, &of_graphs(alloc))?;
    tally.count_all(rt, &of_bytes(rt))?;
    println!(rt; "{} of {} right", tally.right, tally.all)?;
    Ok(tally.right == tally.all)
}
