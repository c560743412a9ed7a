//! Values of the generator that were made elsewhere.

use base_random::Draws;
use design_blif::read_blif;
use machine_bench::{bench_counts, bench_design, bench_faults, bench_vector};
use machine_shape::Shape;
use std::alloc::Global;

pub fn generator_seven() -> Option<bool> {
    let mut draws = Draws::new(7);
    let drawn = draws.draw(6) == 2;
    let state = draws.state() == 9_098_160_460_397_411_210;
    let shape = Shape::new(bench_counts()).ok()?;
    let sized = shape.wires() == 2188 && shape.crosses() == 63360 && shape.tables() == 128;
    Some(drawn && state && sized)
}

pub fn bench_faults_seven(alloc: Global) -> Option<bool> {
    let shape = Shape::new(bench_counts()).ok()?;
    let faults = bench_faults(alloc, 7, &shape).ok()?;
    Some(faults.count() == 127)
}

// Whether the vectors of 7 are these, from the first on.
fn has_vectors(due: &[bool]) -> bool {
    let mut right = true;
    let mut i = 0u32;
    'bits: for bit in due {
        right = right && bench_vector(7, i) == *bit;
        i = i.saturating_add(1);
    }
    right
}

pub fn bench_design_parts(alloc: Global) -> Option<bool> {
    let text = bench_design(alloc).ok()?;
    let design = read_blif(alloc, &text).ok()?;
    let parts = design.parts();
    let sized = parts.latches.as_slice().len() == 16 && parts.covers.as_slice().len() == 1;
    Some(sized && has_vectors(&[false, true, false, false, true]))
}
