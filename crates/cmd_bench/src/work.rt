//! The machine, the design and the rows of generated work.
ghost use Rattle.std.specs.Prelude.{◌≡◌, ◌≤◌, [], Some, IfOk, IfErr, length};
ghost use Rattle.rig.specs.Rig.{CycleFails, Narrows, Tells};
ghost use Rattle.machine_bench.specs.Work as work;
ghost use Rattle.cmd_bench.specs.Design.{bench_draft};
ghost use Rattle.cmd_steps.specs.Vocabulary.{StoreState, SinkState, shape_of, width_of, Outside, outside, Took};
ghost use Rattle.cmd_bench.specs.Bench.{RunsOnes, bench_vector, makes_design, ones_in, runs};

use cmd_steps::{Refusal, Stop};
use design_blif::read_blif;
use design_netlist::Netlist;
use machine_bench::{bench_counts, bench_design, bench_vector};
use machine_image::Image;
use machine_shape::Shape;
use rig::{Rig, RigFail};
use run_image::{Run, begin};
use std::alloc::Global;

/// How many vectors there are.
const ROWS: u32 = 64;

/// The machine that the work is for.
pub fn bench_shape() -> Shape
    ensures { result.counts ≡ work.bench_counts }
{
    match Shape::new(bench_counts()) {
        Ok(shape) => shape,
        Err(_) => unreachable!(),
    }
}

/// The design. Nothing but memory can be wanting for its text.
pub fn bench_netlist(alloc: Global) -> Result<Netlist, Stop>
    ensures netlist { IfOk result (λ n. n ≡ bench_draft) }
    // Whatever is around it.
    ensures took { (o : Outside) → Took [] makes_design result o o }
{
    crate::the_bench_design_is_a_design();
    let text = bench_design(alloc)?;
    match read_blif(alloc, &text) {
        Ok(netlist) => Ok(netlist),
        Err(_fault) => Err(Stop::Refused(Refusal::Memory)),
    }
}

// How many ones there are in a row of two.
fn count_ones(row: &[bool]) -> u32
    requires { length row.now ≡ 2 }
    ensures count { result ≡ ones_in row.now }
    ensures few { result ≤ 2 }
{
    row[0] as u32 + row[1] as u32
}

// Drives vector `k`, and counts the ones in its row.
fn next_ones(run: &mut Run, rig: &mut Box<dyn Rig>, n: u32, k: u32) -> Result<u32, RigFail>
    requires pins { width_of (rig_state rig.old) ≡ Some run.old.pins }
    requires one { length run.old.inputs ≡ 1 }
    requires two { length run.old.outputs ≡ 2 }

    ensures same { run.new ≡ run.old }
    ensures machine { (rig_state rig.new).machine ≡ (rig_state rig.old).machine }
    ensures narrows { Narrows (rig_state rig.old) (rig_state rig.new) }
    ensures tells { Tells (rig_state rig.old) (rig_state rig.new) }
    ensures loads { (rig_state rig.new).loads ≡ (rig_state rig.old).loads }
    ensures later { (rig_state rig.old).failures ≤ (rig_state rig.new).failures }
    ensures row { IfOk result (RunsOnes run.old (bench_vector n k) (rig_state rig.old) (rig_state rig.new)) }
    ensures refused { IfErr result (λ e. CycleFails e (rig_state rig.old) (rig_state rig.new)) }
{
    let vector = [bench_vector(n, k)];
    let mut row = [false; 2];
    match run.row(rig, &vector, &mut row) {
        Ok(()) => Ok(count_ones(&row)),
        Err(fail) => Err(fail),
    }
}

/// Loads an image with room for as many rows as there are vectors, drives the vectors of the number, and counts the ones in
/// its rows. Lack of memory comes before the load alone.
pub fn run_work(alloc: Global, image: &Image, n: u32, rig: &mut Box<dyn Rig>) -> Result<u32, Stop>
    requires shape { shape_of (rig_state rig.old) ≡ Some image.now.config.shape }
    requires one { length image.now.inputs ≡ 1 }
    requires two { length image.now.outputs ≡ 2 }

    ensures machine { (rig_state rig.new).machine ≡ (rig_state rig.old).machine }
    // Whatever the store and the sink are.
    ensures took { (store : StoreState) (sink : SinkState) →
        Took [] (runs n image.now (rig_state rig.old).loads (rig_state rig.new)) result
        (outside store (rig_state rig.old) sink) (outside store (rig_state rig.new) sink) }
{
    let mut run = begin(alloc, rig, image, ROWS)?;
    let mut ones = 0u32;
    'rows: for k in 0..ROWS {
        ones += next_ones(&mut run, rig, n, k)?;
    }
    Ok(ones)
}
