//! Work that is made from a number: the faults of a machine, a design, and its vectors.
//!
//! The generator's states and answers, the faults of its 400 turns, and the design's text, exactly. Whatever the number, the
//! faults leave the first 20 pins of the machine and the first 20 ports of each node sound, its first 20 lines whole, and the
//! first four tables of each hextant sound; so each node of the generator's machine is served (`bench_faults_leave_sound_parts`).
#![tactic(auto)]

ghost use Rattle.std.specs.Prelude.{◌≡◌, ◌<◌, ℕ};
ghost use Rattle.machine_shape.specs.declared.Shape.{Shape};
ghost use Rattle.machine_meaning.specs.Vocabulary.{Faults, IsServed};
ghost use Rattle.machine_shape.specs.Vocabulary.{IsAmple, nodes_of};
ghost use Rattle.machine_bench.specs.Faults.{AreBenchFaults};
ghost use Rattle.machine_bench.specs.Left.{LeavesSound};
ghost use Rattle.machine_bench.specs.Work.{bench_counts};

mod faults;
mod hits;
mod work;

pub use faults::bench_faults;
pub use work::{bench_counts, bench_design, bench_vector};

/// A number makes one set of faults for a shape.
pub fn bench_faults_are_one()
    ensures { (m : Shape) (n : ℕ) (f g : Faults) → AreBenchFaults m n f → AreBenchFaults m n g → f ≡ g }
{}

/// Generated faults leave the first 20 pins of the machine and the first 20 ports of each node sound, its first 20 lines whole, and
/// the first 4 tables of each hextant sound. So each node is served where there are two pins, and two ports and two lines at each
/// level, as in the machine that the work is for.
pub fn bench_faults_leave_sound_parts()
    ensures sound { (m : Shape) (n : ℕ) (f : Faults) → AreBenchFaults m n f → LeavesSound m f }
    ensures served { (m : Shape) (n : ℕ) (f : Faults) → AreBenchFaults m n f → IsAmple m.counts →
        (k : ℕ) → k < nodes_of m → IsServed m f k }
    ensures ample { IsAmple bench_counts }
{
    machine_shape::the_numbering_is_sound();
    machine_shape::the_crosspoints_are_sound();
    machine_shape::ports_and_lines_ascend();
}
