//! The room that generated faults leave for the generated design.

ghost use Rattle.std.specs.Prelude.{◌≡◌, ℕ, length};
ghost use Rattle.machine_shape.specs.declared.Shape.{Shape};
ghost use Rattle.machine_meaning.specs.Faults.{Faults};
ghost use Rattle.map_network.specs.Plain.{plain_network};
ghost use Rattle.place_plan.specs.Vocabulary.{nets_in, HasSoundParts};
ghost use Rattle.machine_bench.specs.Faults.{AreBenchFaults};
ghost use Rattle.machine_bench.specs.Work.{bench_counts};
ghost use Rattle.cmd_bench.specs.Design.{bench_draft};

/// The plain network of the design has 17 tables and 18 nets. On a machine of the generator's counts, generated faults leave each node
/// served, and as many sound parts as that network needs.
pub fn generated_faults_leave_room()
    ensures tables { length (plain_network bench_draft).tables ≡ 17 }
    ensures nets { nets_in (plain_network bench_draft) ≡ 18 }
    ensures sound { (m : Shape) (n : ℕ) (f : Faults) → m.counts ≡ bench_counts → AreBenchFaults m n f →
        HasSoundParts m f (plain_network bench_draft) }
{
    machine_shape::ports_and_lines_ascend();
    machine_bench::bench_faults_leave_sound_parts();
}
