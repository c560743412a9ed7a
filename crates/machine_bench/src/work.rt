//! A machine, and a design for it.
ghost use Rattle.std.specs.Prelude.{◌≡◌, ◌%◌, ◌==◌, IfOk};
ghost use Rattle.machine_bench.specs.Work as work;

use machine_shape::Counts;
use std::alloc::{AllocError, Global};

const DESIGN: &[u8] = b".model bench
.inputs x
.outputs f s15
.names x s15 f
10 1
01 1
.latch f s0 0
.latch s0 s1 0
.latch s1 s2 0
.latch s2 s3 0
.latch s3 s4 0
.latch s4 s5 0
.latch s5 s6 0
.latch s6 s7 0
.latch s7 s8 0
.latch s8 s9 0
.latch s9 s10 0
.latch s10 s11 0
.latch s11 s12 0
.latch s12 s13 0
.latch s13 s14 0
.latch s14 s15 0
.end
";

/// The counts of the machine that the work is for: 2,188 wires, 63,360 crosspoints and 128 tables.
pub fn bench_counts() -> Counts
    ensures { result ≡ work.bench_counts }
{
    Counts {
        modules: 2,
        chips: 2,
        hextants: 4,
        tables: 8,
        ports: [24; 3],
        lines: [32; 4],
        pins: 28,
    }
}

/// The text of the design: one cover, and a shift register of sixteen latches.
pub fn bench_design(alloc: Global) -> Result<Vec<u8>, AllocError>
    ensures { IfOk result (λ text. text.items ≡ work.bench_design) }
{
    Vec::from_slice(alloc, DESIGN)
}

/// Vector `i`, from 0 on, of the work of the number `n`: a bit for the one input.
pub fn bench_vector(n: u32, i: u32) -> bool
    ensures { result ≡ (i % 3 == n % 3) }
{
    i % 3 == n % 3
}
