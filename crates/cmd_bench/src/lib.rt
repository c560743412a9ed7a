//! The command that runs generated work on a generated machine.
//!
//! Promised (`bench`): a `bench` that is done wrote its summary, and the rig's session has a cycle for each of the 64 vectors,
//! which drove it on one input pin and 1 on all others; the ones are those read at the two output pins, and the loads are by how
//! many the rig's rose: those of its list, and one. It asks the rig for room for all 64 rows at that load, so memory is never
//! wanting after it. The session's image is right for the generated design under each set of faults that explains all that was read
//! of the machine; so where there is such a set, what was read is the design's rows. Where the faults of its number explain all that
//! was read, it ends with status 0 unless memory was lacking or a count rose (`lawful`).
//!
//! What the generated design and machine come to.
//!
//! The text of the generated design is that of a netlist with one input, two outputs, one cover and sixteen latches, and of no
//! other. Its plain network has 17 tables and 18 nets, and on every machine of the generator's counts the faults that a number
//! makes leave as many sound parts as that network needs.
#![tactic(auto)]

mod command;
mod design;
mod room;
mod summary;
mod work;

pub use command::bench;
pub use design::the_bench_design_is_a_design;
pub use room::generated_faults_leave_room;
