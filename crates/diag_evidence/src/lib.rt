//! Facts about one rig's faults, and the tests that gain them: five for one fact each, and others in bulk.
//!
//! A fact is kept only where the answer of a test shows it, whatever other faults the machine has. A toggle that a stuck
//! crosspoint, a wrong cell or a stuck register makes void reads the same twice. A pin that reads 0 and 1 in one session
//! is joined to no stuck wire, and two pins that read different values at one time aren't joined.
//!
//! Promised: each test answers true exactly where the two readings that it takes differ (`all_apart`: where the one pin reads
//! otherwise than each of the others), and then alone keeps its fact, and no other (`exact_each`, `gains`, `same`, `refused`). What
//! was kept stays kept, and what is kept stays true of the faults, whatever other ones there are; configurations and the attached
//! machine are left as they were, and the number of loads never falls (`advances`). A toggle loads at most twice, `test_stuck`
//! and `all_apart` once (`loads`); `Failed` comes only where the rig's count rose (`cause`), and after `Memory` no session
//! stands whose readings aren't all made (`wanting`). Each test is bound to answer true where its wires are as they should be
//! (`passes_each`; by lists: `laws`). No other crate can add a fact.
//!
//! That wires aren't shorted is kept in linear room: each two wires of a set are a kept pair, and so is the wire on trial, where there is
//! one, with each wire of its row. `begin` puts a wire on trial, `all_apart` gains wires for its row, `settle` takes it into the set once
//! its row has all of that, and `retake` drops wires of the set; none of these three makes a load. What is kept stays so but for the row
//! of the wire on trial, which may be another's.
//!
//! What is said of faults is said of each set of them that explains the log after the call; no rig has to tell any. What explains
//! the log after a test explained it before (`narrows` of `advances`), and where a rig tells a set that did, it still does (`tells`).
//! The five tests say besides which sessions they add to the log, and that their answers are by the readings of these (`logged`).
//!
//! The bulk tests take looks: loads in which first nothing is driven, and then one pin after the other alone. A forest hangs wires
//! on pins of the machine, over crosspoints that are kept. What they miss the five tests decide, so nothing says that they pass.
//! `look_each` looks at a forest on which all of the set hangs: wires that hang on pins that swing are kept, and pins of the machine that
//! part from all others join the set (`seen_each`). `test_paths` closes walks besides, which branch from the forest: the crosspoints of
//! those whose two ends hang on pins that don't part are kept, and of each other one the only crosspoint that isn't kept is marked
//! (`led_each`). Marks stay true of the faults (`stuck_each`). `test_wires` hangs further wires on the forest, over two crosspoints each
//! that aren't known, and looks at both and at either alone: a crosspoint is kept where its pin changes without it and no other can be
//! felt there, the wire by what the pin of the other one reads, and where all of the set hangs it joins it if its two pins part from all
//! others (`tried_each`). A wire that makes a pin read oddly isn't fit, and is marked; `screen_wires` marks the same by one look
//! (`told_each`). What is kept stays true of the faults and so do marks (`advances`, `unfit_each`, `unclear_each`).
//! `tables_each` reads many tables that hang in a forest through all addresses, in two loads, the second with all bits turned: of each
//! just the parts that read rightly in both are kept, and just those tables are marked that don't in some cycle (`tabled_each`). Under
//! the faults a marked table has a wrong cell or a stuck register (`wrong_each`).
#![tactic(auto)]

mod again;
mod facts;
mod feet;
mod forest;
mod forest_config;
mod hangs;
mod joins;
pub mod laws;
mod leads;
mod looks;
mod pins;
mod readings;
mod routes;
mod sheets;
mod sights;
mod swinging;
mod table_rows;
mod tells;
mod toggles;
mod trials;

pub use facts::Facts;
pub use forest::Forest;
pub use hangs::WireTest;
pub use leads::Lead;
pub use looks::Looks;
