//! What a sweep lays in its next load: a search over what it was told of a machine.
//!
//! It chooses wires that hang on two crosspoints, walks over crosspoints that aren't decided, tables, looks, and known wires that give way
//! for pins of tables. It makes no test and learns nothing by itself: which crosspoints are kept or stuck, which wires are known and which
//! tables are left it is told (`Search::mark`, `Search::learn`, `Search::note_kept`, `Chooser::push_known`). Nothing rests on what it
//! chooses, so it promises nothing but that no call fails otherwise than for lack of memory: who makes the tests looks at each of them
//! first.
//!
//! What stands where:
//!
//! | Module | What |
//! |---|---|
//! | `heights`, `board` | the machine's links by distance from its pins; what was told of crosspoints and wires |
//! | `forest` | the forest that stays from load to load: each known wire on one foot |
//! | `hangs` | wires that hang over two crosspoints |
//! | `pools`, `landings`, `joins`, `climbs`, `stretches`, `groups`, `singles`, `walks` | walks from tree to tree over what is left |
//! | `tables` | tables of a chip |
//! | `choosing`, `choosing_looks`, `choosing_tables` | which of shorted wires stays, and the looks for it |
//! | `search` | what all of these share |
#![tactic(auto)]

mod board;
mod choosing;
mod choosing_looks;
mod choosing_tables;
mod climbs;
mod draws;
mod feet;
mod flags;
mod forest;
mod groups;
mod hangs;
mod heights;
mod joins;
mod landings;
mod number_bits;
mod pools;
mod search;
mod singles;
mod stretches;
mod tables;
mod walk;
mod walks;

pub use board::Mark;
pub use choosing::{Aim, Chooser, Still};
pub use choosing_looks::Told;
pub use feet::{Link, Support, SupportedBy, VerifiedWire};
pub use flags::{flag_at, in_set, set_flag};
pub use forest::PlannedForest;
pub use hangs::{ChosenTest, HangBook};
pub use search::Search;
pub use tables::TableBook;
pub use walk::Walk;
pub use walks::{Trial, WalkBook};
