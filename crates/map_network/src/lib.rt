//! Networks of tables with at most six inputs.
//!
//! `plain` is the plain network of a netlist: one table for a cover of at most six different inputs, trees of AND and OR for a
//! wider one, one latched table for a latch. For every list of vectors its rows are the netlist's, and no other (`rows`); its
//! sources are in range and its combinational tables have no cycle. `merge_tables` comes from the plain network by steps, each of which
//! puts a combinational table that one table alone reads, and no output, into that reader, where the two have at most six
//! different sources together, or drops what was put away or leads to no output (`merge_tables`). It has the same rows and no more
//! tables, no table of it can be put into its reader any more (`whole`), each leads to an output (`leads`), and it is no deeper
//! (`shallow`). `merged_of` does the same of any network. `spread_of` puts tables into all their readers first, and drops those
//! that no output needs: the same rows, no more tables, none that can be put into its one reader, each leading to an output, and
//! no deeper. `plain_size` is the number of tables of the plain network, which isn't made for it. `depth` is the most
//! combinational tables on a path. A network has exactly one list of rows for vectors of the right length (`laws`).
#![tactic(auto)]

mod build;
mod cells;
mod compact;
mod composing;
mod copying;
mod covers;
mod drives;
mod joining;
pub mod laws;
mod longest;
mod merge;
mod names;
mod network;
mod readers;
mod size;
mod source;
mod spread;
mod spreading;
mod trees;
mod useless;
mod want;
mod work;

pub use build::plain;
pub use compact::{renamed_outputs, renamed_table};
pub use copying::copied_network;
pub use longest::depth;
pub use merge::{merge_tables, merged_of};
pub use network::{NetTable, Network};
pub use size::plain_size;
pub use source::{Source, Sources};
pub use spread::spread_of;
