//! What a machine does under its faults, and what a list of its defects has to leave out: definitions, and what holds of them.
//!
//! Faults, joined and shorted wires, the values of wires, what is sound, which nodes are served, which wires stand, which lists
//! of defects cover the faults, and which are fair or tight. The functions here run no code: each says by its contract what
//! holds. `joining` proves that joined is an equivalence that grows with what is closed and says the same as a finite list of
//! wires, that each wire has exactly one value, and that every list covers the empty fault set. `served` proves that the node
//! above a served node is served; that a whole line of a served node has two sound crosspoints; that a fair list leaves whole
//! lines open, and sound ports, pins and tables free; and that without faults a machine with two pins, and two ports and two
//! lines at each level, serves every node, so that a fair list of it is empty. `tight` proves that the sound parts of served
//! nodes stand, that a tight list leaves everything free that stands and so is fair, that nothing that could stand can be taken
//! off it, and that where it covers the faults exactly one wire is free of those that are shorted to a clear wire that could
//! stand.
#![tactic(auto)]

mod joining;
mod served;
mod tight;

pub use joining::{
    covered_wires_are_as_without_faults, every_list_covers_no_faults, joined_grows,
    joined_is_a_list, joined_is_an_equivalence, listed_is_what_is_faulty, sound_wires_are_clear,
    sound_wires_stay_apart, values_are_unique, values_exist, without_faults_all_is_sound,
};
pub use served::{
    fair_lists_leave_sound_parts, fair_lists_of_faultless_machines_are_empty,
    served_nodes_have_sound_parts, whole_lines_have_two_sound_crosspoints,
};
pub use tight::{parts_of_served_nodes_stand, tight_lists_are_fair, tight_lists_are_least};
