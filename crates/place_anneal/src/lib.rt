//! Better plans: tables of a network in each other's places, or in free ones, so that nets cross fewer nodes.
//!
//! A search exchanges seats by chance and takes what helps: once from the plan on, once from seats that it fills anew, and once
//! from the tables in a chain that is cut where few nets cross. Of it nothing is proved but that it keeps the seats; the crossings
//! of what it finds are counted, and a plan that has no fewer of them is dropped.
//!
//! `improve` answers a plan for the network on free and different tables and pins, in which the number of nets that cross a node,
//! summed over all nodes, is at most that of the plan it was given (`plan`, `crossings`). The pins stay where they are (`pins`),
//! and the answer is the plan itself, or one that fits and has fewer crossings (`better`). `improve_laid` does the same of a plan
//! whose layout is at hand, and answers the layout too; `better_plan` answers the better plan alone, if there is one.
//! `crossings_of` counts crossings. That the search finds anything isn't proved.
#![tactic(auto)]

mod better;
mod chain;
mod count;
mod cutting;
mod gain;
mod growth;
mod links;
mod luck;
mod parts;
mod queue;
mod ranks;
mod search;
mod seats;
mod trial;

pub use better::{better_plan, improve, improve_laid};
pub use count::crossings_of;
