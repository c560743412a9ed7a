//! Which net has which port and which line.

use crate::plan::Plan;
use crate::short::{Port, Short, Visit};
use base_lists::Items;

/// The nets of a plan that fits: the terminals of each, and the port and the line of each at each node that it crosses
/// and visits.
#[derive(Debug, Drop)]
pub struct Layout {
    pub nets: Vec<Items<u32>>,
    pub ports: Vec<Port>,
    pub visits: Vec<Visit>,
}

/// A plan that fits, with its layout.
#[derive(Debug, Drop)]
pub struct Placed {
    pub plan: Plan,
    pub layout: Layout,
}

/// A layout, or the first short resource.
#[derive(Debug, Drop)]
pub enum Laid {
    Out(Layout),
    Lacks(Short),
}
