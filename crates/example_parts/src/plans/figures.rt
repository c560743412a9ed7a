//! What is to be seen of a design's plans.
ghost use Rattle.std.specs.Prelude.{IfSome};
ghost use Rattle.map_network.specs.Networks.{IsNetwork};
ghost use Rattle.place_plan.specs.Plans.{IsPlan};

use crate::plans::texts::Texts;
use design_blif::read_blif;
use machine_defects::{Defects, read_defects};
use machine_text::read_machine;
use map_network::{Network, plain};
use place_anneal::{crossings_of, improve};
use place_plan::{Plan, fits, in_order};
use place_route::route;
use std::alloc::{AllocError, Global};

/// How often the nets of a plan cross nodes, in sum, and how many crosspoints an image by it closes, where it fits.
#[derive(Clone, Copy)]
pub struct Seen {
    pub crossings: u128,
    pub closed: Option<usize>,
}

/// What is to be seen of the plan in order, and of the one that a search makes of it.
#[derive(Clone, Copy)]
pub struct Figures {
    pub in_order: Seen,
    pub improved: Seen,
}

impl Seen {
    // The two numbers, with a blank between them.
    fn text(&self, alloc: Global) -> Result<String, AllocError> {
        let crossings = self.crossings;
        match self.closed {
            Some(closed) => format!(in alloc; "{crossings} {closed}"),
            None => format!(in alloc; "{crossings} none"),
        }
    }
}

impl Figures {
    /// The numbers of both plans, with blanks between them: for each its crossings, and its closed crosspoints or `none`.
    pub fn text(&self, alloc: Global) -> Result<String, AllocError> {
        let in_order = self.in_order.text(alloc)?;
        let improved = self.improved.text(alloc)?;
        format!(in alloc; "{in_order} {improved}")
    }
}

/// The list of defects.
pub fn defects_of(alloc: Global, texts: &Texts) -> Option<Defects> {
    let shape = read_machine(alloc, &texts.machine).ok()?;
    read_defects(alloc, &shape, &texts.defects).ok()
}

/// The network of a design, a table for each of its covers and latches.
pub fn network_of(alloc: Global, design: &[u8]) -> Option<Network>
    ensures { IfSome result IsNetwork }
{
    let netlist = read_blif(alloc, design).ok()?;
    plain(alloc, &netlist).ok()
}

// How many crosspoints an image by a plan closes.
fn closed_by(alloc: Global, network: &Network, plan: &Plan, defects: &Defects) -> Option<usize>
    requires network { IsNetwork network.now }
    requires plan { IsPlan defects.now.shape defects.now.list network.now plan.now }
{
    match fits(alloc, network, plan, defects) {
        Ok(true) => match route(alloc, network, plan, defects) {
            Ok(image) => Some(image.config().closed().len()),
            Err(_) => None,
        },
        _ => None,
    }
}

// What is to be seen of a plan.
fn seen_by(alloc: Global, network: &Network, plan: &Plan, defects: &Defects) -> Option<Seen>
    requires network { IsNetwork network.now }
    requires plan { IsPlan defects.now.shape defects.now.list network.now plan.now }
{
    let crossings = crossings_of(alloc, network, plan, defects).ok()?;
    let closed = closed_by(alloc, network, plan, defects);
    Some(Seen { crossings, closed })
}

// The plan in order.
fn plan_of(alloc: Global, network: &Network, defects: &Defects) -> Option<Plan>
    requires { IsNetwork network.now }
    ensures { IfSome result (IsPlan defects.now.shape defects.now.list network.now) }
{
    in_order(alloc, network, defects).ok()
}

// What is to be seen of the plan that a search makes of this one.
fn improved_by(alloc: Global, network: &Network, plan: Plan, defects: &Defects) -> Option<Seen>
    requires network { IsNetwork network.now }
    requires plan { IsPlan defects.now.shape defects.now.list network.now plan }
{
    let plan = improve(alloc, network, plan, defects).ok()?;
    seen_by(alloc, network, &plan, defects)
}

// What is to be seen of both plans of a network.
fn figures_on(alloc: Global, network: &Network, defects: &Defects) -> Option<Figures>
    requires { IsNetwork network.now }
{
    let plan = plan_of(alloc, network, defects)?;
    let in_order = seen_by(alloc, network, &plan, defects)?;
    let improved = improved_by(alloc, network, plan, defects)?;
    Some(Figures { in_order, improved })
}

// What is to be seen of both plans of a design.
fn figures_by(alloc: Global, design: &[u8], defects: &Defects) -> Option<Figures> {
    let network = network_of(alloc, design)?;
    figures_on(alloc, &network, defects)
}

/// What is to be seen of both plans. None where a text can't be read, the plan in order doesn't fit, or memory is lacking.
pub fn figures_of(alloc: Global, texts: &Texts) -> Option<Figures> {
    let defects = defects_of(alloc, texts)?;
    figures_by(alloc, &texts.designs.first, &defects)
}
