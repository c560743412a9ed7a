//! Two networks on one machine.
ghost use Rattle.std.specs.Prelude.{◌≡◌, ◌<◌, ◌+◌, IfOk, IfErr, length};
ghost use Rattle.machine_meaning.specs.Vocabulary.{Covers, Faults};
ghost use Rattle.machine_image.specs.Parts.{IsFreeImage};
ghost use Rattle.design_netlist.specs.declared.netlist_data.NetlistData.{NetlistData};
ghost use Rattle.map_network.specs.Vocabulary.{IsNetwork, HasRowsOf};
ghost use Rattle.place_plan.specs.Vocabulary.{IsLayout, Fits, IsPlaceFail, IsPlan};
ghost use Rattle.place_route.specs.Vocabulary.{IsRightImage, ReadsRows, IsRoutedFor, IsRoutedInOrder};
ghost use Rattle.place_pair.specs.JointNetworks.{AreBothRows, MayBeJoint, joint_network};
ghost use Rattle.place_pair.specs.Sites.{IsSplit, first_site, second_site};
ghost use Rattle.place_pair.specs.Tenants.{AreTenants, HasPinsOf, HaveRoom, StandApart};

use crate::holders::owners_by;
use crate::joining::joint;
use crate::site::Site;
use crate::splitting::tenant;
use machine_defects::Defects;
use machine_image::Image;
use map_network::Network;
use place_plan::{Layout, PlaceFail, Plan, in_order_laid, lay_out};
use place_route::route_laid;
use std::alloc::{AllocError, Global};

/// Two designs on one machine.
#[derive(Drop)]
pub struct Pair {
    /// The image of both: the first's pins and then the second's.
    pub whole: Image,
    /// What of it is the first's.
    pub first: Image,
    /// What of it is the second's.
    pub second: Image,
}

// A plan of a joint network with its layout.
#[derive(Clone, Copy)]
struct Spot<'p, 'l> {
    plan: &'p Plan,
    layout: &'l Layout,
}

// Where the first of two networks stands in their joint network.
fn first_of(first: &Network, second: &Network) -> Site
    ensures { result ≡ first_site first.now second.now }
{
    Site {
        input: 0,
        table: 0,
        output: 0,
        net: first.inputs as usize + second.inputs as usize,
    }
}

// Where the second does.
fn second_of(first: &Network, second: &Network) -> Site
    requires { length first.now.tables < 4294967296 }
    ensures { result ≡ second_site first.now second.now }
{
    let tables = first.tables.as_slice().len();
    Site {
        input: first.inputs as usize,
        table: tables,
        output: first.outputs.as_slice().len(),
        net: first.inputs as usize + second.inputs as usize + tables,
    }
}

// The image of both on a plan of their joint network with this layout, and the image of each.
fn split(
    alloc: Global,
    first: &Network,
    second: &Network,
    network: &Network,
    spot: &Spot<'_, '_>,
    defects: &Defects,
) -> Result<Pair, AllocError>
    requires pair { MayBeJoint first.now second.now }
    requires joint { network.now ≡ joint_network first.now second.now }
    requires network { IsNetwork network.now }
    requires plan { IsPlan defects.now.shape defects.now.list network.now spot.now.plan.now }
    requires fits { Fits defects.now.shape defects.now.list network.now spot.now.plan.now }
    requires layout { IsLayout defects.now.shape defects.now.list network.now spot.now.plan.now spot.now.layout.now }
    ensures parts { IfOk result (λ p. IsSplit defects.now.shape defects.now.list first.now second.now p.whole p.first p.second) }
    ensures routed { IfOk result (λ p. IsRoutedFor defects.now.shape defects.now.list network.now spot.now.plan.now p.whole) }
{
    machine_shape::the_numbering_is_sound();
    machine_shape::the_crosspoints_are_sound();
    machine_shape::ports_and_lines_ascend();
    map_network::laws::networks_have_one_list_of_rows();
    let plan = spot.plan;
    let layout = spot.layout;
    let whole = route_laid(alloc, network, plan, layout, defects)?;
    let owners = owners_by(alloc, layout, defects)?;
    let one = first_of(first, second);
    let two = second_of(first, second);
    let first = tenant(alloc, first, &whole, plan, &owners, &one)?;
    let second = tenant(alloc, second, &whole, plan, &owners, &two)?;
    Ok(Pair {
        whole,
        first,
        second,
    })
}

/// Two networks on what a list of defects leaves free, by the in-order plan of their joint network: an image of both, and the
/// image of each alone, of which neither uses a wire of the other.
///
/// All three touch nothing that the list names. Under all faults that the list covers each network's image is right for the
/// netlists that have the network's rows, and each runs in the whole as it does alone. A vector of the whole has the first's
/// inputs and then the second's, a row of it the first's outputs and then the second's. No table of the whole is on and no
/// crosspoint of it closed that the joint network doesn't need.
///
/// # Errors
///
/// `Short` exactly where the joint network's in-order plan doesn't fit, with the first short resource, in the net numbers of
/// the joint network. `Memory` for lack of memory.
pub fn lay_pair(
    alloc: Global,
    first: &Network,
    second: &Network,
    defects: &Defects,
) -> Result<Pair, PlaceFail>
    requires first { IsNetwork first.now }
    requires second { IsNetwork second.now }
    requires inputs { first.now.inputs + second.now.inputs < 4294967296 }
    requires tables { length first.now.tables + length second.now.tables < 4294967296 }
    ensures room { IfOk result (λ p. HaveRoom defects.now.shape defects.now.list first.now second.now) }
    ensures shape { IfOk result (λ p. p.whole.config.shape ≡ defects.now.shape) }
    ensures tenants { IfOk result (λ p. AreTenants p.whole p.first p.second) }
    ensures free { IfOk result (λ p. IsFreeImage defects.now.list p.whole) }
    ensures first_free { IfOk result (λ p. IsFreeImage defects.now.list p.first) }
    ensures second_free { IfOk result (λ p. IsFreeImage defects.now.list p.second) }
    ensures first_pins { IfOk result (λ p. HasPinsOf first.now p.first) }
    ensures second_pins { IfOk result (λ p. HasPinsOf second.now p.second) }
    ensures apart { IfOk result (λ p. (f : Faults) → Covers defects.now.shape defects.now.list f →
        StandApart f p.whole p.first p.second) }
    ensures first_right { IfOk result (λ p. (netlist : NetlistData) (f : Faults) → HasRowsOf first.now netlist →
        Covers defects.now.shape defects.now.list f → IsRightImage f p.first netlist) }
    ensures second_right { IfOk result (λ p. (netlist : NetlistData) (f : Faults) → HasRowsOf second.now netlist →
        Covers defects.now.shape defects.now.list f → IsRightImage f p.second netlist) }
    ensures rows { IfOk result (λ p. (f : Faults) → Covers defects.now.shape defects.now.list f →
        ReadsRows f p.whole (AreBothRows first.now second.now)) }
    ensures routed { IfOk result (λ p. IsRoutedInOrder defects.now.shape defects.now.list (joint_network first.now second.now) p.whole) }
    ensures fail { IfErr result (IsPlaceFail defects.now.shape defects.now.list (joint_network first.now second.now)) }
{
    let network = match joint(alloc, first, second) {
        Ok(network) => network,
        Err(_) => return Err(PlaceFail::Memory),
    };
    let placed = match in_order_laid(alloc, &network, defects) {
        Ok(placed) => placed,
        Err(fail) => return Err(fail),
    };
    let spot = Spot {
        plan: &placed.plan,
        layout: &placed.layout,
    };
    match split(alloc, first, second, &network, &spot, defects) {
        Ok(pair) => Ok(pair),
        Err(_) => Err(PlaceFail::Memory),
    }
}

/// The same two networks on another plan of their joint network: the three images of [`lay_pair`], with this plan in place of
/// that in order.
///
/// # Errors
///
/// Out of memory.
pub fn lay_pair_on(
    alloc: Global,
    first: &Network,
    second: &Network,
    plan: &Plan,
    defects: &Defects,
) -> Result<Pair, AllocError>
    requires first { IsNetwork first.now }
    requires second { IsNetwork second.now }
    requires inputs { first.now.inputs + second.now.inputs < 4294967296 }
    requires tables { length first.now.tables + length second.now.tables < 4294967296 }
    requires plan { IsPlan defects.now.shape defects.now.list (joint_network first.now second.now) plan.now }
    requires fits { Fits defects.now.shape defects.now.list (joint_network first.now second.now) plan.now }
    ensures shape { IfOk result (λ p. p.whole.config.shape ≡ defects.now.shape) }
    ensures tenants { IfOk result (λ p. AreTenants p.whole p.first p.second) }
    ensures free { IfOk result (λ p. IsFreeImage defects.now.list p.whole) }
    ensures first_free { IfOk result (λ p. IsFreeImage defects.now.list p.first) }
    ensures second_free { IfOk result (λ p. IsFreeImage defects.now.list p.second) }
    ensures first_pins { IfOk result (λ p. HasPinsOf first.now p.first) }
    ensures second_pins { IfOk result (λ p. HasPinsOf second.now p.second) }
    ensures apart { IfOk result (λ p. (f : Faults) → Covers defects.now.shape defects.now.list f →
        StandApart f p.whole p.first p.second) }
    ensures first_right { IfOk result (λ p. (netlist : NetlistData) (f : Faults) → HasRowsOf first.now netlist →
        Covers defects.now.shape defects.now.list f → IsRightImage f p.first netlist) }
    ensures second_right { IfOk result (λ p. (netlist : NetlistData) (f : Faults) → HasRowsOf second.now netlist →
        Covers defects.now.shape defects.now.list f → IsRightImage f p.second netlist) }
    ensures rows { IfOk result (λ p. (f : Faults) → Covers defects.now.shape defects.now.list f →
        ReadsRows f p.whole (AreBothRows first.now second.now)) }
    ensures routed { IfOk result (λ p. IsRoutedFor defects.now.shape defects.now.list
        (joint_network first.now second.now) plan.now p.whole) }
{
    let network = joint(alloc, first, second)?;
    let layout = lay_out(alloc, &network, plan, defects)?.unwrap();
    let spot = Spot {
        plan,
        layout: &layout,
    };
    let pair = split(alloc, first, second, &network, &spot, defects)?;
    Ok(pair)
}
