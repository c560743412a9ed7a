//! Routes a plan.
ghost use Rattle.std.specs.Prelude.{◌≡◌, ◌≢◌, ◌≤◌, ◌<◌, ◌++◌, All, AllPairs, IfOk, length};
ghost use Rattle.std.specs.FinSet as set;
ghost use Rattle.machine_shape.specs.Bounds.{most_closed, most_ticks};
ghost use Rattle.machine_shape.specs.Shape.{pins_of, tables_of};
ghost use Rattle.machine_meaning.specs.Vocabulary.{Covers, Faults};
ghost use Rattle.design_netlist.specs.declared.netlist_data.NetlistData.{NetlistData};
ghost use Rattle.machine_image.specs.Images.{tables_on};
ghost use Rattle.machine_image.specs.Parts.{IsFreeImage};
ghost use Rattle.map_network.specs.Vocabulary.{IsNetwork, HasRowsOf};
ghost use Rattle.place_plan.specs.Vocabulary.{IsLayout, Fits, IsPlan};
ghost use Rattle.place_route.specs.RightImages.{IsRightForNetwork, IsRightImage};
ghost use Rattle.place_route.specs.Routed.{AreWiresOf, IsJoined, IsLaidBy, IsRouteOf, IsRouted};
ghost use Rattle.place_route.specs.RoutedImages.{IsRoutedFor};
ghost use Rattle.place_route.specs.Ticks.{AreTicks};

use crate::close::{join_all, switch_all_on};
use crate::lines::lines_of;
use crate::owners::owners_of;
use crate::ticks::ticks_of;
use machine_config::Config;
use machine_defects::Defects;
use machine_image::Image;
use machine_shape::Shape;
use map_network::Network;
use place_plan::{Layout, Plan, lay_out};
use std::alloc::{AllocError, Global};

// A machine has few tables and pins, as the counts of its shape say.
fn counts_are_few(shape: &Shape)
    ensures tables { tables_of shape.now ≤ 65536 }
    ensures pins { pins_of shape.now ≤ 16384 }
{
    let _tables = shape.tables();
    let _pins = shape.pins();
}

/// A configuration with the crosspoints of a layout's lines and taps closed, and no table on.
///
/// # Errors
///
/// Out of memory.
pub fn join_nets(alloc: Global, shape: Shape, layout: &Layout) -> Result<Config, AllocError>
    requires few { length layout.now.nets.items < 4294967296 }
    requires wires { AreWiresOf shape layout.now.nets.items layout.now.ports.items layout.now.visits.items }
    ensures { IfOk result (λ g. IsJoined shape layout.now.nets.items layout.now.ports.items layout.now.visits.items g.config) }
{
    let lines = lines_of(alloc, &layout.visits)?;
    let owners = owners_of(alloc, shape, &layout.nets, &layout.ports)?;
    let mut config = Config::with_room(alloc, shape, 0)?;
    join_all(&mut config, shape, &lines, &owners)?;
    Ok(config)
}

// The configuration of a network on a plan with this layout.
fn configure(
    alloc: Global,
    network: &Network,
    plan: &Plan,
    layout: &Layout,
    defects: &Defects,
) -> Result<Config, AllocError>
    requires network { IsNetwork network.now }
    requires plan { IsPlan defects.now.shape defects.now.list network.now plan.now }
    requires laid { IsLaidBy defects.now.shape defects.now.list network.now plan.now
        layout.now.nets.items layout.now.ports.items layout.now.visits.items }
    ensures ticks { IfOk result (λ g. AreTicks network.now g.config.ticks) }
    ensures routed { IfOk result (λ g. IsRouted defects.now.shape defects.now.list network.now plan.now
        layout.now.ports.items layout.now.visits.items g.config) }
{
    machine_shape::the_numbering_is_sound();
    machine_shape::the_crosspoints_are_sound();
    machine_shape::ports_and_lines_ascend();
    let shape = defects.shape();
    counts_are_few(&shape);
    let ticks = ticks_of(alloc, network)?;
    let mut config = join_nets(alloc, shape, layout)?;
    switch_all_on(
        &mut config,
        plan.tables.as_slice(),
        network.tables.as_slice(),
    );
    config.set_ticks(ticks);
    Ok(config)
}

// The image of a configuration, with the plan's pins.
fn image_of(alloc: Global, plan: &Plan, config: Config) -> Result<Image, AllocError>
    requires within { All (λ k. k < pins_of config.config.shape) (plan.now.inputs ++ plan.now.outputs) }
    requires apart { AllPairs (λ j k. j ≢ k) (plan.now.inputs ++ plan.now.outputs) }
    requires few { set.len config.config.closed ≤ most_closed config.config.shape }
    requires few_on { length (tables_on config.config) ≤ most_ticks config.config.shape }
    ensures config { IfOk result (λ i. i.config ≡ config.config) }
    ensures inputs { IfOk result (λ i. i.inputs ≡ plan.now.inputs) }
    ensures outputs { IfOk result (λ i. i.outputs ≡ plan.now.outputs) }
{
    let inputs = plan.inputs.as_slice().to_vec(alloc)?;
    let outputs = plan.outputs.as_slice().to_vec(alloc)?;
    Ok(Image::new(config, inputs, outputs))
}

// The image of a network on a plan with this layout.
fn draw(
    alloc: Global,
    network: &Network,
    plan: &Plan,
    layout: &Layout,
    defects: &Defects,
) -> Result<Image, AllocError>
    requires network { IsNetwork network.now }
    requires plan { IsPlan defects.now.shape defects.now.list network.now plan.now }
    requires laid { IsLaidBy defects.now.shape defects.now.list network.now plan.now
        layout.now.nets.items layout.now.ports.items layout.now.visits.items }
    ensures { IfOk result (IsRouteOf defects.now.shape defects.now.list network.now plan.now) }
{
    let config = configure(alloc, network, plan, layout, defects)?;
    let image = image_of(alloc, plan, config)?;
    Ok(image)
}

/// The image of a network on a plan with this layout. Nothing is used that the list names, and under all faults that the list
/// covers it reads the network's rows, and so the rows of each netlist whose rows are the network's.
///
/// The j-th net that crosses a node has the j-th free port of it. Each net that visits a node has a line of its own there,
/// and the closed crosspoints are those of the nets' lines and taps. A cycle takes as many ticks as the network is deep,
/// and at least one. The pins are the plan's, in order.
///
/// # Errors
///
/// Out of memory.
pub fn route_laid(
    alloc: Global,
    network: &Network,
    plan: &Plan,
    layout: &Layout,
    defects: &Defects,
) -> Result<Image, AllocError>
    requires network { IsNetwork network.now }
    requires plan { IsPlan defects.now.shape defects.now.list network.now plan.now }
    requires layout { IsLayout defects.now.shape defects.now.list network.now plan.now layout.now }
    ensures route { IfOk result (IsRouteOf defects.now.shape defects.now.list network.now plan.now) }
    ensures routed { IfOk result (λ i. Fits defects.now.shape defects.now.list network.now plan.now →
        IsRoutedFor defects.now.shape defects.now.list network.now plan.now i) }
    ensures free { IfOk result (IsFreeImage defects.now.list) }
    ensures rows { IfOk result (λ i. (f : Faults) → Covers defects.now.shape defects.now.list f → IsRightForNetwork f i network.now) }
    ensures right { IfOk result (λ i. (netlist : NetlistData) (f : Faults) → HasRowsOf network.now netlist →
        Covers defects.now.shape defects.now.list f → IsRightImage f i netlist) }
{
    machine_shape::the_numbering_is_sound();
    draw(alloc, network, plan, layout, defects)
}

/// The image of a network on a plan that fits, as [`route_laid`] makes it.
///
/// # Errors
///
/// Out of memory.
pub fn route(
    alloc: Global,
    network: &Network,
    plan: &Plan,
    defects: &Defects,
) -> Result<Image, AllocError>
    requires network { IsNetwork network.now }
    requires plan { IsPlan defects.now.shape defects.now.list network.now plan.now }
    requires fits { Fits defects.now.shape defects.now.list network.now plan.now }
    ensures routed { IfOk result (IsRoutedFor defects.now.shape defects.now.list network.now plan.now) }
    ensures free { IfOk result (IsFreeImage defects.now.list) }
    ensures rows { IfOk result (λ i. (f : Faults) → Covers defects.now.shape defects.now.list f → IsRightForNetwork f i network.now) }
    ensures right { IfOk result (λ i. (netlist : NetlistData) (f : Faults) → HasRowsOf network.now netlist →
        Covers defects.now.shape defects.now.list f → IsRightImage f i netlist) }
{
    let layout = lay_out(alloc, network, plan, defects)?.unwrap();
    route_laid(alloc, network, plan, &layout, defects)
}
