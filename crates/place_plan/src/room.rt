//! Whether there is room for nets, node by node.
ghost use Rattle.std.specs.Prelude.{◌≡◌, ◌<◌, ◌≤◌, ◌^◌, ◌++◌, map, OnOk, IfOk, IfSome, IfNone, All, length};
ghost use Rattle.machine_shape.specs.Shape.{nodes_of};
ghost use Rattle.place_plan.specs.Choices.{AreWires};
ghost use Rattle.place_plan.specs.Layouts.{GoOn, HoldOn, IsBoardOf, IsLackOf, IsNodesRoom, IsRoom, IsRoomAt, LinesAreShort, NodeIsShort, net_in};
ghost use Rattle.place_plan.specs.Layouts.{visit_by};
ghost use Rattle.place_plan.specs.Room.{HasTerminal};

use crate::assign::assign;
use crate::board::{Board, board_of};
use crate::search::{Ask, Assigned, Hold};
use crate::short::{Need, Net, Port, Resource, Room, Short, Visit, short_of};
use crate::taps::{Crossed, asks_at, free_lines};
use base_lists::Items;
use machine_defects::Defects;
use machine_shape::{Node, Wire};
use std::alloc::{AllocError, Global};

// Adds the lines that are given at a node.
fn push_visits(
    visits: &mut Vec<Visit>,
    node: u32,
    asks: &[Ask],
    holds: &[Hold],
) -> Result<(), AllocError>
    requires { All (λ h. h.ask < length asks.now) holds.now }
    ensures { OnOk result (visits.new.items ≡ visits.old.items ++ map (visit_by node asks.now) holds.now) }
{
    for hold in holds {
        visits.push(Visit {
            node: Node(node),
            net: asks[hold.ask].net,
            line: Wire(hold.line),
        })?;
    }
    Ok(())
}

// The nets of a set of those who ask.
fn nets_of(alloc: Global, asks: &[Ask], set: &[usize]) -> Result<Items<u32>, AllocError>
    requires { All (λ i. i < length asks.now) set.now }
    ensures { IfOk result (λ nets. nets ≡ map (net_in asks.now) set.now) }
{
    let mut nets = Items::empty(alloc);
    for i in set {
        nets.push(asks[*i].net.0)?;
    }
    Ok(nets)
}

// Gives each net that visits a node a line; or says that lines are short there.
fn choose_lines(
    alloc: Global,
    defects: &Defects,
    nets: &[Items<u32>],
    board: &Board,
    visits: &mut Vec<Visit>,
    node: u32,
) -> Result<Option<Short>, AllocError>
    requires node { node < nodes_of defects.now.shape }
    requires within { All (AreWires defects.now.shape) nets.now }
    requires board { IsBoardOf defects.now nets.now board.now }
    ensures given { IfOk result (λ o. IfNone o (GoOn defects.now.shape defects.now.list (length nets.now)
        (HasTerminal nets.now) node visits.old.items visits.new.items)) }
    ensures short { IfOk result (λ o. IfSome o (LinesAreShort defects.now.shape defects.now.list (length nets.now)
        (HasTerminal nets.now) node)) }
{
    machine_shape::the_numbering_is_sound();
    machine_shape::the_crosspoints_are_sound();
    let touched = board.touched[node as usize].as_slice();
    let asks = asks_at(
        alloc,
        &Crossed {
            tree: &board.tree,
            crossing: &board.crossing,
            ports: &board.ports,
        },
        nets,
        touched,
        node,
    )?;
    let lines = free_lines(alloc, defects, node)?;
    match assign(alloc, defects, &asks, lines.as_slice(), &board.had)? {
        Assigned::Given(holds) => {
            push_visits(visits, node, &asks, &holds)?;
            Ok(None)
        }
        Assigned::Lacking { set, need, have } => Ok(Some(Short {
            resource: Resource::Lines,
            node: Node(node),
            need,
            have,
            nets: nets_of(alloc, &asks, &set)?,
        })),
    }
}

// That ports are short at a node that these nets cross, and which has these free ports.
fn lack_of_ports(alloc: Global, crossing: &[u32], ports: &[u32], node: u32) -> Option<Short>
    ensures enough { IfNone result (length crossing.now ≤ length ports.now) }
    ensures short { IfSome result (IsLackOf node (length crossing.now) (length ports.now)) }
{
    if ports.len() < crossing.len() {
        return Some(Short {
            resource: Resource::Ports,
            node: Node(node),
            need: crossing.len() as u64,
            have: ports.len() as u64,
            nets: Items::empty(alloc),
        });
    }
    None
}

// Adds the ports of the nets that cross a node.
fn push_ports(
    held: &mut Vec<Port>,
    crossing: &[u32],
    ports: &[u32],
    node: u32,
) -> Result<(), AllocError>
    requires { length crossing.now ≤ length ports.now }
    ensures { OnOk result (HoldOn node crossing.now ports.now held.old.items held.new.items) }
{
    for j in 0..crossing.len() {
        held.push(Port {
            node: Node(node),
            net: Net(crossing[j]),
            wire: Wire(ports[j]),
        })?;
    }
    Ok(())
}

// What nets have been given, node by node.
#[derive(Drop)]
struct Holdings {
    ports: Vec<Port>,
    visits: Vec<Visit>,
}

// Gives the nets at a node their ports and lines; or says what is short there.
fn node_room(
    alloc: Global,
    defects: &Defects,
    nets: &[Items<u32>],
    board: &Board,
    held: &mut Holdings,
    node: u32,
) -> Result<Option<Short>, AllocError>
    requires node { node < nodes_of defects.now.shape }
    requires within { All (AreWires defects.now.shape) nets.now }
    requires board { IsBoardOf defects.now nets.now board.now }
    ensures enough { IfOk result (λ o. IfNone o (IsRoomAt defects.now.shape defects.now.list (length nets.now)
        (HasTerminal nets.now) node held.old.ports.items held.old.visits.items held.new.ports.items held.new.visits.items)) }
    ensures short { IfOk result (λ o. IfSome o (NodeIsShort defects.now.shape defects.now.list (length nets.now)
        (HasTerminal nets.now) node)) }
{
    let crossing = board.crossing[node as usize].as_slice();
    let ports = board.ports[node as usize].as_slice();
    if let Some(short) = lack_of_ports(alloc, crossing, ports, node) {
        return Ok(Some(short));
    }
    push_ports(&mut held.ports, crossing, ports, node)?;
    let short = choose_lines(alloc, defects, nets, board, &mut held.visits, node)?;
    Ok(short)
}

// Gives the nets at all nodes their ports and lines; or says what is the first to be short.
fn rooms(
    alloc: Global,
    defects: &Defects,
    nets: &[Items<u32>],
    board: &Board,
) -> Result<Room, AllocError>
    requires within { All (AreWires defects.now.shape) nets.now }
    requires board { IsBoardOf defects.now nets.now board.now }
    ensures { IfOk result (IsNodesRoom defects.now.shape defects.now.list (length nets.now) (HasTerminal nets.now)) }
{
    let mut held = Holdings {
        ports: Vec::new(alloc),
        visits: Vec::new(alloc),
    };
    for n in 0..defects.shape().nodes() {
        if let Some(short) = node_room(alloc, defects, nets, board, &mut held, n)? {
            return Ok(Room::Lacks(short));
        }
    }
    let Holdings { ports, visits } = held;
    Ok(Room::Enough { ports, visits })
}

/// Looks for room for nets, each given by its terminals, on what a list of defects leaves free. Tables and pins suffice
/// where these needs are met. Then each node is looked at in turn: whether it has a free port for each net that crosses
/// it, and whether some choice gives each net that visits it a line that serves it, no line to two.
///
/// The answer is the port of each net at each node that it crosses and its line at each node that it visits, or the first
/// short resource. A net without terminals crosses and visits no node, so some of numbered nets can be looked at alone. A
/// port or a line that others have is kept from these nets by listing it.
///
/// # Errors
///
/// Out of memory.
pub fn look_for_room(
    alloc: Global,
    defects: &Defects,
    nets: &[Items<u32>],
    tables: Need,
    pins: Need,
) -> Result<Room, AllocError>
    requires few { length nets.now < 2 ^ 32 }
    requires within { All (AreWires defects.now.shape) nets.now }
    ensures { IfOk result (IsRoom defects.now.shape defects.now.list (length nets.now) (HasTerminal nets.now) tables pins) }
{
    look_for_room_keeping(alloc, defects, nets, tables, pins, Vec::new(alloc))
}

/// The same, with old lines tried first: those whose old line at a node serves them there keep it, where the others can be
/// served by what is left, and else some leave theirs. For each wire it is told the number of the net that had it, or a
/// number that no net has. That lines are kept isn't proved.
///
/// # Errors
///
/// Out of memory.
pub fn look_for_room_keeping(
    alloc: Global,
    defects: &Defects,
    nets: &[Items<u32>],
    tables: Need,
    pins: Need,
    had: Vec<u32>,
) -> Result<Room, AllocError>
    requires few { length nets.now < 2 ^ 32 }
    requires within { All (AreWires defects.now.shape) nets.now }
    ensures { IfOk result (IsRoom defects.now.shape defects.now.list (length nets.now) (HasTerminal nets.now) tables pins) }
{
    if tables.have < tables.need {
        return Ok(Room::Lacks(short_of(alloc, Resource::Tables, tables)));
    }
    if pins.have < pins.need {
        return Ok(Room::Lacks(short_of(alloc, Resource::Pins, pins)));
    }
    let board = board_of(alloc, defects, nets, had)?;
    let room = rooms(alloc, defects, nets, &board)?;
    Ok(room)
}
