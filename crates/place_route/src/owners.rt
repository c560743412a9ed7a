//! The net that has each wire as a terminal or a port.
ghost use Rattle.std.specs.Prelude.{◌<◌, ◌^◌, IfOk, All, length};
ghost use Rattle.machine_shape.specs.Shape.{wires_of};
ghost use Rattle.place_plan.specs.Vocabulary.{AreWires, HasTerminal};
ghost use Rattle.place_route.specs.Owners.{AreOwners, HoldsPort, IsClaimedBy, IsMarked};

use base_lists::Items;
use machine_shape::Shape;
use place_plan::{Net, Port};
use std::alloc::{AllocError, Global};

// Gives wires to a net.
fn mark_net(owners: &mut [Option<u32>], wires: &[u32], net: Net)
    requires { All (λ w. w < length owners.old) wires.now }
    ensures { IsMarked (IsClaimedBy net.0 wires.now) owners.old owners.new }
{
    for wire in wires {
        owners[*wire as usize] = Some(net.0);
    }
}

// Gives each net its terminals.
fn mark_nets(owners: &mut [Option<u32>], nets: &[Items<u32>])
    requires few { length nets.now < 2 ^ 32 }
    requires within { All (All (λ w. w < length owners.old)) nets.now }
    ensures { IsMarked (HasTerminal nets.now) owners.old owners.new }
{
    for k in 0..nets.len() {
        mark_net(owners, nets[k].as_slice(), Net(k as u32));
    }
}

// Gives each net its ports.
fn mark_ports(owners: &mut [Option<u32>], ports: &[Port])
    requires { All (λ p. p.wire.0 < length owners.old) ports.now }
    ensures { IsMarked (HoldsPort ports.now) owners.old owners.new }
{
    for port in ports {
        owners[port.wire.0 as usize] = Some(port.net.0);
    }
}

/// For each wire the number of a net of which it is a terminal or a port, if there is one.
pub fn owners_of(
    alloc: Global,
    shape: Shape,
    nets: &[Items<u32>],
    ports: &[Port],
) -> Result<Vec<Option<u32>>, AllocError>
    requires few { length nets.now < 2 ^ 32 }
    requires terminals { All (AreWires shape) nets.now }
    requires ports { All (λ p. p.wire.0 < wires_of shape) ports.now }
    ensures { IfOk result (λ owners. AreOwners shape nets.now ports.now owners.items) }
{
    let mut owners = vec![in alloc; None; shape.wires() as usize]?;
    mark_nets(&mut owners, nets);
    mark_ports(&mut owners, ports);
    Ok(owners)
}
