//! What of a whole image is one network's.
ghost use Rattle.std.specs.Prelude.{◌≡◌, ◌≢◌, ◌<◌, ◌≤◌, ◌+◌, All, AllPairs, IfOk, OnOk, length, if◌then◌else◌};
ghost use Rattle.machine_shape.specs.Bounds.{most_ticks};
ghost use Rattle.machine_shape.specs.Shape.{crosses_of, tables_of, wires_of};
ghost use Rattle.machine_config.specs.Configuration.{with_closed};
ghost use Rattle.place_route.specs.Closing.{Closes};
ghost use Rattle.place_pair.specs.JointNetworks.{part};
ghost use Rattle.place_pair.specs.Sites.{IsHeldAmong, IsShare, IsTenant};

use crate::site::{Site, has_owner};
use machine_config::Config;
use machine_image::Image;
use machine_shape::{Cross, Table};
use map_network::Network;
use place_plan::Plan;
use place_route::switch_all_on;
use std::alloc::{AllocError, Global};

// Closes a crosspoint, if it is to be.
fn close_if(config: &mut Config, cross: Cross, wanted: bool) -> Result<(), AllocError>
    requires { cross.0 < crosses_of config.old.config.shape }
    ensures { OnOk result (config.new.config ≡ (if wanted then with_closed config.old.config cross.0 else config.old.config)) }
{
    if wanted {
        config.close_cross(cross)?;
    }
    Ok(())
}

// Closes those of these crosspoints whose taps are of the network's nets.
fn close_held(
    config: &mut Config,
    closed: &[Cross],
    owners: &[Option<u32>],
    site: &Site,
    network: &Network,
) -> Result<(), AllocError>
    requires owners { length owners.now ≡ wires_of config.old.config.shape }
    requires within { All (λ c. c.0 < crosses_of config.old.config.shape) closed.now }
    ensures { OnOk result (Closes (IsHeldAmong config.old.config.shape site.now network.now owners.now closed.now)
        (length closed.now) config.old.config config.new.config) }
{
    let shape = config.shape();
    for cross in closed {
        let tap = shape.ends(*cross).0;
        let held = has_owner(site, network, owners[tap.0 as usize]);
        close_if(config, *cross, held)?;
    }
    Ok(())
}

// The configuration of a network that has these seats: its nets' crosspoints of the whole, and its tables.
fn config_of(
    alloc: Global,
    network: &Network,
    whole: &Config,
    seats: &[Table],
    owners: &[Option<u32>],
    site: &Site,
) -> Result<Config, AllocError>
    requires owners { length owners.now ≡ wires_of whole.now.config.shape }
    requires lengths { length seats.now ≡ length network.now.tables }
    requires within { All (λ t. t.0 < tables_of whole.now.config.shape) seats.now }
    requires apart { AllPairs (λ t u. t.0 ≢ u.0) seats.now }
    ensures { IfOk result (λ g. IsShare site.now network.now owners.now seats.now whole.now.config g.config) }
{
    let mut config = Config::with_room(alloc, whole.shape(), 0)?;
    close_held(&mut config, whole.closed(), owners, site, network)?;
    switch_all_on(&mut config, seats, network.tables.as_slice());
    config.set_ticks(whole.ticks());
    Ok(config)
}

// So many pins, from a place on.
fn some_pins(alloc: Global, pins: &[u32], from: usize, count: usize) -> Result<Vec<u32>, AllocError>
    requires { from + count ≤ length pins.now }
    ensures { IfOk result (λ some. some.items ≡ part from count pins.now) }
{
    pins[from..from + count].to_vec(alloc)
}

// So many seats, from a place on.
fn some_seats(seats: &[Table], from: usize, count: usize) -> &[Table]
    requires { from + count ≤ length seats.now }
    ensures { result.now ≡ part from count seats.now }
{
    &seats[from..from + count]
}

/// The image of one of two networks that were laid as one: what its nets, its tables and its pins have of the whole, with as
/// many ticks.
///
/// # Errors
///
/// Out of memory.
pub fn tenant(
    alloc: Global,
    network: &Network,
    whole: &Image,
    plan: &Plan,
    owners: &[Option<u32>],
    site: &Site,
) -> Result<Image, AllocError>
    requires owners { length owners.now ≡ wires_of whole.now.config.shape }
    requires tables { site.now.table + length network.now.tables ≤ length plan.now.tables }
    requires inputs { site.now.input + network.now.inputs ≤ length whole.now.inputs }
    requires outputs { site.now.output + length network.now.outputs ≤ length whole.now.outputs }
    requires within { All (λ t. t.0 < tables_of whole.now.config.shape) plan.now.tables }
    requires apart { AllPairs (λ t u. t.0 ≢ u.0) plan.now.tables }
    requires few { length plan.now.tables ≤ most_ticks whole.now.config.shape }
    ensures { IfOk result (IsTenant site.now network.now plan.now owners.now whole.now) }
{
    let tables = network.tables.as_slice().len();
    let seats = some_seats(plan.tables.as_slice(), site.table, tables);
    let config = config_of(alloc, network, whole.config(), seats, owners, site)?;
    let inputs = some_pins(alloc, whole.inputs(), site.input, network.inputs as usize)?;
    let shown = network.outputs.as_slice().len();
    let outputs = some_pins(alloc, whole.outputs(), site.output, shown)?;
    Ok(Image::new(config, inputs, outputs))
}
