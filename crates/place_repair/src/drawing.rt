//! Draws a repaired image: what stays, and the nets that move.
ghost use Rattle.std.specs.Prelude.{◌≡◌, ◌<◌, OnOk, IfOk, length};
ghost use Rattle.std.specs.FinSet as set;
ghost use Rattle.machine_shape.specs.Shape.{tables_of, crosses_of};
ghost use Rattle.machine_config.specs.Configuration.{setting_of, with_setting};
ghost use Rattle.place_route.specs.Vocabulary.{Closes, AreWiresOf};
ghost use Rattle.place_plan.specs.Lists.{nth_of};
ghost use Rattle.place_repair.specs.Making.{AreApart, AreSeated, AreSizedFor, IsDrawn, IsKeptCross, IsKeptCrossOf, IsOn};

use crate::plan::Plan;
use crate::rest::stays;
use machine_config::Config;
use machine_shape::{Cross, Table};
use place_plan::Layout;
use place_route::join_nets;
use std::alloc::{AllocError, Global};

// Closes a crosspoint whose net stays.
fn keep_cross(
    config: &mut Config,
    old: &Config,
    plan: &Plan,
    cross: Cross,
) -> Result<(), AllocError>
    requires plan { AreSizedFor old.now.config plan.now }
    requires shape { config.old.config.shape ≡ old.now.config.shape }
    requires within { cross.0 < crosses_of old.now.config.shape }
    ensures { OnOk result (Closes (IsKeptCrossOf old.now.config plan.now cross.0) 1 config.old.config config.new.config) }
{
    let (tap, _) = old.shape().ends(cross);
    if !stays(old, plan, tap) {
        return Ok(());
    }
    config.close_cross(cross)
}

// Closes the crosspoints of all nets that stay.
fn keep_crosses(config: &mut Config, old: &Config, plan: &Plan) -> Result<(), AllocError>
    requires plan { AreSizedFor old.now.config plan.now }
    requires shape { config.old.config.shape ≡ old.now.config.shape }
    ensures { OnOk result (Closes (IsKeptCross old.now.config plan.now)
        (set.len old.now.config.closed) config.old.config config.new.config) }
{
    let _shape = old.shape();
    let closed = old.closed();
    for k in 0..closed.len() {
        keep_cross(config, old, plan, closed[k])?;
    }
    Ok(())
}

// Switches a table on where it stands.
fn seat(config: &mut Config, old: &Config, plan: &Plan, table: Table)
    requires plan { AreSizedFor old.now.config plan.now }
    requires shape { config.old.config.shape ≡ old.now.config.shape }
    requires within { table.0 < tables_of old.now.config.shape }
    requires on { IsOn old.now.config table.0 }
    ensures { config.new.config ≡ with_setting config.old.config (nth_of plan.now.tables.items table.0)
        (setting_of old.now.config table.0) }
{
    match old.setting(table) {
        None => {}
        Some(setting) => {
            let place = plan.tables[table.0 as usize];
            config.switch_on(Table(place), setting);
        }
    }
}

// Switches the tables on where they stand.
fn seat_all(config: &mut Config, old: &Config, plan: &Plan)
    requires plan { AreSizedFor old.now.config plan.now }
    requires shape { config.old.config.shape ≡ old.now.config.shape }
    requires apart { AreApart old.now.config plan.now }
    ensures { AreSeated old.now.config plan.now (IsOn old.now.config) config.old.config config.new.config }
{
    // Say that there is a place for each table of the machine, and that those that are on are among them.
    let _shape = config.shape();
    let _old = old.shape();
    let tables = old.tables_on();
    for k in 0..tables.len() {
        seat(config, old, plan, tables[k]);
    }
}

/// The configuration of a repair whose moving nets have this layout.
pub fn draw(alloc: Global, old: &Config, plan: &Plan, layout: &Layout) -> Result<Config, AllocError>
    requires plan { AreSizedFor old.now.config plan.now }
    requires apart { AreApart old.now.config plan.now }
    requires few { length layout.now.nets.items < 4294967296 }
    requires wires { AreWiresOf old.now.config.shape layout.now.nets.items layout.now.ports.items layout.now.visits.items }
    ensures { IfOk result (λ g. IsDrawn old.now.config plan.now
        layout.now.nets.items layout.now.ports.items layout.now.visits.items g.config) }
{
    let mut config = join_nets(alloc, old.shape(), layout)?;
    keep_crosses(&mut config, old, plan)?;
    seat_all(&mut config, old, plan);
    let ticks = old.ticks();
    config.set_ticks(ticks);
    Ok(config)
}
