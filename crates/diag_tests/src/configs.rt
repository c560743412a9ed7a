//! The configurations of tests.
ghost use Rattle.std.specs.Prelude.{◌<◌, IfOk, OnOk, All};
ghost use Rattle.machine_shape.specs.Shape.{crosses_of, tables_of};
ghost use Rattle.diag_tests.specs.Routes.{IsRoute, cross_numbers};
ghost use Rattle.diag_tests.specs.Configs.{IsLoopConfig, IsCellConfig, Closes};

use crate::Route;
use machine_config::{Config, Setting};
use machine_shape::{Cross, Shape, Table};
use std::alloc::{AllocError, Global};

// Closes the crosspoints of a route.
fn close_route(config: &mut Config, route: &Route) -> Result<(), AllocError>
    requires { IsRoute config.old.config.shape route.now }
    ensures { OnOk result (Closes route.now.crosses config.old.config config.new.config) }
{
    'steps: for k in 0..route.len() {
        config.close_cross(route.cross_at(k))?;
    }
    Ok(())
}

/// Closes these crosspoints besides, and changes nothing else.
///
/// # Errors
///
/// Out of memory.
pub fn close_all(config: &mut Config, ties: &[Cross]) -> Result<(), AllocError>
    requires { All (λ c. c.0 < crosses_of config.old.config.shape) ties.now }
    ensures { OnOk result (Closes (cross_numbers ties.now) config.old.config config.new.config) }
{
    'ties: for c in ties {
        config.close_cross(*c)?;
    }
    Ok(())
}

/// Makes a configuration that of [`loop_config`], which costs what is closed in it before and after, and nothing that
/// grows with the machine.
///
/// # Errors
///
/// Out of memory.
pub fn close_loop(
    config: &mut Config,
    left: &Route,
    right: &Route,
    ties: &[Cross],
) -> Result<(), AllocError>
    requires left { IsRoute config.old.config.shape left.now }
    requires right { IsRoute config.old.config.shape right.now }
    requires ties { All (λ c. c.0 < crosses_of config.old.config.shape) ties.now }
    ensures { OnOk result (IsLoopConfig config.old.config.shape left.now right.now (cross_numbers ties.now) config.new.config) }
{
    config.clear();
    close_route(config, left)?;
    close_route(config, right)?;
    close_all(config, ties)?;
    Ok(())
}

/// Closes the crosspoints of two routes and the ties, and no other. Nothing is on, and a cycle has one tick.
///
/// # Errors
///
/// Out of memory.
pub fn loop_config(
    alloc: Global,
    shape: &Shape,
    left: &Route,
    right: &Route,
    ties: &[Cross],
) -> Result<Config, AllocError>
    requires left { IsRoute shape.now left.now }
    requires right { IsRoute shape.now right.now }
    requires ties { All (λ c. c.0 < crosses_of shape.now) ties.now }
    ensures { IfOk result (λ g. IsLoopConfig shape.now left.now right.now (cross_numbers ties.now) g.config) }
{
    let mut config = Config::with_room(alloc, *shape, 0)?;
    close_loop(&mut config, left, right, ties)?;
    Ok(config)
}

/// The same, with a table on that has these cells, isn't latched, and has the initial bit 1.
///
/// # Errors
///
/// Out of memory.
pub fn cell_config(
    alloc: Global,
    shape: &Shape,
    left: &Route,
    right: &Route,
    ties: &[Cross],
    t: Table,
    cells: u64,
) -> Result<Config, AllocError>
    requires left { IsRoute shape.now left.now }
    requires right { IsRoute shape.now right.now }
    requires ties { All (λ c. c.0 < crosses_of shape.now) ties.now }
    requires table { t.0 < tables_of shape.now }
    ensures { IfOk result (λ g. IsCellConfig shape.now left.now right.now (cross_numbers ties.now) t.0 cells g.config) }
{
    let mut config = loop_config(alloc, shape, left, right, ties)?;
    let setting = Setting {
        cells,
        latched: false,
        init: true,
    };
    config.switch_on(t, setting);
    Ok(config)
}
