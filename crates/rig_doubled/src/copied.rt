//! A configuration once more.
ghost use Rattle.std.specs.Prelude.{◌≡◌, ◌<◌, All, IfOk, OnOk};
ghost use Rattle.std.specs.FinSet as set;
ghost use Rattle.machine_shape.specs.Shape.{crosses_of, tables_of};
ghost use Rattle.machine_config.specs.declared.Setting.{Setting};
ghost use Rattle.machine_config.specs.Configuration.{with_setting};
ghost use Rattle.rig_doubled.specs.Repeats.{with_crosses};

use machine_config::{Config, Setting};
use machine_shape::{Cross, Table};
use std::alloc::{AllocError, Global};

// Closes these crosspoints.
fn close_all(copy: &mut Config, closed: &[Cross]) -> Result<(), AllocError>
    requires within { All (λ c. c.0 < crosses_of copy.old.config.shape) closed.now }
    requires none { copy.old.config.closed ≡ set.empty }
    ensures { OnOk result (copy.new.config ≡ with_crosses copy.old.config closed.now) }
{
    'closed: for k in 0..closed.len() {
        copy.close_cross(closed[k])?;
    }
    Ok(())
}

// Gives a table this setting, or switches it off.
fn set_table(copy: &mut Config, table: Table, setting: Option<Setting>)
    requires { table.0 < tables_of copy.old.config.shape }
    ensures { copy.new ≡ record copy.old { config = with_setting copy.old.config table.0 setting } }
{
    match setting {
        Some(setting) => copy.switch_on(table, setting),
        None => copy.switch_off(table),
    }
}

// Gives each table the setting that it has in another configuration.
fn set_tables(copy: &mut Config, config: &Config)
    requires { copy.old.config.shape ≡ config.now.config.shape }
    ensures { copy.new.config ≡ record copy.old.config { tables = config.now.config.tables } }
{
    let shape = config.shape();
    let _same = copy.shape();
    'tables: for t in 0..shape.tables() {
        set_table(copy, Table(t), config.setting(Table(t)));
    }
}

/// A configuration that is as this one.
///
/// # Errors
///
/// Out of memory.
pub fn copy_of(alloc: Global, config: &Config) -> Result<Config, AllocError>
    ensures { IfOk result (λ copy. copy.config ≡ config.now.config) }
{
    let closed = config.closed();
    let mut copy = Config::with_room(alloc, config.shape(), 0)?;
    close_all(&mut copy, closed)?;
    set_tables(&mut copy, config);
    copy.set_ticks(config.ticks());
    Ok(copy)
}
