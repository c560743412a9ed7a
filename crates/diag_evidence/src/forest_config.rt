//! Configurations that close a forest. They stay from look to look, and so does what is closed of the forest: a look costs what changes.
ghost use Rattle.std.specs.Prelude.{◌≡◌, ℕ, ◌<◌, true, All, IsTrue, OnOk};
ghost use Rattle.machine_shape.specs.Shape.{crosses_of};
ghost use Rattle.machine_config.specs.Vocabulary.{AreOff, among, is_closed};
ghost use Rattle.diag_tests.specs.Routes.{cross_numbers};
ghost use Rattle.diag_evidence.specs.Hangs.{ClosesForest};

use crate::Forest;
use diag_tests::close_all;
use machine_config::{Config, are_same, count_alike};
use machine_shape::Cross;
use std::alloc::AllocError;

// Opens what was closed last, up to so many.
fn open_last(config: &mut Config, count: usize)
    ensures { config.new.config.shape ≡ config.old.config.shape }
{
    let crosses = config.shape().crosses();
    'crosses: for _step in 0..count {
        let Some(last) = config.closed().last().copied() else {
            return;
        };
        if last.0 >= crosses {
            return;
        }
        config.open_cross(last);
    }
}

// Closes crosspoints from a place on.
fn close_from(config: &mut Config, crosses: &[Cross], from: usize) -> Result<(), AllocError>
    requires { All (λ c. c.0 < crosses_of config.old.config.shape) crosses.now }
    ensures { config.new.config.shape ≡ config.old.config.shape }
{
    'crosses: for k in from..crosses.len() {
        config.close_cross(crosses[k])?;
    }
    Ok(())
}

// Whether just these crosspoints are closed, nothing is on, and a cycle has one tick.
fn closes_these(config: &Config, crosses: &[Cross]) -> bool
    ensures closed { IsTrue result → (x : ℕ) → is_closed config.now.config x ≡ among (cross_numbers crosses.now) x }
    ensures off { IsTrue result → AreOff config.now.config }
    ensures ticks { IsTrue result → config.now.config.ticks ≡ 1 }
{
    if config.ticks() != 1 {
        return false;
    }
    if !config.tables_on().is_empty() {
        return false;
    }
    are_same(config.closed(), crosses)
}

// Closes what isn't closed yet of some crosspoints, and opens others, as far as both come first and last.
fn turn_to(config: &mut Config, crosses: &[Cross]) -> Result<(), AllocError>
    requires { All (λ c. c.0 < crosses_of config.old.config.shape) crosses.now }
    ensures { config.new.config.shape ≡ config.old.config.shape }
{
    let alike = count_alike(config.closed(), crosses);
    let count = config.closed().len().saturating_sub(alike);
    open_last(config, count);
    close_from(config, crosses, alike)
}

/// Closes the crosspoints of a forest, and no other, and switches all off.
pub(crate) fn close_forest(config: &mut Config, forest: &Forest) -> Result<(), AllocError>
    requires { config.old.config.shape ≡ forest.now.shape }
    ensures { OnOk result (ClosesForest forest.now config.new.config) }
{
    let crosses = forest.crosses();
    turn_to(config, crosses)?;
    if closes_these(config, crosses) {
        return Ok(());
    }
    config.clear();
    close_all(config, crosses)
}
