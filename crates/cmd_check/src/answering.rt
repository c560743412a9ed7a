//! What a list of defects says of an image.
ghost use Rattle.std.specs.Prelude.{◌≡◌, ◌<◌, ℕ, false, true, IsSome, IsTrue, IfOk, IfSome, IfNone, length};
ghost use Rattle.base_bits.specs.Numbers.{has_number};
ghost use Rattle.machine_shape.specs.Shape.{wires_of, crosses_of, tables_of};
ghost use Rattle.machine_meaning.specs.Defects.{IsFreeWire, IsFreeCross, IsFreeTable};
ghost use Rattle.machine_config.specs.Configuration.{is_closed, setting_of};
ghost use Rattle.cmd_check.specs.Answers.{IsAnswer, IsFirstOf, IsOfMachine};

use crate::answer::Answer;
use base_bits::BitSet;
use diag_check::{free_images_run_soundly, used_wires};
use machine_config::Config;
use machine_defects::Defects;
use machine_image::Image;
use machine_meaning::tight_lists_are_fair;
use machine_shape::{Cross, Table, Wire};
use std::alloc::{AllocError, Global};

// Whether a wire is marked, but isn't free.
fn wire_in_doubt(list: &Defects, used: &BitSet, wire: Wire) -> bool
    requires used { length used.now ≡ wires_of list.now.shape }
    requires within { wire.0 < wires_of list.now.shape }
    ensures yes { IsTrue result → (has_number used.now wire.0 ≡ true) × ¬ IsFreeWire list.now.list wire.0 }
    ensures no { result ≡ false → has_number used.now wire.0 ≡ true → IsFreeWire list.now.list wire.0 }
{
    if list.free_wire(wire) {
        return false;
    }
    used.has(wire.0)
}

// The first marked wire that isn't free.
fn first_wire(list: &Defects, used: &BitSet) -> Option<Wire>
    requires { length used.now ≡ wires_of list.now.shape }
    ensures within { IfSome result (λ w. w.0 < wires_of list.now.shape) }
    ensures first { IfSome result (λ w. IsFirstOf (λ u. has_number used.now u ≡ true) (IsFreeWire list.now.list) w.0) }
    ensures none { IfNone result ((u : ℕ) → u < wires_of list.now.shape → has_number used.now u ≡ true → IsFreeWire list.now.list u) }
{
    'wires: for w in 0..list.shape().wires() {
        if wire_in_doubt(list, used, Wire(w)) {
            return Some(Wire(w));
        }
    }
    None
}

// Whether a crosspoint is closed, but isn't free.
fn cross_in_doubt(list: &Defects, config: &Config, cross: Cross) -> bool
    requires shape { list.now.shape ≡ config.now.config.shape }
    requires within { cross.0 < crosses_of list.now.shape }
    ensures yes { IsTrue result → (is_closed config.now.config cross.0 ≡ true) × ¬ IsFreeCross list.now.shape list.now.list cross.0 }
    ensures no { result ≡ false → is_closed config.now.config cross.0 ≡ true → IsFreeCross list.now.shape list.now.list cross.0 }
{
    if list.free_cross(cross) {
        return false;
    }
    config.has_cross(cross)
}

// The first closed crosspoint that isn't free.
fn first_cross(list: &Defects, config: &Config) -> Option<Cross>
    requires { list.now.shape ≡ config.now.config.shape }
    ensures within { IfSome result (λ x. x.0 < crosses_of list.now.shape) }
    ensures first { IfSome result
        (λ x. IsFirstOf (λ y. is_closed config.now.config y ≡ true) (IsFreeCross list.now.shape list.now.list) x.0) }
    ensures none { IfNone result ((y : ℕ) → y < crosses_of list.now.shape → is_closed config.now.config y ≡ true →
        IsFreeCross list.now.shape list.now.list y) }
{
    'crosses: for x in 0..list.shape().crosses() {
        if cross_in_doubt(list, config, Cross(x)) {
            return Some(Cross(x));
        }
    }
    None
}

// Whether a table is switched on, but isn't free.
fn table_in_doubt(list: &Defects, config: &Config, table: Table) -> bool
    requires shape { list.now.shape ≡ config.now.config.shape }
    requires within { table.0 < tables_of list.now.shape }
    ensures yes { IsTrue result → IsSome (setting_of config.now.config table.0) × ¬ IsFreeTable list.now.shape list.now.list table.0 }
    ensures no { result ≡ false → IsSome (setting_of config.now.config table.0) → IsFreeTable list.now.shape list.now.list table.0 }
{
    if list.free_table(table) {
        return false;
    }
    config.setting(table).is_some()
}

// The first switched-on table that isn't free.
fn first_table(list: &Defects, config: &Config) -> Option<Table>
    requires { list.now.shape ≡ config.now.config.shape }
    ensures within { IfSome result (λ t. t.0 < tables_of list.now.shape) }
    ensures first { IfSome result
        (λ t. IsFirstOf (λ u. IsSome (setting_of config.now.config u)) (IsFreeTable list.now.shape list.now.list) t.0) }
    ensures none { IfNone result ((u : ℕ) → u < tables_of list.now.shape → IsSome (setting_of config.now.config u) →
        IsFreeTable list.now.shape list.now.list u) }
{
    'tables: for t in 0..list.shape().tables() {
        if table_in_doubt(list, config, Table(t)) {
            return Some(Table(t));
        }
    }
    None
}

/// What a list of defects says of an image: that it touches nothing listed, or its first part that isn't free.
pub fn answer_of(alloc: Global, image: &Image, list: &Defects) -> Result<Answer, AllocError>
    requires { list.now.shape ≡ image.now.config.shape }
    ensures machine { IfOk result (IsOfMachine list.now.shape) }
    ensures answer { IfOk result (IsAnswer list.now image.now) }
{
    free_images_run_soundly();
    tight_lists_are_fair();
    let used = used_wires(alloc, image)?;
    let config = image.config();
    // Says that what is set is of the machine.
    config.shape();
    if let Some(wire) = first_wire(list, &used) {
        return Ok(Answer::Wire(wire));
    }
    if let Some(cross) = first_cross(list, config) {
        return Ok(Answer::Cross(cross));
    }
    if let Some(table) = first_table(list, config) {
        return Ok(Answer::Table(table));
    }
    Ok(Answer::Sound)
}
