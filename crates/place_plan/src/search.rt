//! A line for each net that asks for one, by augmenting paths, or a set of nets that shows that lines are short.
ghost use Rattle.std.specs.Prelude.{◌≡◌, ℕ, ◌+◌, ◌<◌, true, List, [], ◌∷◌, ◌++◌, OnOk, IfOk, IfSome, IfNone, MatchOption, All, Contains};
ghost use Rattle.std.specs.Prelude.{Option, length};
ghost use Rattle.machine_shape.specs.Shape.{wires_of};
ghost use Rattle.place_plan.specs.Choices.{AreWires, IsSite, is_shut, serves_all, serves_by};
ghost use Rattle.place_plan.specs.Search.{AreScanned, AreSeen, AskWithin, CanShift, GoesOn, IsDeadEnd, IsFree, IsPartial, IsShifted, IsStuck};
ghost use Rattle.place_plan.specs.Search.{IsTrail, OwnWithin, line_at, step_at};

use crate::short::Net;
use base_lists::Items;
use machine_defects::Defects;
use machine_shape::Wire;
use std::alloc::{AllocError, Global};

/// A net that asks for a line at a node, and its taps there.
#[derive(Debug, Drop)]
pub struct Ask {
    pub net: Net,
    pub taps: Items<u32>,
}

/// Those who ask for a line at a node, and the lines that they may get.
#[derive(Clone, Copy)]
pub struct Site<'a> {
    pub defects: &'a Defects,
    pub asks: &'a [Ask],
    pub lines: &'a [u32],
}

/// The line that one who asks gets.
#[derive(Clone, Copy, Debug)]
pub struct Hold {
    pub ask: usize,
    pub line: u32,
}

/// A line for each who asks, or a set of them that fewer lines serve than it has members.
#[derive(Debug, Drop)]
pub enum Assigned {
    Given(Vec<Hold>),
    Lacking {
        set: Vec<usize>,
        need: u64,
        have: u64,
    },
}

/// One who is reached, the place of its line, and the place of the step that reached this line.
#[derive(Clone, Copy, Debug)]
pub struct Step {
    pub ask: usize,
    pub line: usize,
    pub from: usize,
}

/// What a search came to: its steps, and from which of them it came to which free line.
#[derive(Debug, Drop)]
pub struct Found {
    pub steps: Vec<Step>,
    pub from: usize,
    pub line: Option<usize>,
}

// Whether the crosspoint of a tap and a line is there and not free.
fn is_shut(defects: &Defects, tap: u32, line: u32) -> bool
    requires tap { tap < wires_of defects.now.shape }
    requires line { line < wires_of defects.now.shape }
    ensures { result ≡ is_shut defects.now tap line }
{
    machine_shape::the_crosspoints_are_sound();
    match defects.shape().cross(Wire(tap), Wire(line)) {
        Some(cross) => !defects.free_cross(cross),
        None => false,
    }
}

/// Whether the crosspoints of a line with these taps are free.
pub fn serves(defects: &Defects, taps: &[u32], line: u32) -> bool
    requires taps { AreWires defects.now.shape taps.now }
    requires line { line < wires_of defects.now.shape }
    ensures { result ≡ serves_all defects.now taps.now line }
{
    for tap in taps {
        if is_shut(defects, *tap, line) {
            return false;
        }
    }
    true
}

/// Whether a line serves one who asks.
pub fn serves_ask(defects: &Defects, asks: &[Ask], ask: usize, line: u32) -> bool
    requires taps { All (λ a. AreWires defects.now.shape a.taps) asks.now }
    requires ask { ask < length asks.now }
    requires line { line < wires_of defects.now.shape }
    ensures { result ≡ serves_by defects.now asks.now ask line }
{
    serves(defects, asks[ask].taps.as_slice(), line)
}

/// Whether the line at a place serves one who asks.
pub fn serves_at(site: &Site<'_>, ask: usize, j: usize) -> bool
    requires site { IsSite site.now.defects.now.shape site.now.asks.now site.now.lines.now }
    requires ask { ask < length site.now.asks.now }
    requires line { j < length site.now.lines.now }
    ensures { result ≡ serves_by site.now.defects.now site.now.asks.now ask (line_at site.now.lines.now j) }
{
    serves_ask(site.defects, site.asks, ask, site.lines[j])
}

// Goes on to those whose lines serve the one of step h, up to a line that nobody has.
fn scan(
    site: &Site<'_>,
    owners: &[Option<usize>],
    steps: &mut Vec<Step>,
    seen: &mut [bool],
    h: usize,
) -> Result<Option<usize>, AllocError>
    requires site { IsSite site.now.defects.now.shape site.now.asks.now site.now.lines.now }
    requires sized { length owners.now ≡ length site.now.lines.now }
    requires trail { IsTrail (serves_by site.now.defects.now site.now.asks.now) site.now.lines.now owners.now steps.old.items }
    requires marks { AreSeen site.now.lines.now steps.old.items seen.old }
    requires scanned { AreScanned (serves_by site.now.defects.now site.now.asks.now) site.now.lines.now steps.old.items seen.old h }
    requires step { h < length steps.old.items }
    requires asks { AskWithin (length site.now.asks.now) steps.old.items }
    requires own { OwnWithin (length site.now.asks.now) owners.now }
    ensures asks { OnOk result (AskWithin (length site.now.asks.now) steps.new.items) }
    ensures trail { OnOk result (IsTrail (serves_by site.now.defects.now site.now.asks.now) site.now.lines.now owners.now steps.new.items) }
    ensures marks { OnOk result (AreSeen site.now.lines.now steps.new.items seen.new) }
    ensures on { OnOk result (GoesOn steps.old.items steps.new.items) }
    ensures found { IfOk result (λ r. MatchOption r
        (AreScanned (serves_by site.now.defects.now site.now.asks.now) site.now.lines.now steps.new.items seen.new (h + 1))
        (λ j. IsFree (serves_by site.now.defects.now site.now.asks.now) site.now.lines.now owners.now steps.new.items h j)) }
{
    let ask = steps[h].ask;
    for j in 0..site.lines.len() {
        if !seen[j] && serves_at(site, ask, j) {
            match owners[j] {
                None => return Ok(Some(j)),
                Some(owner) => {
                    seen[j] = true;
                    steps.push(Step {
                        ask: owner,
                        line: j,
                        from: h,
                    })?;
                }
            }
        }
    }
    Ok(None)
}

// Gives the free line to the one of step h, whose own line goes to the one before, and so on back to the first.
fn shift(owners: &mut [Option<usize>], steps: &[Step], from: usize, line: usize)
    requires { CanShift owners.old steps.now from line }
    ensures { IsShifted steps.now from line owners.old owners.new }
{
    let mut free = line;
    let mut h = from;
    while h > 0 {
        let step = steps[h];
        owners[free] = Some(step.ask);
        owners[step.line] = None;
        free = step.line;
        h = step.from;
    }
    owners[free] = Some(steps[0].ask);
}

// Looks for a line that nobody has, from one without a line.
fn search(
    alloc: Global,
    site: &Site<'_>,
    owners: &[Option<usize>],
    ask: usize,
) -> Result<Found, AllocError>
    requires site { IsSite site.now.defects.now.shape site.now.asks.now site.now.lines.now }
    requires sized { length owners.now ≡ length site.now.lines.now }
    requires ask { ask < length site.now.asks.now }
    requires own { OwnWithin (length site.now.asks.now) owners.now }
    ensures trail { IfOk result (λ f. IsTrail (serves_by site.now.defects.now site.now.asks.now) site.now.lines.now owners.now f.steps.items) }
    ensures first { IfOk result (λ f. (step_at f.steps.items 0).ask ≡ ask) }
    ensures found { IfOk result (λ f. MatchOption f.line (IsStuck (serves_by site.now.defects.now site.now.asks.now) site.now.lines.now f.steps.items)
        (λ j. IsFree (serves_by site.now.defects.now site.now.asks.now) site.now.lines.now owners.now f.steps.items f.from j)) }
{
    let mut seen = vec![in alloc; false; site.lines.len()]?;
    let mut steps = Vec::new(alloc);
    steps.push(Step {
        ask,
        line: 0,
        from: 0,
    })?;
    let mut h = 0;
    while h < steps.len() {
        let line = scan(site, owners, &mut steps, &mut seen, h)?;
        if line.is_some() {
            return Ok(Found {
                steps,
                from: h,
                line,
            });
        }
        h += 1;
    }
    Ok(Found {
        steps,
        from: h,
        line: None,
    })
}

/// Gives one who asks a line, the one at the place of the ask if that is free and serves; else the steps that show
/// that there is none.
pub fn give(
    alloc: Global,
    defects: &Defects,
    asks: &[Ask],
    lines: &[u32],
    owners: &mut [Option<usize>],
    ask: usize,
) -> Result<Option<Vec<Step>>, AllocError>
    requires site { IsSite defects.now.shape asks.now lines.now }
    requires sized { length owners.old ≡ length lines.now }
    requires ask { ask < length asks.now }
    requires own { OwnWithin (length asks.now) owners.old }
    ensures sized { length owners.new ≡ length owners.old }
    ensures given { IfOk result (λ r. IfNone r ((done : List ℕ) → IsPartial (serves_by defects.now asks.now) lines.now done owners.old →
        ¬ Contains done ask →
        IsPartial (serves_by defects.now asks.now) lines.now (done ++ ask ∷ []) owners.new)) }
    ensures none { IfOk result (λ r. IfSome r (λ steps. IsDeadEnd (serves_by defects.now asks.now) lines.now owners.old ask steps.items)) }
{
    let site = Site {
        defects,
        asks,
        lines,
    };
    if ask < lines.len() && owners[ask].is_none() && serves_at(&site, ask, ask) {
        owners[ask] = Some(ask);
        return Ok(None);
    }
    let found = search(alloc, &site, owners, ask)?;
    match found.line {
        None => Ok(Some(found.steps)),
        Some(line) => {
            shift(owners, &found.steps, found.from, line);
            Ok(None)
        }
    }
}
