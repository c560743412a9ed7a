//! A machine that is made, diagnosed and looked at.
ghost use Rattle.std.specs.Prelude.{◌≡◌, Some};
ghost use Rattle.rig.specs.Rig.{shape_of};

use crate::calls::{Way, try_calls};
use crate::counts::{Size, draw_counts};
use crate::faults::{Kind, draw_faults};
use crate::looks::{covers, is_tight};
use crate::sight::{Sight, free_by_list, sight_of};
use base_io::{File, MemoryStore};
use base_random::Draws;
use diag_machine::diagnose;
use machine_defects::Defects;
use machine_faults::{FaultSet, faults_text};
use machine_shape::Shape;
use rig::Rig;
use rig_simulated::SimRig;
use std::alloc::Global;

/// Machines of one size with faults of some kinds, fewer than so many for a hundred crosspoints.
#[derive(Clone, Copy)]
pub struct Group {
    pub name: &'static str,
    pub size: Size,
    pub kinds: [Kind; 8],
    pub most: u32,
}

// A rig whose machine `m` has the faults. None where memory was wanting.
fn rig_with(alloc: Global, faults: &FaultSet) -> Option<SimRig<MemoryStore>> {
    let bytes = faults_text(alloc, faults).ok()?;
    let name = String::from_str(alloc, "m").ok()?;
    let files = vec![in alloc; File { name, bytes }].ok()?;
    let store = MemoryStore::new(alloc, files, Vec::new(alloc));
    Some(SimRig::new(alloc, store))
}

// The most loads that a diagnosis may take: so many for each crosspoint and wire, and 130 for each table.
fn most_loads(shape: &Shape, cross: u64, wire: u64) -> u64 {
    let crosses = u64::from(shape.crosses()).saturating_mul(cross);
    let wires = u64::from(shape.wires()).saturating_mul(wire);
    let tables = u64::from(shape.tables()).saturating_mul(130);
    crosses.saturating_add(wires).saturating_add(tables)
}

// Whether loads are within the bound.
fn are_few(faults: &FaultSet, loads: u64) -> bool {
    let (cross, wire) = if faults.count() == 0 {
        (2, 3)
    } else {
        (16, 20)
    };
    loads <= most_loads(&faults.shape(), cross, wire)
}

// Looks at what a list leaves free, and at the loads that it took.
fn look_at_sight(
    alloc: Global,
    faults: &FaultSet,
    sight: &Sight,
    loads: u64,
) -> Result<(), &'static str> {
    if !covers(sight) {
        return Err("something wrong is free");
    }
    match is_tight(alloc, sight) {
        Ok(true) if are_few(faults, loads) => Ok(()),
        Ok(true) => Err("a diagnosis has too many loads"),
        Ok(false) => Err("something is listed that could be free"),
        Err(_) => Err("no memory"),
    }
}

// Looks at a list, and at the loads that it took.
fn look_at(
    alloc: Global,
    faults: &FaultSet,
    list: &Defects,
    loads: u64,
) -> Result<(), &'static str> {
    let Ok(free) = free_by_list(alloc, list) else {
        return Err("no memory");
    };
    match sight_of(alloc, faults, &free) {
        Ok(sight) => look_at_sight(alloc, faults, &sight, loads),
        Err(_) => Err("no memory"),
    }
}

// Diagnoses the machine that is attached as a whole, and looks at the list that comes.
fn try_whole(alloc: Global, rig: &mut Box<dyn Rig>, faults: &FaultSet) -> Result<(), &'static str>
    requires attached { shape_of (rig_state rig.old) ≡ Some faults.now.shape }
    ensures attached { shape_of (rig_state rig.new) ≡ Some faults.now.shape }
{
    match diagnose(alloc, rig, &faults.shape()) {
        Ok(list) => look_at(alloc, faults, &list, rig.loads()),
        Err(_) => Err("no list"),
    }
}

// The same, and then call by call.
fn try_both(
    alloc: Global,
    rig: &mut Box<dyn Rig>,
    draws: &mut Draws,
    faults: &FaultSet,
) -> Result<(), &'static str>
    requires attached { shape_of (rig_state rig.old) ≡ Some faults.now.shape }
{
    try_whole(alloc, rig, faults)?;
    try_calls(alloc, rig, draws, faults, Way::All)
}

// Tries the machine that is attached.
fn try_attached(
    alloc: Global,
    rig: &mut Box<dyn Rig>,
    draws: &mut Draws,
    faults: &FaultSet,
    way: Way,
) -> Result<(), &'static str>
    requires attached { shape_of (rig_state rig.old) ≡ Some faults.now.shape }
{
    match way {
        Way::Sweep => try_calls(alloc, rig, draws, faults, way),
        Way::All => try_both(alloc, rig, draws, faults),
    }
}

// Attaches the machine, and tries it.
fn try_on(
    alloc: Global,
    rig: &mut Box<dyn Rig>,
    draws: &mut Draws,
    faults: &FaultSet,
    way: Way,
) -> Result<(), &'static str> {
    if rig.attach(&faults.shape(), "m").is_err() {
        return Err("no machine");
    }
    try_attached(alloc, rig, draws, faults, way)
}

/// Makes a machine with these faults, and tries it.
///
/// # Errors
///
/// What is wrong with its list, its facts or its marks.
pub fn try_machine(
    alloc: Global,
    draws: &mut Draws,
    faults: &FaultSet,
    way: Way,
) -> Result<(), &'static str> {
    let store = rig_with(alloc, faults).ok_or("no rig")?;
    let mut rig: Box<dyn Rig> = Box::new(alloc, store).ok().ok_or("no rig")?;
    try_on(alloc, &mut rig, draws, faults, way)
}

/// Makes the machine of a number in a group, and tries it.
///
/// # Errors
///
/// What is wrong with its list, its facts or its marks.
pub fn try_number(alloc: Global, group: &Group, number: u32) -> Result<(), &'static str> {
    let mut draws = Draws::new(u64::from(number));
    let Ok(shape) = Shape::new(draw_counts(&mut draws, group.size)) else {
        return Err("no shape");
    };
    match draw_faults(alloc, &mut draws, &shape, &group.kinds, group.most) {
        Ok(faults) => try_machine(alloc, &mut draws, &faults, Way::All),
        Err(_) => Err("no faults"),
    }
}
