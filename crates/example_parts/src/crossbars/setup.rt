//! What is set before a machine is asked: routes, closed crosspoints, a table and driven pins.
ghost use Rattle.std.specs.Prelude.{◌≡◌, ◌<◌, All, IfSome, IsTrue, length};
ghost use Rattle.machine_shape.specs.Shape.{crosses_of, pins_of};
ghost use Rattle.diag_tests.specs.Routes.{IsRoute};
ghost use Rattle.example_parts.specs.Laid.{IsLaid};

use diag_tests::{Route, cell_config, loop_config, route_at};
use example_kit::numbers_of;
use machine_config::{Config, Setting};
use machine_shape::{Cross, Pin, Shape, Table};
use rig::PinBits;
use std::alloc::{AllocError, Global};

/// Two routes, each by its pin and its crosspoints.
#[derive(Drop)]
pub struct Routes {
    pub left: Vec<u32>,
    pub right: Vec<u32>,
}

/// What is set.
#[derive(Drop)]
pub struct Setup {
    pub routes: Routes,
    /// The crosspoints that are closed besides.
    pub closed: Vec<u32>,
    /// The pins that are driven 0.
    pub low: Vec<u32>,
    /// The one table that is on.
    pub table: Option<(u32, Setting)>,
}

/// Two routes, a configuration that closes both, and how the pins are driven.
#[derive(Drop)]
pub struct Laid {
    pub left: Route,
    pub right: Route,
    pub config: Config,
    pub drive: PinBits,
}

// The table that words say is on.
fn table_of(words: &[String], latched: bool) -> Option<(u32, Setting)> {
    let [table, cells] = words else {
        return None;
    };
    let table = table.as_str().parse::<u32>().ok()?;
    let cells = cells.as_str().parse::<u64>().ok()?;
    let init = true;
    Some((
        table,
        Setting {
            cells,
            latched,
            init,
        },
    ))
}

impl Setup {
    /// Nothing is set.
    pub fn new(alloc: Global) -> Setup {
        Setup {
            routes: Routes {
                left: Vec::new(alloc),
                right: Vec::new(alloc),
            },
            closed: Vec::new(alloc),
            low: Vec::new(alloc),
            table: None,
        }
    }

    /// Sets the table that words say is on; false where they say none.
    pub fn set_table(&mut self, words: &[String], latched: bool) -> bool {
        self.table = table_of(words, latched);
        self.table.is_some()
    }

    /// Sets numbers that words say; false where they say none.
    pub fn set(&mut self, alloc: Global, key: &str, words: &[String]) -> Result<bool, AllocError> {
        let Some(numbers) = numbers_of(alloc, words)? else {
            return Ok(false);
        };
        match key {
            "left" => self.routes.left = numbers,
            "right" => self.routes.right = numbers,
            "closed" => self.closed = numbers,
            "low" => self.low = numbers,
            _ => return Ok(false),
        }
        Ok(true)
    }
}

// Goes on over a crosspoint; false where that isn't at the route's end.
fn go_on(shape: &Shape, route: &mut Route, c: Cross) -> bool
    requires { IsRoute shape.now route.old }
    ensures { IsTrue result → IsRoute shape.now route.new }
{
    if c.0 >= shape.crosses() {
        return false;
    }
    let (tap, line) = shape.ends(c);
    if tap == route.end() {
        return match route.push(shape, c) {
            Ok(()) => true,
            Err(_) => false,
        };
    }
    if line == route.end() {
        return match route.push(shape, c) {
            Ok(()) => true,
            Err(_) => false,
        };
    }
    false
}

// The route of a pin and crosspoints, where they are one.
fn route_over(alloc: Global, shape: &Shape, pin: u32, crosses: &[u32]) -> Option<Route>
    ensures { IfSome result (IsRoute shape.now) }
{
    if pin >= shape.pins() {
        return None;
    }
    let mut route = route_at(alloc, shape, pin).ok()?;
    'crosses: for x in crosses {
        if !go_on(shape, &mut route, Cross(*x)) {
            return None;
        }
    }
    Some(route)
}

/// The route of these numbers, where they are one and memory isn't lacking.
pub fn route_of(alloc: Global, shape: &Shape, numbers: &[u32]) -> Option<Route>
    ensures { IfSome result (IsRoute shape.now) }
{
    match numbers {
        [pin, crosses @ ..] => route_over(alloc, shape, *pin, crosses),
        [] => None,
    }
}

// The crosspoints of these numbers, where each is one.
fn crosses_of(alloc: Global, shape: &Shape, numbers: &[u32]) -> Option<Vec<Cross>>
    ensures { IfSome result (λ cs. All (λ c. c.0 < crosses_of shape.now) cs.items) }
{
    let mut crosses = Vec::new(alloc);
    'numbers: for x in numbers {
        if *x >= shape.crosses() {
            return None;
        }
        match crosses.push(Cross(*x)) {
            Ok(()) => {}
            Err(_) => return None,
        }
    }
    Some(crosses)
}

// The configuration that closes two routes and the ties, with the table on that is set.
fn config_of(
    alloc: Global,
    shape: &Shape,
    left: &Route,
    right: &Route,
    ties: &[Cross],
    table: Option<(u32, Setting)>,
) -> Option<Config>
    requires left { IsRoute shape.now left.now }
    requires right { IsRoute shape.now right.now }
    requires ties { All (λ c. c.0 < crosses_of shape.now) ties.now }
    ensures { IfSome result (λ g. IsLaid shape.now left.now right.now g.config) }
{
    let Some((t, setting)) = table else {
        let config = loop_config(alloc, shape, left, right, ties).ok()?;
        return Some(config);
    };
    if t >= shape.tables() {
        return None;
    }
    let mut config = cell_config(alloc, shape, left, right, ties, Table(t), setting.cells).ok()?;
    config.switch_on(Table(t), setting);
    Some(config)
}

// The same with the ties that are set.
fn tied_config(
    alloc: Global,
    shape: &Shape,
    setup: &Setup,
    left: &Route,
    right: &Route,
) -> Option<Config>
    requires left { IsRoute shape.now left.now }
    requires right { IsRoute shape.now right.now }
    ensures { IfSome result (λ g. IsLaid shape.now left.now right.now g.config) }
{
    let ties = crosses_of(alloc, shape, &setup.closed)?;
    config_of(alloc, shape, left, right, &ties, setup.table)
}

// Drives these pins 0, where each is one.
fn drive_of(alloc: Global, shape: &Shape, low: &[u32]) -> Option<PinBits>
    ensures { IfSome result (λ drive. length drive ≡ pins_of shape.now) }
{
    let mut drive = PinBits::new(alloc, shape.pins()).ok()?;
    'pins: for pin in low {
        if *pin >= shape.pins() {
            return None;
        }
        drive.set(Pin(*pin), false);
    }
    Some(drive)
}

// What is set, with these routes and this drive.
fn laid_over(
    alloc: Global,
    shape: &Shape,
    setup: &Setup,
    left: Route,
    right: Route,
    drive: PinBits,
) -> Option<Laid>
    requires left { IsRoute shape.now left }
    requires right { IsRoute shape.now right }
    requires drive { length drive ≡ pins_of shape.now }
    ensures laid { IfSome result (λ laid. IsLaid shape.now laid.left laid.right laid.config.config) }
    ensures drive { IfSome result (λ laid. length laid.drive ≡ pins_of shape.now) }
{
    match tied_config(alloc, shape, setup, &left, &right) {
        Some(config) => Some(Laid {
            left,
            right,
            config,
            drive,
        }),
        None => None,
    }
}

// What is set, with this drive and this left route.
fn laid_right(
    alloc: Global,
    shape: &Shape,
    setup: &Setup,
    left: Route,
    drive: PinBits,
) -> Option<Laid>
    requires left { IsRoute shape.now left }
    requires drive { length drive ≡ pins_of shape.now }
    ensures laid { IfSome result (λ laid. IsLaid shape.now laid.left laid.right laid.config.config) }
    ensures drive { IfSome result (λ laid. length laid.drive ≡ pins_of shape.now) }
{
    match route_of(alloc, shape, &setup.routes.right) {
        Some(right) => laid_over(alloc, shape, setup, left, right, drive),
        None => None,
    }
}

// What is set, with this drive.
fn laid_left(alloc: Global, shape: &Shape, setup: &Setup, drive: PinBits) -> Option<Laid>
    requires drive { length drive ≡ pins_of shape.now }
    ensures laid { IfSome result (λ laid. IsLaid shape.now laid.left laid.right laid.config.config) }
    ensures drive { IfSome result (λ laid. length laid.drive ≡ pins_of shape.now) }
{
    match route_of(alloc, shape, &setup.routes.left) {
        Some(left) => laid_right(alloc, shape, setup, left, drive),
        None => None,
    }
}

/// What is set, where it is of the machine and memory isn't lacking.
pub fn laid_of(alloc: Global, shape: &Shape, setup: &Setup) -> Option<Laid>
    ensures laid { IfSome result (λ laid. IsLaid shape.now laid.left laid.right laid.config.config) }
    ensures drive { IfSome result (λ laid. length laid.drive ≡ pins_of shape.now) }
{
    let drive = drive_of(alloc, shape, &setup.low)?;
    laid_left(alloc, shape, setup, drive)
}
