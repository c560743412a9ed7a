//! What is to be seen of routes and configurations that are set.
ghost use Rattle.std.specs.Prelude.{IfSome};
ghost use Rattle.diag_tests.specs.Routes.{IsRoute};

use crate::crossbars::setup::{Laid, Setup, laid_of, route_of};
use crate::crossbars::words::{text_of, word, yes_or_no};
use diag_tests::{Route, extend_route};
use machine_shape::{Cross, Shape, Wire};
use std::alloc::{AllocError, Global};

// The route that goes on over a crosspoint. None where that isn't at its end, or memory is lacking.
fn longer(alloc: Global, shape: &Shape, route: &Route, c: Cross) -> Option<Route>
    requires { IsRoute shape.now route.now }
    ensures { IfSome result (IsRoute shape.now) }
{
    if c.0 >= shape.crosses() {
        return None;
    }
    let (tap, line) = shape.ends(c);
    if tap == route.end() {
        let route = extend_route(alloc, shape, route, c).ok()?;
        return Some(route);
    }
    if line == route.end() {
        let route = extend_route(alloc, shape, route, c).ok()?;
        return Some(route);
    }
    None
}

// How many crosspoints a route has, and its end.
fn length_and_end(alloc: Global, route: &Route) -> Result<Option<String>, AllocError> {
    text_of(alloc, &[route.len() as u64, u64::from(route.end().0)])
}

// What is to be seen of a route that goes on over a crosspoint.
fn extended(
    alloc: Global,
    shape: &Shape,
    route: &Route,
    c: u32,
) -> Result<Option<String>, AllocError>
    requires { IsRoute shape.now route.now }
{
    match longer(alloc, shape, route, Cross(c)) {
        Some(route) => length_and_end(alloc, &route),
        None => word(alloc, "none"),
    }
}

// Whether the right route meets this one.
fn meets_right(
    alloc: Global,
    shape: &Shape,
    setup: &Setup,
    left: &Route,
) -> Result<Option<String>, AllocError> {
    match route_of(alloc, shape, &setup.routes.right) {
        Some(right) => yes_or_no(alloc, Some(left.meets(&right))),
        None => Ok(None),
    }
}

// What is to be seen of the left route.
fn seen_of_left(
    alloc: Global,
    shape: &Shape,
    setup: &Setup,
    left: &Route,
    key: &str,
    numbers: &[u32],
) -> Result<Option<String>, AllocError>
    requires { IsRoute shape.now left.now }
{
    match (key, numbers) {
        ("leads", []) => length_and_end(alloc, left),
        ("touches", [wire]) => yes_or_no(alloc, Some(left.touches(Wire(*wire)))),
        ("extended", [c]) => extended(alloc, shape, left, *c),
        ("meets", []) => meets_right(alloc, shape, setup, left),
        _ => Ok(None),
    }
}

// How many crosspoints are closed, how many tables are on, and how many ticks a cycle has.
fn closed(alloc: Global, laid: &Laid) -> Result<Option<String>, AllocError> {
    let closed = laid.config.closed().len() as u64;
    let on = laid.config.tables_on().len() as u64;
    text_of(alloc, &[closed, on, u64::from(laid.config.ticks())])
}

/// What is to be seen of what is set.
pub fn seen(
    alloc: Global,
    shape: &Shape,
    setup: &Setup,
    key: &str,
    numbers: &[u32],
) -> Result<Option<String>, AllocError> {
    if key == "closes" {
        return match laid_of(alloc, shape, setup) {
            Some(laid) => closed(alloc, &laid),
            None => Ok(None),
        };
    }
    match route_of(alloc, shape, &setup.routes.left) {
        Some(left) => seen_of_left(alloc, shape, setup, &left, key, numbers),
        None => Ok(None),
    }
}
