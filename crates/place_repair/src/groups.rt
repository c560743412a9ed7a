//! Wires in groups: those that closed crosspoints join have one root, the lowest of them.
ghost use Rattle.std.specs.Prelude.{◌≡◌, ◌<◌, ◌+◌, ◌++◌, ◌∷◌, [], IfOk, length};
ghost use Rattle.std.specs.List.{range_with_len};
ghost use Rattle.machine_shape.specs.Shape.{wires_of, crosses_of, ends_of};
ghost use Rattle.place_repair.specs.Groups.{AreLow, AreLowest, AreRootsOf, AreRootsTo, IsForest, IsFound, IsUnited, parent_at};

use machine_config::Config;
use machine_shape::{Cross, Shape};
use std::alloc::{AllocError, Global};

// The root of a wire. Parents on the way are brought nearer to it.
fn root_of(parents: &mut [u32], wire: u32) -> u32
    requires within { wire < length parents.old }
    requires low { AreLow parents.old }
    ensures found { IsFound parents.old parents.new wire result }
    ensures top { parent_at parents.new result ≡ result }
{
    let mut at = wire;
    let mut up = parents[at as usize];
    'up: while up != at {
        let next = parents[up as usize];
        parents[at as usize] = next;
        at = next;
        up = parents[at as usize];
    }
    at
}

// Puts the higher of two roots below the lower.
fn unite(parents: &mut [u32], a: u32, b: u32)
    requires a { a < length parents.old }
    requires b { b < length parents.old }
    requires low { AreLow parents.old }
    ensures { IsUnited parents.old parents.new a b }
{
    let one = root_of(parents, a);
    let two = root_of(parents, b);
    if one < two {
        parents[two as usize] = one;
    } else {
        parents[one as usize] = two;
    }
}

// Unites the two wires of a crosspoint.
fn join(parents: &mut [u32], shape: Shape, cross: Cross)
    requires sized { length parents.old ≡ wires_of shape }
    requires within { cross.0 < crosses_of shape }
    requires low { AreLow parents.old }
    ensures { IsUnited parents.old parents.new (ends_of shape cross.0).0 (ends_of shape cross.0).1 }
{
    let (tap, line) = shape.ends(cross);
    unite(parents, tap.0, line.0);
}

/// So many numbers, each at its own place.
pub fn own_places(alloc: Global, count: u32) -> Result<Vec<u32>, AllocError>
    ensures { IfOk result (λ parents. parents.items ≡ range_with_len 0 count) }
{
    let mut parents = Vec::new(alloc);
    for wire in 0..count {
        parents.push(wire)?;
    }
    Ok(parents)
}

// Unites the wires of all closed crosspoints.
fn join_all(parents: &mut [u32], config: &Config)
    requires { parents.old ≡ range_with_len 0 (wires_of config.now.config.shape) }
    ensures { IsForest config.now.config parents.new }
{
    let shape = config.shape();
    let closed = config.closed();
    for k in 0..closed.len() {
        join(parents, shape, closed[k]);
    }
}

// The root of the next wire, by the roots of those before it.
fn next_root(parents: &[u32], roots: &[u32], wire: usize) -> u32
    requires within { wire < length parents.now }
    requires low { AreLow parents.now }
    requires before { AreRootsTo wire parents.now roots.now }
    ensures { AreRootsTo (wire + 1) parents.now (roots.now ++ result ∷ []) }
{
    let up = parents[wire] as usize;
    if up == wire {
        return parents[wire];
    }
    roots[up]
}

// The roots of all wires, where no parent is above its wire.
fn roots(alloc: Global, parents: &[u32]) -> Result<Vec<u32>, AllocError>
    requires { AreLow parents.now }
    ensures { IfOk result (λ roots. AreRootsOf parents.now roots.items) }
{
    let mut roots = Vec::new(alloc);
    for wire in 0..parents.len() {
        roots.push(next_root(parents, &roots, wire))?;
    }
    Ok(roots)
}

/// For each wire the lowest of those that closed crosspoints join it to, itself among them.
pub fn lowest_of(alloc: Global, config: &Config) -> Result<Vec<u32>, AllocError>
    ensures { IfOk result (λ lowest. AreLowest config.now.config lowest.items) }
{
    machine_shape::the_numbering_is_sound();
    let mut parents = own_places(alloc, config.shape().wires())?;
    join_all(&mut parents, config);
    roots(alloc, &parents)
}
