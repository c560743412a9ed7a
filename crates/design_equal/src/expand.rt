//! The label of a wide cover's output, multiplied out down to the labels of its inputs.
//!
//! A product of literals of the graph is rewritten literal by literal: an AND by what it reads, the opposite of one by two
//! products, a label of an input stays. So there is no recursion, and only products that are asked for are made.

ghost use Rattle.std.specs.Prelude.{◌≡◌, ◌&&◌, ◌||◌, ℕ, Bool, IfOk, IsTrue, OnOk, false, not, if◌then◌else◌};
ghost use Rattle.std.specs.Option.{ForSome};
ghost use Rattle.design_equal.specs.Graphs.{IsValued, literal_in};
ghost use Rattle.design_equal.specs.Products.{gate_in, holds, some_holds, work_holds};

use crate::graph::{And, Graph};
use crate::nodes::gate_at;
use crate::plan::Scratch;
use crate::products::{Product, add_product, flipped, product_of};
use std::alloc::{AllocError, Global};

/// A product: literals that stay, and those that are still to be looked at.
#[derive(Debug, Drop)]
pub struct Pending {
    pub done: Vec<u32>,
    pub todo: Vec<u32>,
}

/// A sum of products that are done, and of those that are not.
#[derive(Debug, Drop)]
pub struct Work {
    pub sum: Vec<Product>,
    pub waiting: Vec<Pending>,
}

/// Lets a product wait.
fn put_off(work: &mut Work, done: Vec<u32>, todo: Vec<u32>) -> Result<(), AllocError>
    ensures { OnOk result ((bits : ℕ → Bool) → work_holds bits work.new
        ≡ (work_holds bits work.old || (holds bits done.items && holds bits todo.items))) }
{
    work.waiting.push(Pending { done, todo })?;
    Ok(())
}

/// Adds a product that is done.
fn finish(alloc: Global, work: &mut Work, done: Vec<u32>) -> Result<(), AllocError>
    ensures { OnOk result ((bits : ℕ → Bool) → bits 0 ≡ false
        → work_holds bits work.new ≡ (work_holds bits work.old || holds bits done.items)) }
{
    let found = product_of(alloc, done)?;
    add_product(&mut work.sum, found)?;
    Ok(())
}

/// The list with a literal more.
fn with_literal(list: Vec<u32>, literal: u32) -> Result<Vec<u32>, AllocError>
    ensures { IfOk result (λ more. (bits : ℕ → Bool) → holds bits more.items ≡ (holds bits list.items && literal_in bits literal)) }
{
    let mut more = list;
    more.push(literal)?;
    Ok(more)
}

fn copy_list(alloc: Global, list: &[u32]) -> Result<Vec<u32>, AllocError>
    ensures { IfOk result (λ copy. copy.items ≡ list.now) }
{
    Vec::from_slice(alloc, list)
}

/// Lets a product wait twice, with one literal and with another.
fn fork(
    alloc: Global,
    work: &mut Work,
    pending: Pending,
    first: u32,
    second: u32,
) -> Result<(), AllocError>
    ensures { OnOk result ((bits : ℕ → Bool) → work_holds bits work.new ≡ (work_holds bits work.old
        || (holds bits pending.done.items && (holds bits pending.todo.items && (literal_in bits first || literal_in bits second))))) }
{
    let done = copy_list(alloc, pending.done.as_slice())?;
    let todo = copy_list(alloc, pending.todo.as_slice())?;
    let one = with_literal(todo, first)?;
    let other = with_literal(pending.todo, second)?;
    put_off(work, done, one)?;
    put_off(work, pending.done, other)
}

/// Puts what an AND reads, or the opposite of one, in place of the literal.
fn open_gate(
    alloc: Global,
    work: &mut Work,
    pending: Pending,
    gate: And,
    negated: bool,
) -> Result<(), AllocError>
    ensures { OnOk result ((bits : ℕ → Bool) → work_holds bits work.new ≡ (work_holds bits work.old
        || (holds bits pending.done.items && (holds bits pending.todo.items
        && gate_in bits gate negated)))) }
{
    if negated {
        let left = flipped(gate.left);
        let right = flipped(gate.right);
        fork(alloc, work, pending, left, right)?;
        return Ok(());
    }
    let todo = with_literal(pending.todo, gate.left)?;
    let todo = with_literal(todo, gate.right)?;
    put_off(work, pending.done, todo)
}

/// Puts what a literal stands for in its place, or lets it stay where it is a label of an input. False where it is neither.
fn open(
    alloc: Global,
    graph: &Graph,
    leaves: &Scratch,
    work: &mut Work,
    pending: Pending,
    literal: u32,
) -> Result<bool, AllocError>
    ensures { IfOk result (λ on. IsTrue on → (bits : ℕ → Bool) → IsValued graph.now bits
        → work_holds bits work.new ≡ (work_holds bits work.old
        || (holds bits pending.done.items && (holds bits pending.todo.items && literal_in bits literal)))) }
{
    if leaves.has(literal / 2) {
        let done = with_literal(pending.done, literal)?;
        put_off(work, done, pending.todo)?;
        return Ok(true);
    }
    let Some(gate) = gate_at(graph, literal / 2) else {
        return Ok(false);
    };
    open_gate(alloc, work, pending, gate, literal % 2 == 1)?;
    Ok(true)
}

/// Takes one step. False where there is none.
fn advance(
    alloc: Global,
    graph: &Graph,
    leaves: &Scratch,
    work: &mut Work,
) -> Result<bool, AllocError>
    ensures { IfOk result (λ on. IsTrue on → (bits : ℕ → Bool) → IsValued graph.now bits
        → work_holds bits work.new ≡ work_holds bits work.old) }
{
    let Some(pending) = work.waiting.pop() else {
        return Ok(false);
    };
    let done = pending.done;
    let mut todo = pending.todo;
    match todo.pop() {
        None => {
            finish(alloc, work, done)?;
            Ok(true)
        }
        Some(literal) => open(alloc, graph, leaves, work, Pending { done, todo }, literal),
    }
}

fn first_work(alloc: Global, root: u32) -> Result<Work, AllocError>
    ensures { IfOk result (λ work. (bits : ℕ → Bool) → work_holds bits work ≡ literal_in bits root) }
{
    let todo = with_literal(Vec::new(alloc), root)?;
    let mut work = Work {
        sum: Vec::new(alloc),
        waiting: Vec::new(alloc),
    };
    put_off(&mut work, Vec::new(alloc), todo)?;
    Ok(work)
}

/// How many literals the next step copies: all of a product that is to be two.
fn copies(leaves: &Scratch, work: &Work) -> u64 {
    let count = work.waiting.len();
    if count == 0 {
        return 0;
    }
    let pending = &work.waiting[count - 1];
    let todo = pending.todo.len();
    if todo == 0 {
        return 0;
    }
    let literal = pending.todo[todo - 1];
    if literal % 2 == 0 || leaves.has(literal / 2) {
        return 0;
    }
    (pending.done.len() as u64).saturating_add(todo as u64)
}

/// The literal as a sum of products of labels of inputs, or None where that takes more than so many steps, or copies
/// more than so many literals.
pub fn expand_literal(
    alloc: Global,
    graph: &Graph,
    leaves: &Scratch,
    root: u32,
    most: u64,
) -> Result<Option<Vec<Product>>, AllocError>
    ensures { IfOk result (λ found. ForSome found (λ sum. (bits : ℕ → Bool) → IsValued graph.now bits
        → some_holds bits sum.items ≡ literal_in bits root)) }
{
    let mut work = first_work(alloc, root)?;
    let mut left = most;
    'steps: for _step in 0..most {
        if work.waiting.as_slice().is_empty() {
            return Ok(Some(work.sum));
        }
        left = left.saturating_sub(copies(leaves, &work));
        if left == 0 {
            return Ok(None);
        }
        if !advance(alloc, graph, leaves, &mut work)? {
            return Ok(None);
        }
    }
    Ok(None)
}
