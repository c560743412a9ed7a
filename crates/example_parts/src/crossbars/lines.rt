//! The lines of a case: what comes of each, and whether it is what has to come.
ghost use Rattle.std.specs.Prelude.{◌≡◌, Some, IfSome, length};
ghost use Rattle.rig.specs.Rig.{shape_of};
ghost use Rattle.diag_evidence.specs.Kept.{Advances, KeepsNothing, KeepsSet};
ghost use Rattle.example_parts.specs.Found.{AreFound};

use crate::crossbars::answers::{answer, keeps};
use crate::crossbars::bench::Bench;
use crate::crossbars::book::{Case, Line};
use crate::crossbars::machine::rig_of;
use crate::crossbars::routes::seen;
use crate::crossbars::walk::{Loads, Progress, are_separated, test_next};
use crate::crossbars::words::{text_of, word, yes_or_no};
use diag_evidence::Facts;
use diag_evidence::laws::{kept_facts_are_sound, tests_add_up};
use diag_published::Tested;
use example_kit::numbers_of;
use machine_shape::{Node, Wire};
use rig::{Rig, RigFail};
use std::alloc::{AllocError, Global};

// An answer of a test, in words.
fn told(
    alloc: Global,
    answer: Result<Option<bool>, RigFail>,
) -> Result<Option<String>, AllocError> {
    match answer {
        Ok(yes) => yes_or_no(alloc, yes),
        Err(RigFail::Failed) => word(alloc, "failed"),
        Err(RigFail::Memory) => Err(AllocError),
    }
}

// The numbers of wires.
fn wires(alloc: Global, wires: &[Wire]) -> Result<Option<String>, AllocError> {
    let mut numbers = Vec::new(alloc);
    for wire in wires {
        numbers.push(u64::from(wire.0))?;
    }
    text_of(alloc, &numbers)
}

// What was found of a crossbar.
fn found_of(alloc: Global, tested: &Tested, key: &str) -> Result<Option<String>, AllocError> {
    match key {
        "ends" => {
            let trunk = tested.trunk();
            wires(alloc, &[trunk.left.end(), trunk.right.end()])
        }
        "taps" => wires(alloc, tested.taps()),
        "lines" => wires(alloc, tested.lines()),
        "pair" => match tested.open_pair() {
            Some((first, second)) => wires(alloc, &[first, second]),
            None => word(alloc, "none"),
        },
        _ => Ok(None),
    }
}

// Whether a fact is kept, in words.
fn kept(alloc: Global, facts: &Facts, words: &[String]) -> Result<Option<String>, AllocError> {
    let [what, numbers @ ..] = words else {
        return Ok(None);
    };
    let Some(numbers) = numbers_of(alloc, numbers)? else {
        return Ok(None);
    };
    yes_or_no(alloc, keeps(facts, what.as_str(), &numbers))
}

// What is to be seen of what is set, in words.
fn look(
    alloc: Global,
    facts: &Facts,
    bench: &Bench,
    key: &str,
    words: &[String],
) -> Result<Option<String>, AllocError> {
    match numbers_of(alloc, words)? {
        Some(numbers) => seen(alloc, &facts.shape(), &bench.setup, key, &numbers),
        None => Ok(None),
    }
}

// Sets what words say. It is told by a text of nothing.
fn set(
    alloc: Global,
    bench: &mut Bench,
    key: &str,
    words: &[String],
) -> Result<Option<String>, AllocError> {
    if bench.set(alloc, key, words)? {
        return Ok(Some(String::new(alloc)));
    }
    Ok(None)
}

// What comes of a line for which the machine isn't asked.
fn unasked(
    alloc: Global,
    facts: &Facts,
    found: &[Tested],
    bench: &mut Bench,
    key: &str,
    words: &[String],
) -> Result<Option<String>, AllocError> {
    match key {
        "keeps" => kept(alloc, facts, words),
        "within" => yes_or_no(alloc, bench.is_within(words)),
        "ends" | "taps" | "lines" | "pair" => match found.last() {
            Some(tested) => found_of(alloc, tested, key),
            None => Ok(None),
        },
        "leads" | "touches" | "extended" | "meets" | "closes" => {
            look(alloc, facts, bench, key, words)
        }
        _ => set(alloc, bench, key, words),
    }
}

// What a test answers.
fn asked(
    alloc: Global,
    rig: &mut Box<dyn Rig>,
    facts: &mut Facts,
    bench: &mut Bench,
    key: &str,
    words: &[String],
) -> Result<Option<String>, AllocError>
    requires attached { shape_of (rig_state rig.old) ≡ Some facts.old.shape }
    ensures advances { Advances (rig_state rig.old) (rig_state rig.new) facts.old facts.new }
    ensures set { KeepsSet facts.old facts.new }
{
    tests_add_up();
    let Some(numbers) = numbers_of(alloc, words)? else {
        return Ok(None);
    };
    let before = rig.loads();
    let answer = answer(alloc, rig, facts, &bench.setup, key, &numbers);
    let rest = rig.loads().saturating_sub(before);
    bench.loads = Loads { trunk: 0, rest };
    told(alloc, answer)
}

// The next node, where the words say it.
fn next_node(words: &[String], found: &[Tested]) -> Option<Node>
    ensures { IfSome result (λ node. node.0 ≡ length found.now) }
{
    let [node] = words else {
        return None;
    };
    let node = node.as_str().parse::<u32>().ok()?;
    if node as usize == found.len() {
        Some(Node(node))
    } else {
        None
    }
}

// Whether a crossbar was tested, in words.
fn told_tested(alloc: Global, answer: Result<bool, RigFail>) -> Result<Option<String>, AllocError> {
    match answer {
        Ok(true) => word(alloc, "tested"),
        Ok(false) => word(alloc, "none"),
        Err(RigFail::Failed) => word(alloc, "failed"),
        Err(RigFail::Memory) => Err(AllocError),
    }
}

// What the next crossbar has, in words.
fn next(
    alloc: Global,
    rig: &mut Box<dyn Rig>,
    facts: &mut Facts,
    walk: &mut Progress,
    bench: &mut Bench,
    words: &[String],
) -> Result<Option<String>, AllocError>
    requires attached { shape_of (rig_state rig.old) ≡ Some facts.old.shape }
    requires found { AreFound (rig_state rig.old) facts.old walk.old.known walk.old.found.items }
    ensures advances { Advances (rig_state rig.old) (rig_state rig.new) facts.old facts.new }
    ensures found { AreFound (rig_state rig.new) facts.new walk.new.known walk.new.found.items }
{
    tests_add_up();
    let Some(node) = next_node(words, &walk.found) else {
        return Ok(None);
    };
    let answer = test_next(alloc, rig, facts, walk, node);
    bench.loads = walk.loads;
    told_tested(alloc, answer)
}

// Whether all questions up to here took no more loads than words say. None where they say no number.
fn are_within(rig: &Box<dyn Rig>, words: &[String]) -> Option<bool> {
    let [most] = words else {
        return None;
    };
    let most = most.as_str().parse::<u64>().ok()?;
    Some(rig.loads() <= most)
}

// What comes of a line. None where it says nothing.
fn came_of(
    alloc: Global,
    rig: &mut Box<dyn Rig>,
    facts: &mut Facts,
    walk: &mut Progress,
    bench: &mut Bench,
    words: &[String],
) -> Result<Option<String>, AllocError>
    requires attached { shape_of (rig_state rig.old) ≡ Some facts.old.shape }
    requires found { AreFound (rig_state rig.old) facts.old walk.old.known walk.old.found.items }
    ensures advances { Advances (rig_state rig.old) (rig_state rig.new) facts.old facts.new }
    ensures found { AreFound (rig_state rig.new) facts.new walk.new.known walk.new.found.items }
{
    tests_add_up();
    let [key, words @ ..] = words else {
        return Ok(None);
    };
    let key = key.as_str();
    match key {
        "crossbar" => next(alloc, rig, facts, walk, bench, words),
        "separated" => yes_or_no(alloc, Some(are_separated(facts, walk))),
        "altogether" => yes_or_no(alloc, are_within(rig, words)),
        "toggle" | "cell" | "register" | "swing" | "apart" => {
            asked(alloc, rig, facts, bench, key, words)
        }
        _ => unasked(alloc, facts, &walk.found, bench, key, words),
    }
}

// Whether what came of a line is what has to come. If it isn't, it is printed.
fn is_right(rt: &impl Print, name: &str, line: &Line, came: &Option<String>) -> bool {
    let number = line.number;
    let came = match came {
        Some(came) => came.as_str(),
        None => "that can't be",
    };
    if came == line.want.as_str() {
        return true;
    }
    let _ = println!(rt; "{name}, line {number}: {came}");
    false
}

// Whether all lines of a case are right.
fn try_lines(
    rt: &impl Print,
    alloc: Global,
    rig: &mut Box<dyn Rig>,
    facts: &mut Facts,
    case: &Case,
) -> Result<bool, AllocError>
    requires attached { shape_of (rig_state rig.old) ≡ Some facts.old.shape }
    requires nothing { KeepsNothing facts.old }
{
    kept_facts_are_sound();
    let mut bench = Bench::new(alloc);
    let mut walk = Progress::new(alloc, &facts.shape())?;
    let mut right = true;
    'lines: for line in case.lines.iter() {
        let words = line.words.as_slice();
        let came = came_of(alloc, rig, facts, &mut walk, &mut bench, words)?;
        if !is_right(rt, case.name.as_str(), line, &came) {
            right = false;
        }
    }
    Ok(right)
}

// The same on its rig.
fn try_on(
    rt: &impl Print,
    alloc: Global,
    rig: &mut Box<dyn Rig>,
    case: &Case,
) -> Result<bool, AllocError> {
    if rig.attach(&case.shape, case.machine.as_str()).is_err() {
        let name = case.name.as_str();
        let _ = println!(rt; "{name}: not attached");
        return Ok(false);
    }
    let mut facts = Facts::new(alloc, case.shape)?;
    try_lines(rt, alloc, rig, &mut facts, case)
}

/// Whether all lines of a case are right. What came of each that isn't is printed.
pub fn try_case(rt: &impl Print, alloc: Global, case: &Case) -> Result<bool, AllocError> {
    let mut rig: Box<dyn Rig> = Box::new(alloc, rig_of(alloc, case)?)?;
    try_on(rt, alloc, &mut rig, case)
}
