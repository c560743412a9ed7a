//! Models that stand for lines.

ghost use Rattle.std.specs.Prelude.{◌≡◌, ℕ, List, [], map, IfOk, OnOk, IfErr, false};
ghost use Rattle.design_flatten.specs.Given.{looked_up, place_of};
ghost use Rattle.design_flatten.specs.Lines.{is_use, pair_of};
ghost use Rattle.design_flatten.specs.Ordered.{line_in};
ghost use Rattle.design_flatten.specs.Sinks.{IsPut, IsOverWith};
ghost use Rattle.design_flatten.specs.Substitution.{becomes, pair_through, given, through, first_model, model_named, at_first, lines_at};
ghost use Rattle.design_flatten.specs.Substitution.{without_ports};
ghost use Rattle.design_flatten.specs.Needs.{lean_models};
ghost use Rattle.design_flatten.specs.Bodies.{AreBodies};
ghost use Rattle.design_flatten.specs.Frames.{left_in, ArePlaced, AreOverIn};

use crate::bodies::{Bodies, Lean, used_in};
use crate::given::Given;
use crate::model::PairDef;
use crate::ordered::Ordered;
use crate::placed::place;
use crate::refusal::Refusal;
use crate::sink::Sink;
use design_netlist::Name;
use std::alloc::{AllocError, Global};

/// A model that stands for a line: its lines in order, that of them which comes next, and how many in front of it use models.
#[derive(Drop)]
pub struct Frame<'a, 'b> {
    pub names: &'a [Name],
    pub lines: &'b [Lean<'a>],
    pub next: usize,
    pub uses: usize,
    pub given: Given<'a>,
}

/// A line of a frame that uses a model: the place after it, the model, and what it gives.
#[derive(Drop)]
pub struct Found<'a> {
    pub next: usize,
    pub model: &'a [u8],
    pub given: Given<'a>,
}

/// The first model, with all its lines.
pub fn first_frame<'a, 'b>(alloc: Global, bodies: &'b Bodies<'a>) -> Frame<'a, 'b>
    requires { AreBodies bodies.now.models.now bodies.now }
    ensures used { result.given.used ≡ 0 }
    ensures uses { result.uses ≡ 0 }
    ensures names { result.names.now ≡ (first_model (lean_models bodies.now.models.now)).names }
    ensures lines { left_in [] result ≡ lines_at (first_model (lean_models bodies.now.models.now)) at_first }
{
    Frame {
        names: bodies.first.names,
        lines: &bodies.first.lines,
        next: 0,
        uses: 0,
        given: Given::new(alloc, 0),
    }
}

/// The model of a name, with its pieces.
pub fn frame_of<'a, 'b>(bodies: &'b Bodies<'a>, model: &[u8], given: Given<'a>) -> Frame<'a, 'b>
    requires { AreBodies bodies.now.models.now bodies.now }
    ensures given { result.given ≡ given.entry }
    ensures uses { result.uses ≡ 0 }
    ensures names { result.names.now ≡ (model_named (lean_models bodies.now.models.now) model.now).names }
    ensures lines { (way : List ℕ) → left_in way result ≡ without_ports
        (lines_at (model_named (lean_models bodies.now.models.now) model.now) (place_of given.entry way)) }
{
    let body = bodies.get(model);
    Frame {
        names: body.names,
        lines: &body.lines,
        next: 0,
        uses: 0,
        given,
    }
}

/// What the pairs of a line in a frame give, as replaced line `used`.
fn given_by<'a>(
    alloc: Global,
    frame: &Frame<'_, '_>,
    used: u32,
    pairs: &[&'a PairDef],
) -> Result<Given<'a>, AllocError>
    ensures used { IfOk result (λ g. g.used ≡ used) }
    ensures given { IfOk result (λ g. (w : List ℕ) →
        looked_up g w ≡ given (map (pair_through (becomes (place_of frame.now.given []) frame.now.names.now))
        (map (λ p. pair_of p.now) pairs.now)) w) }
{
    let mut given = Given::new(alloc, used);
    'pairs: for pair in pairs {
        let actual = frame.given.signal(frame.names, pair.actual);
        given.give(pair.formal.as_slice(), actual)?;
    }
    Ok(given)
}

/// Places a line that uses no model.
fn put_line<'a>(
    alloc: Global,
    frame: &Frame<'_, '_>,
    line: &Ordered<'a>,
    sink: &mut Sink<'a>,
) -> Result<(), Refusal>
    requires { is_use (line_in line.now).part ≡ false }
    ensures ok { (way : List ℕ) → OnOk result (IsPut sink.old
        (through (place_of frame.now.given way) frame.now.names.now (line_in line.now)) sink.new) }
    ensures refused { (way : List ℕ) → IfErr result
        (IsOverWith sink.old (through (place_of frame.now.given way) frame.now.names.now (line_in line.now))) }
{
    match place(alloc, &frame.given, frame.names, line)? {
        Some(placed) => sink.put(alloc, placed),
        None => Ok(()),
    }
}

/// Places lines up to the next that uses a model, which is to be replaced as line `used`.
pub fn place_lines<'a>(
    alloc: Global,
    frame: &Frame<'a, '_>,
    used: u32,
    sink: &mut Sink<'a>,
) -> Result<Option<Found<'a>>, Refusal>
    ensures ok { (way : List ℕ) → IfOk result (λ u. ArePlaced way used frame.now sink.old sink.new u) }
    ensures refused { (way : List ℕ) → IfErr result (AreOverIn way frame.now sink.old) }
{
    'lines: for k in frame.next..frame.lines.len() {
        let lean = &frame.lines[k];
        if let Some(found) = used_in(lean.line.said) {
            let given = given_by(alloc, frame, used, &lean.pairs)?;
            return Ok(Some(Found {
                next: k + 1,
                model: found.model,
                given,
            }));
        }
        put_line(alloc, frame, &lean.line, sink)?;
    }
    Ok(None)
}
