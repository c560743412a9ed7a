//! Lines that use models are replaced until none is left.

ghost use Rattle.std.specs.Prelude.{◌≡◌, [], length, IfOk, OnOk, IfErr};
ghost use Rattle.design_flatten.specs.Bodies.{AreBodies};
ghost use Rattle.design_flatten.specs.Needs.{lean_models};
ghost use Rattle.design_flatten.specs.Origins.{AreOrigins, IsSubstitution, IsRefused};
ghost use Rattle.design_flatten.specs.Sinks.{IsSink};
ghost use Rattle.design_flatten.specs.Substitution.{first_model};

use crate::bodies::Bodies;
use crate::frames::{Frame, first_frame, frame_of, place_lines};
use crate::model::Model;
use crate::refusal::Refusal;
use crate::sink::Sink;
use design_netlist::Name;
use std::alloc::{AllocError, Global};

/// The most lines that may be replaced.
pub const MOST_REPLACED: u32 = 65_535;

/// What replaced a line: the names of the model, the replaced line in whose model that line stood, and its place among
/// the lines there that use models.
#[derive(Clone, Copy, Debug)]
pub struct Origin<'a> {
    pub names: &'a [Name],
    pub within: u32,
    pub place: usize,
}

/// The substituted design, and what replaced its lines; the first model counts as what replaced line 0.
#[derive(Drop)]
pub struct Substituted<'a> {
    pub sink: Sink<'a>,
    pub origins: Vec<Origin<'a>>,
}

// No line yet; the first model counts as what replaced line 0.
fn begun<'a>(alloc: Global, bodies: &Bodies<'a>) -> Result<Substituted<'a>, AllocError>
    requires { AreBodies bodies.now.models.now bodies.now }
    ensures sink { IfOk result (λ made. IsSink (first_model (lean_models bodies.now.models.now)).names [] made.sink) }
    ensures count { IfOk result (λ made. length made.origins.items ≡ 1) }
    ensures origins { IfOk result (λ made. AreOrigins (lean_models bodies.now.models.now) made.origins.items) }
{
    let names = bodies.first.names;
    let mut origins = Vec::new(alloc);
    origins.push(Origin {
        names,
        within: 0,
        place: 0,
    })?;
    let sink = Sink::new(alloc, names)?;
    Ok(Substituted { sink, origins })
}

// Places the lines of the first model, and in place of each that uses a model those of that model.
fn replace_all<'a>(
    alloc: Global,
    bodies: &Bodies<'a>,
    made: &mut Substituted<'a>,
) -> Result<(), Refusal>
    requires bodies { AreBodies bodies.now.models.now bodies.now }
    requires sink { IsSink (first_model (lean_models bodies.now.models.now)).names [] made.old.sink }
    requires count { length made.old.origins.items ≡ 1 }
    requires origins { AreOrigins (lean_models bodies.now.models.now) made.old.origins.items }
    ensures ok { OnOk result (IsSubstitution bodies.now.models.now made.new) }
    ensures refused { IfErr result (IsRefused bodies.now.models.now) }
{
    let first = first_frame(alloc, bodies);
    let mut replaced = 0;
    let mut stack = Vec::new(alloc);
    stack.push(first)?;
    'work: while let Some(frame) = stack.pop() {
        let Some(found) = place_lines(alloc, &frame, replaced + 1, &mut made.sink)? else {
            continue;
        };
        if replaced >= MOST_REPLACED {
            return Err(Refusal::Limit);
        }
        let next = frame_of(bodies, found.model, found.given);
        made.origins.push(Origin {
            names: next.names,
            within: frame.given.used,
            place: frame.uses,
        })?;
        replaced += 1;
        stack.push(Frame {
            names: frame.names,
            lines: frame.lines,
            next: found.next,
            uses: frame.uses + 1,
            given: frame.given,
        })?;
        stack.push(next)?;
    }
    Ok(())
}

// The substituted design of models whose lines are at hand.
fn substituted_of<'a>(alloc: Global, bodies: &Bodies<'a>) -> Result<Substituted<'a>, Refusal>
    requires { AreBodies bodies.now.models.now bodies.now }
    ensures ok { IfOk result (IsSubstitution bodies.now.models.now) }
    ensures refused { IfErr result (IsRefused bodies.now.models.now) }
{
    let mut made = begun(alloc, bodies)?;
    replace_all(alloc, bodies, &mut made)?;
    Ok(made)
}

/// The substituted design of the models, within its limits.
pub fn substitute<'a>(alloc: Global, models: &'a [Model]) -> Result<Substituted<'a>, Refusal>
    ensures ok { IfOk result (IsSubstitution models.now) }
    ensures refused { IfErr result (IsRefused models.now) }
{
    let bodies = Bodies::new(alloc, models)?;
    substituted_of(alloc, &bodies)
}
