//! The lines of models, each model's made once however often it is used.
//!
//! Of what a line gives that uses a model only what stands on lines of that model is kept: a use then costs no more for
//! a line whose formals are clocks by the hundred thousand.

ghost use Rattle.std.specs.Prelude.{◌≡◌, [], map, false, IfOk, OnOk, MatchOption};
ghost use Rattle.std.specs.List.{filter};
ghost use Rattle.std.specs.Option.{option_copied};
ghost use Rattle.design_flatten.specs.Lines.{UsePart, is_use, ordered_lines, pair_of};
ghost use Rattle.design_flatten.specs.Ordered.{line_in, part_in};
ghost use Rattle.design_flatten.specs.Substitution.{first_model, model_named};
ghost use Rattle.design_flatten.specs.Uses.{is_among};
ghost use Rattle.design_flatten.specs.UseLines.{IsCatalog};
ghost use Rattle.design_flatten.specs.Needs.{needed_defs, lean_part, lean_line};
ghost use Rattle.design_flatten.specs.Bodies.{with_pairs, lean_in, body_at, IsBodyOf, IsBodyAdded, AreBodies};

use crate::catalog::Catalog;
use crate::model::{Model, PairDef, Piece};
use crate::name_set::NameSet;
use crate::ordered::{Ordered, Said, in_order, pieces_in_order};
use crate::read::first_names;
use design_netlist::Name;
use std::alloc::{AllocError, Global};
use std::collections::HashMap;

/// A line of a model, and of what it gives, if it uses a model, what that model needs.
#[derive(Drop)]
pub struct Lean<'a> {
    pub line: Ordered<'a>,
    pub pairs: Vec<&'a PairDef>,
}

/// What a line that uses a model says.
#[derive(Clone, Copy, Debug)]
pub struct Used<'a> {
    pub model: &'a [u8],
    pub pairs: &'a [PairDef],
}

/// The names of a model's signals, and its lines in order.
#[derive(Drop)]
pub struct Body<'a> {
    pub names: &'a [Name],
    pub lines: Vec<Lean<'a>>,
}

/// The first model with all its lines, one without lines, and of each name the first model with its pieces.
#[derive(Drop)]
pub struct Bodies<'a> {
    pub models: &'a [Model],
    pub first: Body<'a>,
    pub none: Body<'a>,
    pub named: HashMap<&'a [u8], Body<'a>>,
}

/// The pairs whose formal is among the names.
fn pairs_among<'a>(
    alloc: Global,
    names: &NameSet<'_>,
    pairs: &'a [PairDef],
) -> Result<Vec<&'a PairDef>, AllocError>
    ensures { IfOk result (λ v. map (λ p. p.now) v.items ≡ filter (λ p. is_among names.now p.formal) pairs.now) }
{
    let mut needed = Vec::new(alloc);
    'pairs: for pair in pairs {
        if names.contains(pair.formal.as_slice()) {
            needed.push(pair)?;
        }
    }
    Ok(needed)
}

/// Of what is given to the model of a name what it needs. A name that no model has stands for one that needs nothing.
fn needed_by<'a>(
    alloc: Global,
    catalog: &Catalog<'_>,
    model: &[u8],
    pairs: &'a [PairDef],
) -> Result<Vec<&'a PairDef>, AllocError>
    requires { IsCatalog catalog.now.models.now catalog.now }
    ensures { IfOk result (λ v. map (λ p. p.now) v.items ≡ needed_defs catalog.now.models.now model.now pairs.now) }
{
    match catalog.get(model) {
        Some(known) => pairs_among(alloc, &known.needs, pairs),
        None => Ok(Vec::new(alloc)),
    }
}

/// What a line says that uses a model.
pub fn used_in<'a>(said: Said<'a>) -> Option<Used<'a>>
    ensures { MatchOption result (is_use (part_in said.entry) ≡ false)
        (λ u. part_in said.entry ≡ UsePart u.model.now (map pair_of u.pairs.now) []) }
{
    match said {
        Said::Piece(
            Piece::Inst {
                model,
                pairs,
                line: _,
            },
        ) => Some(Used {
            model: model.as_slice(),
            pairs: pairs.as_slice(),
        }),
        _ => None,
    }
}

/// Of what a line gives what its model needs.
fn needed_on<'a>(
    alloc: Global,
    catalog: &Catalog<'_>,
    said: Said<'a>,
) -> Result<Vec<&'a PairDef>, AllocError>
    requires { IsCatalog catalog.now.models.now catalog.now }
    ensures { IfOk result (λ v. with_pairs (map (λ p. pair_of p.now) v.items) (part_in said.entry)
        ≡ lean_part catalog.now.models.now (part_in said.entry)) }
{
    let Some(used) = used_in(said) else {
        return Ok(Vec::new(alloc));
    };
    let needed = needed_by(alloc, catalog, used.model, used.pairs)?;
    Ok(needed)
}

/// The lines, with no more given than is needed.
fn lean_lines<'a>(
    alloc: Global,
    catalog: &Catalog<'_>,
    lines: &[Ordered<'a>],
) -> Result<Vec<Lean<'a>>, AllocError>
    requires { IsCatalog catalog.now.models.now catalog.now }
    ensures { IfOk result (λ v. map lean_in v.items ≡ map (lean_line catalog.now.models.now) (map line_in lines.now)) }
{
    let mut leans = Vec::new(alloc);
    'lines: for line in lines {
        let pairs = needed_on(alloc, catalog, line.said)?;
        leans.push(Lean { line: *line, pairs })?;
    }
    Ok(leans)
}

/// A model with its pieces.
fn body_of<'a>(
    alloc: Global,
    catalog: &Catalog<'_>,
    model: &'a Model,
) -> Result<Body<'a>, AllocError>
    requires { IsCatalog catalog.now.models.now catalog.now }
    ensures { IfOk result (IsBodyOf catalog.now.models.now model.now) }
{
    let ordered = pieces_in_order(alloc, model)?;
    let lines = lean_lines(alloc, catalog, &ordered)?;
    let names = model.names.as_slice();
    Ok(Body { names, lines })
}

/// All lines of the first model.
fn first_lines(alloc: Global, models: &[Model]) -> Result<Vec<Ordered<'_>>, AllocError>
    ensures { IfOk result (λ v. map line_in v.items ≡ ordered_lines (first_model models.now)) }
{
    match models.first() {
        Some(model) => in_order(alloc, model),
        None => Ok(Vec::new(alloc)),
    }
}

impl<'a> Bodies<'a> {
    fn kept_at(&self, name: &[u8]) -> Option<&Body<'a>>
        ensures { option_copied result ≡ body_at self.now name.now }
    {
        self.named.get(name)
    }

    /// The model of a name, with its pieces. A name that no model has stands for one without lines.
    pub fn get(&self, name: &[u8]) -> &Body<'a>
        requires { AreBodies self.now.models.now self.now }
        ensures { IsBodyOf self.now.models.now (model_named self.now.models.now name.now) result.now }
    {
        self.kept_at(name).unwrap_or(&self.none)
    }

    /// Adds a model, if its name is new.
    fn add(
        &mut self,
        alloc: Global,
        catalog: &Catalog<'_>,
        model: &'a Model,
    ) -> Result<(), AllocError>
        requires { IsCatalog catalog.now.models.now catalog.now }
        ensures models { self.new.models ≡ self.old.models }
        ensures first { self.new.first ≡ self.old.first }
        ensures none { self.new.none ≡ self.old.none }
        ensures added { OnOk result (IsBodyAdded catalog.now.models.now self.old model.now self.new) }
    {
        let name = model.name.as_slice();
        if self.named.contains_key(name) {
            return Ok(());
        }
        let body = body_of(alloc, catalog, model)?;
        let _ = self.named.insert(name, body)?;
        Ok(())
    }

    /// The lines of all models.
    pub fn new(alloc: Global, models: &'a [Model]) -> Result<Self, AllocError>
        ensures models { IfOk result (λ b. b.models.now ≡ models.now) }
        ensures bodies { IfOk result (AreBodies models.now) }
    {
        let catalog = Catalog::new(alloc, models)?;
        let ordered = first_lines(alloc, models)?;
        let lines = lean_lines(alloc, &catalog, &ordered)?;
        let names = first_names(models);
        let mut bodies = Bodies {
            models,
            first: Body { names, lines },
            none: Body {
                names: &[],
                lines: Vec::new(alloc),
            },
            named: HashMap::new(alloc),
        };
        'models: for model in models {
            bodies.add(alloc, &catalog, model)?;
        }
        Ok(bodies)
    }
}
