//! The printed names of signals. They share their beginnings and are spelt out only where a fault names one.

ghost use Rattle.std.specs.Prelude.{◌≡◌, List, length, map, IfOk};
ghost use Rattle.design_netlist.specs.Names.{texts_of};
ghost use Rattle.design_flatten.specs.declared.model.Model.{Model as ModelValue};
ghost use Rattle.design_flatten.specs.Substitution.{first_model};
ghost use Rattle.design_flatten.specs.Netlists.{origin_of, printed};
ghost use Rattle.design_flatten.specs.Origins.{AreOrigins, AreAllOrigins, AreWays, step_to, shared_as};

use crate::given::name_at;
use crate::model::Signal;
use crate::uses::copy_name;
use crate::work::Origin;
use base_lists::Items;
use base_text::put_number;
use design_netlist::{Beginning, Name, Names, Shared};
use std::alloc::{AllocError, Global};

/// A place on the way, followed by a slash; nothing for the first model.
fn step_to(alloc: Global, used: usize, place: usize) -> Result<Name, AllocError>
    ensures { IfOk result (λ n. n ≡ step_to used place) }
{
    let mut text = Vec::new(alloc);
    if used == 0 {
        return Ok(Items::new(text));
    }
    put_number(&mut text, place as u64)?;
    text.push(b'/')?;
    Ok(Items::new(text))
}

/// The ways to what replaced the lines, as beginnings of names.
fn ways_of(alloc: Global, origins: &[Origin<'_>]) -> Result<Vec<Beginning>, AllocError>
    ensures len { IfOk result (λ v. length (texts_of v.items) ≡ length origins.now) }
    ensures ways { (models : List ModelValue) → AreOrigins models origins.now →
        IfOk result (λ v. AreWays models (length origins.now) (texts_of v.items)) }
{
    let mut ways = Vec::new(alloc);
    'origins: for used in 0..origins.len() {
        let origin = origins[used];
        ways.push(Beginning {
            before: origin.within,
            text: step_to(alloc, used, origin.place)?,
        })?;
    }
    Ok(ways)
}

/// The names of the model that replaced a line; those of the first model where there is no such line.
fn names_in<'a>(origins: &[Origin<'a>], first: &'a [Name], used: u32) -> &'a [Name]
    ensures { (models : List ModelValue) → AreAllOrigins models origins.now → first.now ≡ (first_model models).names →
        result.now ≡ (origin_of models used).model.names }
{
    match origins.get(used as usize) {
        Some(origin) => origin.names,
        None => first,
    }
}

fn shared_of(
    alloc: Global,
    origins: &[Origin<'_>],
    first: &[Name],
    signal: Signal,
) -> Result<Shared, AllocError>
    ensures { (models : List ModelValue) → AreAllOrigins models origins.now → first.now ≡ (first_model models).names →
        IfOk result (λ s. s ≡ shared_as models signal) }
{
    let names = names_in(origins, first, signal.used);
    let end = copy_name(alloc, name_at(names, signal.own as usize))?;
    Ok(Shared {
        beginning: Some(signal.used),
        end,
    })
}

fn all_shared(
    alloc: Global,
    origins: &[Origin<'_>],
    first: &[Name],
    signals: &[Signal],
) -> Result<Vec<Shared>, AllocError>
    ensures { (models : List ModelValue) → AreAllOrigins models origins.now → first.now ≡ (first_model models).names →
        IfOk result (λ v. v.items ≡ map (shared_as models) signals.now) }
{
    let mut all = Vec::new(alloc);
    'signals: for signal in signals {
        let shared = shared_of(alloc, origins, first, *signal)?;
        all.push(shared)?;
    }
    Ok(all)
}

/// The names of signals: the places of the lines on the way, each followed by a slash, and the own name.
pub fn printed_names(
    alloc: Global,
    origins: &[Origin<'_>],
    first: &[Name],
    signals: &[Signal],
) -> Result<Names, AllocError>
    ensures { (models : List ModelValue) → AreAllOrigins models origins.now → first.now ≡ (first_model models).names →
        IfOk result (λ n. n ≡ map (printed models) signals.now) }
{
    let ways = ways_of(alloc, origins)?;
    let all = all_shared(alloc, origins, first, signals)?;
    Ok(Names::sharing(ways, all))
}
