//! What the lines that use models give.

ghost use Rattle.std.specs.Prelude.{◌≡◌, [], map, IfOk, OnOk, IfErr, IsSome, None};
ghost use Rattle.design_netlist.specs.declared.fault.DesignFault.TheVariants.{Memory};
ghost use Rattle.design_netlist.specs.Orders.{is_sooner};
ghost use Rattle.design_flatten.specs.Lines.{pair_of};
ghost use Rattle.design_flatten.specs.NameSets.{with_names};
ghost use Rattle.design_flatten.specs.Substitution.{model_named};
ghost use Rattle.design_flatten.specs.Uses.{uses_of, input_names, port_names};
ghost use Rattle.design_flatten.specs.UseFaults.{first_wrong, first_missing, formal_fault, IsUnknown, IsWronglyGiven, IsFirstUse};
ghost use Rattle.design_flatten.specs.Faults.{IsRefusalOfModels};
ghost use Rattle.design_flatten.specs.UseLines.{use_in, listed, shown, formals_in, IsFirstListed, IsCatalog};

use crate::catalog::{Catalog, Known};
use crate::given::name_at;
use crate::model::{Model, PairDef};
use crate::name_set::NameSet;
use crate::uses::{UseLine, chosen, copy_name, is_sooner};
use design_netlist::{DesignFault, DesignKind};
use std::alloc::{AllocError, Global};

/// The first formal that is no port or stands earlier; else all of them are in the set.
fn first_wrong<'a>(
    ports: &NameSet<'_>,
    given: &mut NameSet<'a>,
    pairs: &'a [PairDef],
) -> Result<Option<&'a [u8]>, AllocError>
    requires { given.old ≡ [] }
    ensures wrong { IfOk result (λ f. shown f ≡ first_wrong ports.now [] (formals_in pairs.now)) }
    ensures given { IfOk result (λ f. f ≡ None → given.new ≡ with_names [] (formals_in pairs.now)) }
{
    'pairs: for pair in pairs {
        let formal = pair.formal.as_slice();
        if !ports.contains(formal) || given.contains(formal) {
            return Ok(Some(formal));
        }
        given.add(formal)?;
    }
    Ok(None)
}

/// The first input that isn't in the set.
fn first_missing<'a>(given: &NameSet<'_>, model: &'a Model) -> Option<&'a [u8]>
    ensures { shown result ≡ first_missing given.now (input_names model.now) }
{
    let names = model.names.as_slice();
    let inputs = model.inputs.as_slice();
    'inputs: for port in inputs {
        let name = name_at(names, port.signal as usize);
        if !given.contains(name) {
            return Some(name);
        }
    }
    None
}

/// The formal that is wrong, or else the input that isn't given.
fn formal_fault<'a>(
    alloc: Global,
    known: &Known<'a>,
    pairs: &'a [PairDef],
) -> Result<Option<&'a [u8]>, AllocError>
    requires { known.now.ports ≡ with_names [] (port_names known.now.model.now) }
    ensures { IfOk result (λ f. shown f ≡ formal_fault known.now.model.now (map pair_of pairs.now)) }
{
    let mut given = NameSet::new(alloc);
    match first_wrong(&known.ports, &mut given, pairs)? {
        Some(formal) => Ok(Some(formal)),
        None => Ok(first_missing(&given, known.model)),
    }
}

fn first_formal(pairs: &[PairDef]) -> Option<&[u8]>
    ensures { shown result ≡ formal_fault (model_named [] []) (map pair_of pairs.now) }
{
    match pairs.first() {
        Some(pair) => Some(pair.formal.as_slice()),
        None => None,
    }
}

/// What is wrong with what a line gives. A name that no model has stands for a model without ports.
fn fault_of<'a>(
    alloc: Global,
    catalog: &Catalog<'a>,
    used: &UseLine<'a>,
) -> Result<Option<&'a [u8]>, AllocError>
    requires { IsCatalog catalog.now.models.now catalog.now }
    ensures { IfOk result (λ f. shown f ≡ formal_fault (model_named catalog.now.models.now (use_in used.now).model)
        (use_in used.now).pairs) }
{
    match catalog.get(used.model) {
        Some(known) => formal_fault(alloc, known, used.pairs),
        None => Ok(first_formal(used.pairs)),
    }
}

/// The first line that gives something wrongly.
fn first_wrongly_given<'a>(
    alloc: Global,
    catalog: &Catalog<'a>,
    uses: &[UseLine<'a>],
) -> Result<Option<usize>, AllocError>
    requires { IsCatalog catalog.now.models.now catalog.now }
    ensures { IfOk result (λ found. IsFirstListed (map use_in uses.now)
        (λ k. IsSome (formal_fault (model_named catalog.now.models.now (listed (map use_in uses.now) k).model)
        (listed (map use_in uses.now) k).pairs)) found) }
{
    let mut found: Option<usize> = None;
    'uses: for place in 0..uses.len() {
        let wrong = fault_of(alloc, catalog, &uses[place])?.is_some();
        let sooner = is_sooner(uses, place, found);
        found = chosen(wrong, sooner, place, found);
    }
    Ok(found)
}

/// That each line gives each input, and no formal twice or wrongly; else the first that doesn't.
pub fn check_formals<'a>(
    alloc: Global,
    catalog: &Catalog<'a>,
    uses: &[UseLine<'a>],
) -> Result<(), DesignFault>
    requires catalog { IsCatalog catalog.now.models.now catalog.now }
    requires uses { map use_in uses.now ≡ uses_of catalog.now.models.now }
    requires known { IsFirstUse catalog.now.models.now (IsUnknown catalog.now.models.now) None }
    ensures ok { OnOk result (IsFirstUse catalog.now.models.now (IsWronglyGiven catalog.now.models.now) None) }
    ensures refused { IfErr result (IsRefusalOfModels catalog.now.models.now) }
    ensures only { IsFirstUse catalog.now.models.now (IsWronglyGiven catalog.now.models.now) None → IfErr result (λ e. e ≡ Memory) }
{
    let Some(place) = first_wrongly_given(alloc, catalog, uses)? else {
        return Ok(());
    };
    let used = uses[place];
    match fault_of(alloc, catalog, &used)? {
        None => Ok(()),
        Some(formal) => {
            let name = copy_name(alloc, formal)?;
            Err(DesignFault::At {
                line: used.number,
                kind: DesignKind::Formal { name },
            })
        }
    }
}
