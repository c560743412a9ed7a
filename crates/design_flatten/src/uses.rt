//! The lines that use models, and the rules that they keep.

ghost use Rattle.std.specs.Prelude.{◌≡◌, ◌<◌, ◌++◌, ◌&&◌, map, length, Some, None, IfOk, OnOk, IfErr, IsTrue, ◌↔◌, if◌then◌else◌, false};
ghost use Rattle.std.specs.Option.{ForSome};
ghost use Rattle.design_netlist.specs.declared.fault.DesignFault.TheVariants.{Memory};
ghost use Rattle.design_netlist.specs.Orders.{is_sooner};
ghost use Rattle.design_flatten.specs.Uses.{use_on, uses_in, uses_of, is_among, KeepsRules};
ghost use Rattle.design_flatten.specs.UseFaults.{IsUnknown, IsFirstUse};
ghost use Rattle.design_flatten.specs.Faults.{IsRefusalOfModels};
ghost use Rattle.design_flatten.specs.UseLines.{use_in, listed, number_at, names_of, IsFirstListed, IsCatalog};

use crate::catalog::Catalog;
use crate::formals::check_formals;
use crate::model::{Model, PairDef, Piece};
use crate::recursion::check_recursion;
use base_lists::Items;
use design_netlist::{DesignFault, DesignKind, Name};
use std::alloc::{AllocError, Global};

/// A line that uses a model: its number, the name of the model in which it stands, that of the model it uses, and what it gives.
#[derive(Clone, Copy, Debug)]
pub struct UseLine<'a> {
    pub number: u64,
    pub own: &'a [u8],
    pub model: &'a [u8],
    pub pairs: &'a [PairDef],
}

fn push_use<'a>(
    uses: &mut Vec<UseLine<'a>>,
    own: &'a [u8],
    piece: &'a Piece,
) -> Result<(), AllocError>
    ensures { OnOk result (map use_in uses.new.items ≡ map use_in uses.old.items ++ use_on own.now piece.now) }
{
    match piece {
        Piece::Inst { model, pairs, line } => {
            uses.push(UseLine {
                number: *line,
                own,
                model: model.as_slice(),
                pairs: pairs.as_slice(),
            })?;
            Ok(())
        }
        _ => Ok(()),
    }
}

fn push_uses<'a>(uses: &mut Vec<UseLine<'a>>, model: &'a Model) -> Result<(), AllocError>
    ensures { OnOk result (map use_in uses.new.items ≡ map use_in uses.old.items ++ uses_in model.now) }
{
    let own = model.name.as_slice();
    let pieces = model.pieces.as_slice();
    'pieces: for piece in pieces {
        push_use(uses, own, piece)?;
    }
    Ok(())
}

/// The lines that use models, in the order of models and pieces.
pub fn uses_of(alloc: Global, models: &[Model]) -> Result<Vec<UseLine<'_>>, AllocError>
    ensures { IfOk result (λ v. map use_in v.items ≡ uses_of models.now) }
{
    let mut uses = Vec::new(alloc);
    'models: for model in models {
        push_uses(&mut uses, model)?;
    }
    Ok(uses)
}

/// Whether the line at the place has a lower number than the one that was found.
pub fn is_sooner(uses: &[UseLine<'_>], place: usize, found: Option<usize>) -> bool
    requires room { place < length uses.now }
    requires known { ForSome found (λ j. j < length uses.now) }
    ensures { result ≡ is_sooner (number_at (map use_in uses.now)) place found }
{
    match found {
        None => true,
        Some(j) => uses[place].number < uses[j].number,
    }
}

pub fn chosen(has: bool, sooner: bool, place: usize, found: Option<usize>) -> Option<usize>
    ensures { result ≡ (if has && sooner then Some place else found) }
{
    if has && sooner { Some(place) } else { found }
}

fn is_unknown(catalog: &Catalog<'_>, used: &UseLine<'_>) -> bool
    requires { IsCatalog catalog.now.models.now catalog.now }
    ensures { IsTrue result ↔ (is_among (names_of catalog.now.models.now) (use_in used.now).model ≡ false) }
{
    catalog.get(used.model).is_none()
}

/// The first line that names no model.
fn first_unknown(catalog: &Catalog<'_>, uses: &[UseLine<'_>]) -> Option<usize>
    requires { IsCatalog catalog.now.models.now catalog.now }
    ensures { IsFirstListed (map use_in uses.now) (λ k. is_among (names_of catalog.now.models.now)
        (listed (map use_in uses.now) k).model ≡ false) result }
{
    let mut found: Option<usize> = None;
    'uses: for place in 0..uses.len() {
        let unknown = is_unknown(catalog, &uses[place]);
        let sooner = is_sooner(uses, place, found);
        found = chosen(unknown, sooner, place, found);
    }
    found
}

/// A copy of a name.
pub fn copy_name(alloc: Global, name: &[u8]) -> Result<Name, AllocError>
    ensures { IfOk result (λ n. n ≡ name.now) }
{
    Ok(Items::new(Vec::from_slice(alloc, name)?))
}

/// That each line names a model; else the first that doesn't.
fn check_names(
    alloc: Global,
    catalog: &Catalog<'_>,
    uses: &[UseLine<'_>],
) -> Result<(), DesignFault>
    requires catalog { IsCatalog catalog.now.models.now catalog.now }
    requires uses { map use_in uses.now ≡ uses_of catalog.now.models.now }
    ensures ok { OnOk result (IsFirstUse catalog.now.models.now (IsUnknown catalog.now.models.now) None) }
    ensures refused { IfErr result (IsRefusalOfModels catalog.now.models.now) }
    ensures only { IsFirstUse catalog.now.models.now (IsUnknown catalog.now.models.now) None → IfErr result (λ e. e ≡ Memory) }
{
    match first_unknown(catalog, uses) {
        None => Ok(()),
        Some(place) => {
            let used = uses[place];
            let name = copy_name(alloc, used.model)?;
            Err(DesignFault::At {
                line: used.number,
                kind: DesignKind::NoSuchModel { name },
            })
        }
    }
}

/// The rules on lines that use models: each names a model, gives each input and no formal twice or wrongly, and none
/// leads back to its own model.
///
/// A line that breaks one is refused with NoSuchModel, Formal or Recursive; of all such lines the first of the first
/// kind in this order. Lack of memory is refused with Memory.
pub fn check_uses(alloc: Global, models: &[Model]) -> Result<(), DesignFault>
    ensures ok { OnOk result (KeepsRules models.now) }
    ensures refused { IfErr result (IsRefusalOfModels models.now) }
    ensures only { KeepsRules models.now → IfErr result (λ e. e ≡ Memory) }
{
    let uses = uses_of(alloc, models)?;
    if uses.len() == 0 {
        return Ok(());
    }
    let catalog = Catalog::new(alloc, models)?;
    check_names(alloc, &catalog, &uses)?;
    check_formals(alloc, &catalog, &uses)?;
    check_recursion(alloc, models, &uses)?;
    Ok(())
}
