//! Models that use themselves.

ghost use Rattle.std.specs.Prelude.{◌≡◌, ◌<◌, ◌≤◌, map, length, IfOk, OnOk, IfErr, None, slice_set};
ghost use Rattle.design_netlist.specs.declared.fault.DesignFault.TheVariants.{Memory};
ghost use Rattle.design_netlist.specs.Covers.{cover_at};
ghost use Rattle.design_flatten.specs.Uses.{uses_of, IsRecursive};
ghost use Rattle.design_flatten.specs.UseFaults.{IsUnknown, IsWronglyGiven, IsFirstUse};
ghost use Rattle.design_flatten.specs.Faults.{IsRefusalOfModels};
ghost use Rattle.design_flatten.specs.UseLines.{use_in, listed, IsFirstListed};
ghost use Rattle.design_flatten.specs.Links.{HaveNames, AreBare, AreLinked, with_input, group_at};

use crate::model::Model;
use crate::name_set::NameSet;
use crate::uses::{UseLine, chosen, copy_name, is_sooner};
use base_lists::Items;
use design_netlist::{Cover, DesignFault, DesignKind, groups_of};
use std::alloc::{AllocError, Global};

/// The most names that can be numbered. So many would take 64 GB.
const MOST_NAMES: usize = 4_294_967_295;

/// The names of the models that stand on the lines.
fn names_in<'a>(alloc: Global, uses: &[UseLine<'a>]) -> Result<NameSet<'a>, AllocError>
    ensures { IfOk result (λ names. HaveNames names (map use_in uses.now) (length uses.now)) }
{
    let mut names = NameSet::new(alloc);
    'uses: for place in 0..uses.len() {
        let used = uses[place];
        names.add(used.own)?;
        names.add(used.model)?;
    }
    Ok(names)
}

/// A cover for each name, which reads nothing.
fn bare_covers(alloc: Global, count: usize) -> Result<Vec<Cover>, AllocError>
    requires { count ≤ 4294967295 }
    ensures { IfOk result (λ covers. AreBare count covers.items) }
{
    let mut covers = Vec::new(alloc);
    'names: for number in 0..count {
        covers.push(Cover {
            out: number as u32,
            ins: Items::empty(alloc),
            rows: Items::empty(alloc),
            off: false,
            line: 0,
        })?;
    }
    Ok(covers)
}

/// Lets the cover at a place read one more.
fn add_input(covers: &mut Vec<Cover>, place: usize, input: u32) -> Result<(), AllocError>
    requires { place < length covers.old.items }
    ensures { OnOk result (covers.new.items ≡ slice_set covers.old.items place (with_input (cover_at covers.old.items place) input)) }
{
    covers[place].ins.push(input)?;
    Ok(())
}

/// A cover for each name, which reads those of the models that are used in models of the name.
fn covers_of(
    alloc: Global,
    names: &NameSet<'_>,
    uses: &[UseLine<'_>],
) -> Result<Vec<Cover>, AllocError>
    requires few { length names.now ≤ 4294967295 }
    requires names { HaveNames names.now (map use_in uses.now) (length uses.now) }
    ensures { IfOk result (λ covers. AreLinked names.now (map use_in uses.now) (length uses.now) covers.items) }
{
    let mut covers = bare_covers(alloc, names.len())?;
    'uses: for place in 0..uses.len() {
        let used = uses[place];
        let own = names.number(used.own);
        let model = names.number(used.model) as u32;
        add_input(&mut covers, own, model)?;
    }
    Ok(covers)
}

fn group_of(names: &NameSet<'_>, groups: &[usize], name: &[u8]) -> usize
    ensures { result ≡ group_at names.now groups.now name.now }
{
    match groups.get(names.number(name)) {
        Some(group) => *group,
        None => 0,
    }
}

/// The first line whose own model and the one that it uses are of one group.
fn first_in_group(names: &NameSet<'_>, groups: &[usize], uses: &[UseLine<'_>]) -> Option<usize>
    ensures { let lines = map use_in uses.now in
        let group = group_at names.now groups.now in
        IsFirstListed lines (λ k. group (listed lines k).model ≡ group (listed lines k).own) result }
{
    let mut found: Option<usize> = None;
    'uses: for place in 0..uses.len() {
        let used = uses[place];
        let same = group_of(names, groups, used.model) == group_of(names, groups, used.own);
        let sooner = is_sooner(uses, place, found);
        found = chosen(same, sooner, place, found);
    }
    found
}

/// The first line through which its own model is used again, by the numbers of the names.
fn first_again(
    alloc: Global,
    models: &[Model],
    uses: &[UseLine<'_>],
    names: &NameSet<'_>,
) -> Result<Option<usize>, DesignFault>
    requires uses { map use_in uses.now ≡ uses_of models.now }
    requires names { HaveNames names.now (map use_in uses.now) (length uses.now) }
    ensures ok { IfOk result (IsFirstUse models.now (IsRecursive models.now)) }
    ensures refused { IfErr result (λ e. e ≡ Memory) }
{
    if names.len() > MOST_NAMES {
        return Err(DesignFault::Memory);
    }
    let covers = covers_of(alloc, names, uses)?;
    let groups = groups_of(alloc, &covers, names.len())?;
    Ok(first_in_group(names, &groups, uses))
}

/// The first line through which its own model is used again.
fn first_recursive(
    alloc: Global,
    models: &[Model],
    uses: &[UseLine<'_>],
) -> Result<Option<usize>, DesignFault>
    requires { map use_in uses.now ≡ uses_of models.now }
    ensures ok { IfOk result (IsFirstUse models.now (IsRecursive models.now)) }
    ensures refused { IfErr result (λ e. e ≡ Memory) }
{
    let names = names_in(alloc, uses)?;
    first_again(alloc, models, uses, &names)
}

/// That no model uses itself; else the first line through which its own model is used again.
pub fn check_recursion(
    alloc: Global,
    models: &[Model],
    uses: &[UseLine<'_>],
) -> Result<(), DesignFault>
    requires uses { map use_in uses.now ≡ uses_of models.now }
    requires known { IsFirstUse models.now (IsUnknown models.now) None }
    requires given { IsFirstUse models.now (IsWronglyGiven models.now) None }
    ensures ok { OnOk result (IsFirstUse models.now (IsRecursive models.now) None) }
    ensures refused { IfErr result (IsRefusalOfModels models.now) }
    ensures only { IsFirstUse models.now (IsRecursive models.now) None → IfErr result (λ e. e ≡ Memory) }
{
    let Some(place) = first_recursive(alloc, models, uses)? else {
        return Ok(());
    };
    let used = uses[place];
    let name = copy_name(alloc, used.model)?;
    Err(DesignFault::At {
        line: used.number,
        kind: DesignKind::Recursive { name },
    })
}
