//! The netlist that the substituted design spells.

ghost use Rattle.std.specs.Prelude.{◌≡◌, ◌<◌, ◌≤◌, length, map, None, IfOk, OnOk, IfErr};
ghost use Rattle.design_netlist.specs.declared.netlist_data.NetlistData.{NetlistData as DraftValue};
ghost use Rattle.design_netlist.specs.declared.fault.DesignFault.TheVariants.{Memory};
ghost use Rattle.design_netlist.specs.Vocabulary.{IsChecked, IsWellMade};
ghost use Rattle.design_flatten.specs.Faults.{IsClean, IsRefusalOfModels};
ghost use Rattle.design_flatten.specs.Lines.{HaveRightRows};
ghost use Rattle.design_flatten.specs.Netlists.{printed, controls_of, AreOneControl, IsWithin, IsReadFrom, IsNetlistOf};
ghost use Rattle.design_flatten.specs.Origins.{IsSubstitution, lines_of};
ghost use Rattle.design_flatten.specs.Placed.{placed_line};
ghost use Rattle.design_flatten.specs.Readings.{IsReading};
ghost use Rattle.design_flatten.specs.Signals.{signals_of};
ghost use Rattle.design_flatten.specs.Substitution.{first_model};
ghost use Rattle.design_flatten.specs.Uses.{KeepsRules};
ghost use Rattle.design_flatten.specs.Words.{IsFirstDoubled, IsFirstUndriven};

use crate::lists::lists_of;
use crate::model::{Model, Signal};
use crate::printed::printed_names;
use crate::refusal::Refusal;
use crate::words::first_undriven;
use crate::work::{Substituted, substitute};
use base_lists::Items;
use design_netlist::{DesignFault, DesignKind, Name, Names, NetlistData};
use std::alloc::{AllocError, Global};

/// The names of the signals of the first model.
pub fn first_names(models: &[Model]) -> &[Name]
    ensures { result.now ≡ (first_model models.now).names }
{
    match models.first() {
        Some(model) => model.names.as_slice(),
        None => &[],
    }
}

/// The substituted design; else that it passes a limit.
fn within_limits(alloc: Global, models: &[Model]) -> Result<Substituted<'_>, DesignFault>
    requires { KeepsRules models.now }
    ensures ok { IfOk result (IsSubstitution models.now) }
    ensures refused { IfErr result (IsRefusalOfModels models.now) }
    ensures only { (d : DraftValue) → IsNetlistOf models.now d → IfErr result (λ e. e ≡ Memory) }
{
    match substitute(alloc, models) {
        Ok(found) => Ok(found),
        Err(Refusal::Memory) => Err(DesignFault::Memory),
        Err(Refusal::Limit) => Err(DesignFault::At {
            line: 0,
            kind: DesignKind::Limit,
        }),
    }
}

/// That all controls are one; else the first latch with another.
fn check_controls(models: &[Model], found: &Substituted<'_>) -> Result<(), DesignFault>
    requires rules { KeepsRules models.now }
    requires kept { IsSubstitution models.now found.now }
    requires within { IsWithin models.now (lines_of models.now found.now) }
    ensures ok { OnOk result (AreOneControl (controls_of models.now (lines_of models.now found.now))) }
    ensures refused { IfErr result (IsRefusalOfModels models.now) }
    ensures only { AreOneControl (controls_of models.now (lines_of models.now found.now)) → IfErr result (λ e. e ≡ Memory) }
{
    match found.sink.clocks.other {
        None => Ok(()),
        Some(line) => Err(DesignFault::At {
            line,
            kind: DesignKind::Control,
        }),
    }
}

/// The names of the signals.
fn names_of(
    alloc: Global,
    models: &[Model],
    found: &Substituted<'_>,
    signals: &[Signal],
) -> Result<Names, AllocError>
    requires kept { IsSubstitution models.now found.now }
    requires signals { signals.now ≡ found.now.sink.signals }
    ensures { IfOk result (λ names. names ≡ map (printed models.now) (signals_of (lines_of models.now found.now))) }
{
    let names = printed_names(alloc, &found.origins, first_names(models), signals)?;
    Ok(names)
}

/// That no signal is driven twice; else the first word that drives one again.
fn check_drives(
    alloc: Global,
    models: &[Model],
    found: &Substituted<'_>,
    names: &Names,
) -> Result<(), DesignFault>
    requires kept { IsSubstitution models.now found.now }
    requires names { names.now ≡ map (printed models.now) (signals_of (lines_of models.now found.now)) }
    requires clean { IsClean models.now (lines_of models.now found.now) }
    ensures undoubled { OnOk result (IsFirstDoubled (lines_of models.now found.now) None) }
    ensures held { OnOk result (map placed_line found.now.sink.placed.items ≡ lines_of models.now found.now) }
    ensures refused { IfErr result (IsRefusalOfModels models.now) }
    ensures only { IsFirstDoubled (lines_of models.now found.now) None → IfErr result (λ e. e ≡ Memory) }
{
    let Some(driver) = found.sink.drives.doubled else {
        return Ok(());
    };
    let name = names.get(alloc, driver.word.signal as usize)?;
    Err(DesignFault::At {
        line: driver.word.line,
        kind: DesignKind::Doubled { name },
    })
}

/// That each signal that is read is driven; else the first word that reads another.
fn check_reads(
    alloc: Global,
    models: &[Model],
    found: &Substituted<'_>,
    names: &Names,
) -> Result<(), DesignFault>
    requires kept { IsSubstitution models.now found.now }
    requires names { names.now ≡ map (printed models.now) (signals_of (lines_of models.now found.now)) }
    requires clean { IsClean models.now (lines_of models.now found.now) }
    requires undoubled { IsFirstDoubled (lines_of models.now found.now) None }
    requires held { map placed_line found.now.sink.placed.items ≡ lines_of models.now found.now }
    ensures driven { OnOk result (IsFirstUndriven (lines_of models.now found.now) None) }
    ensures refused { IfErr result (IsRefusalOfModels models.now) }
    ensures only { IsFirstUndriven (lines_of models.now found.now) None → IfErr result (λ e. e ≡ Memory) }
{
    let sink = &found.sink;
    let Some(word) = first_undriven(&sink.drives.firsts, &sink.signals, &sink.placed) else {
        return Ok(());
    };
    let name = names.get(alloc, word.signal as usize)?;
    Err(DesignFault::At {
        line: word.line,
        kind: DesignKind::Undriven { name },
    })
}

/// The netlist that the lines spell, over their signals.
fn draft_of(
    alloc: Global,
    models: &[Model],
    found: &Substituted<'_>,
    names: Names,
) -> Result<NetlistData, DesignFault>
    requires kept { IsSubstitution models.now found.now }
    requires held { map placed_line found.now.sink.placed.items ≡ lines_of models.now found.now }
    requires names { names ≡ map (printed models.now) (signals_of (lines_of models.now found.now)) }
    ensures ok { IfOk result (IsReadFrom models.now (lines_of models.now found.now)) }
    ensures refused { IfErr result (λ e. e ≡ Memory) }
{
    let lists = lists_of(alloc, &found.sink.signals, &found.sink.placed)?;
    Ok(NetlistData {
        names,
        inputs: Items::new(lists.inputs),
        outputs: Items::new(lists.outputs),
        covers: Items::new(lists.covers),
        latches: Items::new(lists.latches),
    })
}

/// The netlist that the lines of a substituted design spell, where each signal is driven once.
fn read_from(
    alloc: Global,
    models: &[Model],
    found: &Substituted<'_>,
) -> Result<NetlistData, DesignFault>
    requires rules { KeepsRules models.now }
    requires rows { HaveRightRows models.now }
    requires outputs { length (first_model models.now).outputs ≤ 16777216 }
    requires kept { IsSubstitution models.now found.now }
    ensures ok { IfOk result (IsReading models.now) }
    ensures made { IfOk result (λ d. IsWellMade d) }
    ensures refused { IfErr result (IsRefusalOfModels models.now) }
    ensures only { (d : DraftValue) → IsNetlistOf models.now d → IsChecked d → IfErr result (λ e. e ≡ Memory) }
{
    let signals = found.sink.signals.as_slice();
    check_controls(models, found)?;
    let names = names_of(alloc, models, found, signals)?;
    check_drives(alloc, models, found, &names)?;
    check_reads(alloc, models, found, &names)?;
    draft_of(alloc, models, found, names)
}

/// The netlist that is read from the substituted design of models that keep the rules, where each signal is driven once.
pub fn read(alloc: Global, models: &[Model]) -> Result<NetlistData, DesignFault>
    requires rules { KeepsRules models.now }
    requires rows { HaveRightRows models.now }
    requires outputs { length (first_model models.now).outputs ≤ 16777216 }
    ensures ok { IfOk result (IsReading models.now) }
    ensures made { IfOk result (λ d. IsWellMade d) }
    ensures refused { IfErr result (IsRefusalOfModels models.now) }
    ensures only { (d : DraftValue) → IsNetlistOf models.now d → IsChecked d → IfErr result (λ e. e ≡ Memory) }
{
    let found = within_limits(alloc, models)?;
    read_from(alloc, models, &found)
}
