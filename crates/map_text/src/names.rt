//! Names of inputs and outputs that are compared.
ghost use Rattle.std.specs.Prelude.{◌≡◌, IsTrue, IfOk};
ghost use Rattle.design_netlist.specs.Drafts.{name_at};
ghost use Rattle.map_text.specs.Remapped.{names_of};

use base_lists::Items;
use design_netlist::{Name, NetlistData, PortDef};
use std::alloc::{AllocError, Global};

// The name of a signal, and none where there is no such signal.
fn name_of(alloc: Global, design: &NetlistData, signal: u32) -> Result<Name, AllocError>
    ensures { IfOk result (λ name. name ≡ name_at design.now signal) }
{
    if signal as usize >= design.names.len() {
        return Ok(Items::empty(alloc));
    }
    design.names.get(alloc, signal as usize)
}

// Whether two signals of two designs have the same name.
fn is_same_name(
    alloc: Global,
    design: &NetlistData,
    signal: u32,
    other: &NetlistData,
    other_signal: u32,
) -> Result<bool, AllocError>
    ensures { IfOk result (λ yes. IsTrue yes → name_at design.now signal ≡ name_at other.now other_signal) }
{
    let name = name_of(alloc, design, signal)?;
    let other_name = name_of(alloc, other, other_signal)?;
    Ok(name.as_slice() == other_name.as_slice())
}

/// Whether these words of two designs have the same names, in order.
pub fn have_same_names(
    alloc: Global,
    design: &NetlistData,
    words: &[PortDef],
    other: &NetlistData,
    other_words: &[PortDef],
) -> Result<bool, AllocError>
    ensures { IfOk result (λ yes. IsTrue yes → names_of design.now words.now ≡ names_of other.now other_words.now) }
{
    if words.len() != other_words.len() {
        return Ok(false);
    }
    'words: for k in 0..words.len() {
        if !is_same_name(alloc, design, words[k].signal, other, other_words[k].signal)? {
            return Ok(false);
        }
    }
    Ok(true)
}
