//! Texts that the search wrote, and whether they are another text of a design.
ghost use Rattle.std.specs.Prelude.{◌≤◌, IsTrue, IfOk, IfSome, length};
ghost use Rattle.std.specs.List.{All};
ghost use Rattle.base_text.specs.Size.{most_bytes};
ghost use Rattle.design_blif.specs.Designs.{IsDesign};
ghost use Rattle.design_netlist.specs.Checks.{IsChecked};
ghost use Rattle.map_network.specs.Plain.{is_narrow};
ghost use Rattle.map_text.specs.Remapped.{HaveSameRows, HaveSamePorts, HasNarrowCovers, IsAnotherText};

use crate::names::have_same_names;
use crate::text::{Remapped, read_again};
use base_lists::Items;
use base_table::TABLE_INPUTS;
use design_equal::laws::labelled_alike;
use design_equal::{Graph, agree};
use design_netlist::{Cover, Netlist, NetlistData};
use map_search::{Head, Made, Mapped, design_text, labels_by_name};
use std::alloc::{AllocError, Global};

// Whether each cover has at most six inputs. One that names an input twice counts it twice.
fn have_few_inputs(covers: &[Cover]) -> bool
    ensures { IsTrue result → All (λ c. IsTrue (is_narrow c)) covers.now }
{
    'covers: for k in 0..covers.len() {
        if covers[k].ins.as_slice().len() > TABLE_INPUTS {
            return false;
        }
    }
    true
}

// Whether two designs have the same names at inputs and outputs.
fn have_same_ports(
    alloc: Global,
    design: &NetlistData,
    other: &NetlistData,
) -> Result<bool, AllocError>
    ensures { IfOk result (λ yes. IsTrue yes → HaveSamePorts design.now other.now) }
{
    let inputs = design.inputs.as_slice();
    let outputs = design.outputs.as_slice();
    if !have_same_names(alloc, other, other.inputs.as_slice(), design, inputs)? {
        return Ok(false);
    }
    if !have_same_names(alloc, other, other.outputs.as_slice(), design, outputs)? {
        return Ok(false);
    }
    Ok(true)
}

// Whether labels show that two designs have the same rows.
fn have_same_rows(
    alloc: Global,
    graph: &Graph,
    design: &Netlist,
    labels: &[u32],
    other: &Netlist,
    other_labels: &[u32],
) -> Result<bool, AllocError>
    requires design { IsChecked design.now }
    requires other { IsChecked other.now }
    ensures { IfOk result (λ yes. IsTrue yes → HaveSameRows design.now other.now) }
{
    labelled_alike();
    let agreed = agree(alloc, graph, design, labels, other, other_labels)?;
    Ok(agreed)
}

// The same, where labels of the one are those of the names in a drawing.
fn have_drawn_rows(
    alloc: Global,
    design: &Netlist,
    made: &Made,
    drawn: &Mapped,
    read: &Netlist,
) -> Result<bool, AllocError>
    requires design { IsChecked design.now }
    requires read { IsChecked read.now }
    ensures { IfOk result (λ yes. IsTrue yes → HaveSameRows design.now read.now) }
{
    let labels = labels_by_name(alloc, &drawn.draft, drawn.labels.as_slice(), read)?;
    let own = made.labels.as_slice();
    let same = have_same_rows(alloc, &made.graph, design, own, read, &labels)?;
    Ok(same)
}

// Whether a netlist that was read from a drawing's text has the names and rows of the design.
fn is_another(
    alloc: Global,
    design: &Netlist,
    made: &Made,
    drawn: &Mapped,
    read: &Netlist,
) -> Result<bool, AllocError>
    ensures ports { IfOk result (λ yes. IsTrue yes → HaveSamePorts design.now read.now) }
    ensures rows { IfOk result (λ yes. IsTrue yes → HaveSameRows design.now read.now) }
{
    if have_same_ports(alloc, design.parts(), read.parts())? {
        let rows = have_drawn_rows(alloc, design, made, drawn, read)?;
        return Ok(rows);
    }
    Ok(false)
}

// The text of what the search drew, with the netlist that it is read as, if it is one of a design.
fn written(alloc: Global, drawn: &Mapped, head: &Head) -> Result<Option<Remapped>, AllocError>
    ensures design { IfOk result (λ o. IfSome o (λ r. IsDesign r.text r.netlist)) }
    ensures short { IfOk result (λ o. IfSome o (λ r. length r.text ≤ most_bytes)) }
{
    let text = design_text(alloc, &drawn.draft, head)?;
    match read_again(alloc, &text)? {
        Some(netlist) => {
            let text = Items::new(text);
            Ok(Some(Remapped { text, netlist }))
        }
        None => Ok(None),
    }
}

/// The text of what the search drew for a design, with the netlist that it is read as, where that has the design's names and rows.
pub fn read_drawn(
    alloc: Global,
    design: &Netlist,
    made: &Made,
    drawn: &Mapped,
    head: &Head,
) -> Result<Option<Remapped>, AllocError>
    ensures { IfOk result (λ o. IfSome o (λ r. IsAnotherText design.now r.text r.netlist)) }
{
    match written(alloc, drawn, head)? {
        Some(read) => {
            if is_another(alloc, design, made, drawn, &read.netlist)? {
                return Ok(Some(read));
            }
            Ok(None)
        }
        None => Ok(None),
    }
}

/// The same, where each of its covers has few inputs too.
pub fn check_drawn(
    alloc: Global,
    design: &Netlist,
    made: &Made,
    drawn: &Mapped,
    head: &Head,
) -> Result<Option<Remapped>, AllocError>
    ensures another { IfOk result (λ o. IfSome o (λ r. IsAnotherText design.now r.text r.netlist)) }
    ensures narrow { IfOk result (λ o. IfSome o (λ r. HasNarrowCovers r.netlist)) }
{
    match read_drawn(alloc, design, made, drawn, head)? {
        Some(read) => {
            if have_few_inputs(read.netlist.parts().covers.as_slice()) {
                return Ok(Some(read));
            }
            Ok(None)
        }
        None => Ok(None),
    }
}
