//! The list of what isn't known or kept.
ghost use Rattle.std.specs.Prelude.{◌≡◌, ◌<◌, true, false, IfOk, IsTrue};
ghost use Rattle.machine_shape.specs.Shape.{wires_of, crosses_of, tables_of};
ghost use Rattle.machine_defects.specs.Lists.{IsWithWire, with_cross, with_table};
ghost use Rattle.diag_growth.specs.Seats.{KeepsTable};
ghost use Rattle.diag_machine.specs.Listing.{IsListing, IsListOf};

use diag_evidence::Facts;
use diag_growth::Known;
use machine_defects::Defects;
use machine_shape::{Cross, Table, Wire};
use std::alloc::{AllocError, Global};

// Lists a wire, a crosspoint or a table, unless it is good.
fn wire_unless(list: &mut Defects, good: bool, w: Wire)
    requires { w.0 < wires_of list.old.shape }
    ensures bad { good ≡ false → IsWithWire list.old w.0 list.new }
    ensures good { good ≡ true → list.new ≡ list.old }
{
    if !good {
        list.list_wire(w);
    }
}

fn cross_unless(list: &mut Defects, good: bool, c: Cross)
    requires { c.0 < crosses_of list.old.shape }
    ensures bad { good ≡ false → list.new ≡ record { shape = list.old.shape; list = with_cross list.old.shape list.old.list c.0 } }
    ensures good { good ≡ true → list.new ≡ list.old }
{
    if !good {
        list.list_cross(c);
    }
}

fn table_unless(list: &mut Defects, good: bool, t: Table)
    requires { t.0 < tables_of list.old.shape }
    ensures bad { good ≡ false → list.new ≡ record { shape = list.old.shape; list = with_table list.old.shape list.old.list t.0 } }
    ensures good { good ≡ true → list.new ≡ list.old }
{
    if !good {
        list.list_table(t);
    }
}

// Whether the cells of a table and its register are kept.
fn keeps_table(facts: &Facts, t: Table) -> bool
    requires { t.0 < tables_of facts.now.shape }
    ensures yes { IsTrue result → KeepsTable facts.now t.0 }
    ensures no { result ≡ false → ¬ KeepsTable facts.now t.0 }
{
    'cells: for address in 0..64 {
        if !facts.keeps_cell(t, address) {
            return false;
        }
    }
    facts.keeps_register(t)
}

// Lists the wires that aren't known.
fn list_wires(list: &mut Defects, facts: &Facts, known: &Known)
    requires shape { known.now.shape ≡ facts.now.shape }
    requires before { IsListing facts.now known.now.steps list.old 0 0 0 }
    ensures { IsListing facts.now known.now.steps list.new (wires_of facts.now.shape) 0 0 }
{
    'wires: for w in 0..facts.shape().wires() {
        wire_unless(list, known.has(Wire(w)), Wire(w));
    }
}

// Lists the crosspoints that aren't kept.
fn list_crosses(list: &mut Defects, facts: &Facts, known: &Known)
    requires before { IsListing facts.now known.now.steps list.old (wires_of facts.now.shape) 0 0 }
    ensures { IsListing facts.now known.now.steps list.new (wires_of facts.now.shape) (crosses_of facts.now.shape) 0 }
{
    'crosses: for c in 0..facts.shape().crosses() {
        cross_unless(list, facts.keeps_cross(Cross(c)), Cross(c));
    }
}

// Lists the tables that aren't kept.
fn list_tables(list: &mut Defects, facts: &Facts, known: &Known)
    requires before { IsListing facts.now known.now.steps list.old (wires_of facts.now.shape) (crosses_of facts.now.shape) 0 }
    ensures { IsListing facts.now known.now.steps list.new (wires_of facts.now.shape) (crosses_of facts.now.shape)
        (tables_of facts.now.shape) }
{
    'tables: for t in 0..facts.shape().tables() {
        table_unless(list, keeps_table(facts, Table(t)), Table(t));
    }
}

/// The list of the wires that aren't known, and of the crosspoints and tables that aren't kept.
pub(crate) fn list_of(alloc: Global, facts: &Facts, known: &Known) -> Result<Defects, AllocError>
    requires shape { known.now.shape ≡ facts.now.shape }
    ensures shape { IfOk result (λ d. d.shape ≡ facts.now.shape) }
    ensures list { IfOk result (λ d. IsListOf facts.now.shape facts.now known.now.steps d.list) }
{
    let mut list = Defects::none(alloc, facts.shape())?;
    list_wires(&mut list, facts, known);
    list_crosses(&mut list, facts, known);
    list_tables(&mut list, facts, known);
    let _kept = list.shape();
    Ok(list)
}
