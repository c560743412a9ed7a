//! The command that writes the rows of a design.
ghost use Rattle.std.specs.Prelude.{◌≡◌, ◌∷◌, ◌++◌, [], ℕ, List, OnOk, IfOk, IfErr, IsSome};
ghost use Rattle.design_vectors.specs.Rows.{row_line};
ghost use Rattle.cmd_steps.specs.Vocabulary.{StoreState, RigState, outside, StandsIn, Follows, Does, IsLawful, IsBegun, file_of, StaysOpen};
ghost use Rattle.cmd_steps.specs.Vocabulary.{WaitsOrPuts, NextStops, all_rows};
ghost use Rattle.cmd_eval.specs.Eval.{eval_rows, design_evaluated, eval_job};
ghost use Rattle.cmd_eval.specs.Evaluations.{IsReady, IsSized, RowGives, at_rows};

use crate::engine::DesignEval;
use base_io::{Sink, Store};
use cmd_steps::{DesignFile, RowBlock, Stop, next_vector, open_vectors, read_design, write};
use design_netlist::Netlist;
use design_vectors::VectorText;
use std::alloc::{AllocError, Global};

// All that the rows need: no memory is taken after this.
#[derive(Drop)]
struct Evaluation<'a> {
    eval: DesignEval<'a>,
    vectors: VectorText,
    vector: Vec<bool>,
    row: Vec<bool>,
    block: RowBlock,
}

// Takes all memory for the rows of a netlist.
fn prepare(alloc: Global, netlist: &Netlist) -> Result<Evaluation<'_>, AllocError>
    ensures { IfOk result (IsReady netlist.now) }
{
    let inputs = netlist.parts().inputs.as_slice().len();
    let outputs = netlist.parts().outputs.as_slice().len();
    let vector = vec![in alloc; false; inputs]?;
    let row = vec![in alloc; false; outputs]?;
    let vectors = VectorText::new(alloc, inputs as u32)?;
    let block = RowBlock::new(alloc, outputs as u32)?;
    let eval = DesignEval::start(alloc, netlist)?;
    Ok(Evaluation {
        eval,
        vectors,
        vector,
        row,
        block,
    })
}

// Reads the next vector and makes its row. False is the end of the file.
fn next_row<S: Store, K: Sink>(
    rows: &mut Evaluation,
    store: &mut S,
    sink: &mut K,
) -> Result<bool, Stop>
    requires begun { IsSome (S.store_state store.old).current }
    requires sized { IsSized rows.old }

    ensures stays { StaysOpen (S.store_state store.old) (S.store_state store.new) }
    ensures sized { OnOk result (IsSized rows.new) }
    ensures gives { let old = at_rows rows.old (S.store_state store.old) (K.sink_state sink.old) in
        let new = at_rows rows.new (S.store_state store.new) (K.sink_state sink.new) in
        IfOk result (λ more. RowGives more rows.old rows.new old new) }
    ensures refused { let old = at_rows rows.old (S.store_state store.old) (K.sink_state sink.old) in
        let new = at_rows rows.new (S.store_state store.new) (K.sink_state sink.new) in
        IfErr result (λ stop. NextStops stop old new) }
{
    if !next_vector(
        &mut rows.vectors,
        &mut rows.vector,
        &mut rows.block,
        store,
        sink,
    )? {
        return Ok(false);
    }
    let ahead = rows.vectors.unread();
    rows.eval.step_ahead(&rows.vector, ahead, &mut rows.row);
    Ok(true)
}

// Lets the row that was made wait behind the others, or writes them all.
fn add_row<K: Sink>(rows: &mut Evaluation, sink: &mut K) -> Result<(), Stop>
    requires { IsSized rows.old }
    ensures eval { rows.new.eval ≡ rows.old.eval }
    ensures vectors { rows.new.vectors ≡ rows.old.vectors }
    ensures sized { IsSized rows.new }
    ensures waits { let lines = rows.old.block.text ++ row_line rows.old.row.items in
        WaitsOrPuts lines rows.new.block.text result (K.sink_state sink.old) (K.sink_state sink.new) }
{
    rows.block.add(&rows.row, sink)
}

// Writes a row for each vector of the file, and all that wait before the store is read again.
fn write_rows<S: Store, K: Sink>(
    rows: &mut Evaluation,
    store: &mut S,
    sink: &mut K,
) -> Result<(), Stop>
    requires begun { IsBegun (S.store_state store.old) }
    requires ready { IsReady rows.old.eval.netlist rows.old }

    // Whatever the rig is.
    ensures { (rig : RigState) →
        let old = outside (S.store_state store.old) rig (K.sink_state sink.old) in
        let new = outside (S.store_state store.new) rig (K.sink_state sink.new) in
        Follows ⊥ [] (Unit {0}) (all_rows (eval_rows rows.old.eval.netlist (file_of old.store) new.store))
        result old new }
{
    'file: while next_row(rows, store, sink)? {
        add_row(rows, sink)?;
    }
    Ok(())
}

// Opens the vectors, and writes the line `outputs` and a row for each vector.
fn open_and_write<S: Store, K: Sink>(
    rows: &mut Evaluation,
    vectors: &str,
    store: &mut S,
    sink: &mut K,
) -> Result<(), Stop>
    requires { IsReady rows.old.eval.netlist rows.old }
    // Whatever the rig is, and whatever files were read before.
    ensures { (begun : StoreState) (files : List (List ℕ)) (rig : RigState) →
        let old = outside (S.store_state store.old) rig (K.sink_state sink.old) in
        let new = outside (S.store_state store.new) rig (K.sink_state sink.new) in
        old.store.contents ≡ begun.contents → StandsIn files begun old.store →
        Follows ⊥ (vectors.now ∷ []) (Unit {0}) (design_evaluated vectors.now files begun new.store rows.old.eval.netlist) result old new }
{
    open_vectors(store, vectors)?;
    write(sink, b"outputs\n")?;
    write_rows(rows, store, sink)
}

// Takes all memory for the rows of a netlist, opens the vectors, and writes the line `outputs` and a row for each vector.
fn evaluate<S: Store, K: Sink>(
    alloc: Global,
    netlist: &Netlist,
    vectors: &str,
    store: &mut S,
    sink: &mut K,
) -> Result<(), Stop>
    // Whatever the rig is, and whatever files were read before.
    ensures { (begun : StoreState) (files : List (List ℕ)) (rig : RigState) →
        let old = outside (S.store_state store.old) rig (K.sink_state sink.old) in
        let new = outside (S.store_state store.new) rig (K.sink_state sink.new) in
        old.store.contents ≡ begun.contents → StandsIn files begun old.store →
        Follows ⊥ (vectors.now ∷ []) (Unit {0}) (design_evaluated vectors.now files begun new.store netlist.now) result old new }
{
    let mut rows = prepare(alloc, netlist)?;
    open_and_write(&mut rows, vectors, store, sink)
}

/// Reads a design and vectors, and writes the line `outputs` and a row for each vector.
///
/// All memory is taken before that line is written, and no vector is read before it.
///
/// # Errors
///
/// The first step that refuses, in this order: the design is read, the file of vectors is started,
/// the line is written, and then each vector is read and its row written.
pub fn eval<S: Store, K: Sink>(
    alloc: Global,
    design: &str,
    vectors: &str,
    store: &mut S,
    sink: &mut K,
) -> Result<(), Stop>
    ensures lawful { IsLawful (eval_job design.now vectors.now) }
    // The rig isn't touched.
    ensures does { (rig : RigState) → Does ⊥ (eval_job design.now vectors.now) result
        (outside (S.store_state store.old) rig (K.sink_state sink.old)) (outside (S.store_state store.new) rig (K.sink_state sink.new)) }
{
    let netlist = read_design(alloc, DesignFile::Design, store, design)?;
    evaluate(alloc, &netlist, vectors, store, sink)
}
