//! The rows of an image.
ghost use Rattle.std.specs.Prelude.{◌≡◌, ◌+◌, ◌-◌, ◌*◌, ◌≤◌, ℕ, List, ◌∷◌, ◌++◌, []};
ghost use Rattle.std.specs.Prelude.{true, false, Some, OnOk, IfOk, IfErr, IsSome, length, take, drop};
ghost use Rattle.run_image.specs.Copying.{repeated, share, AreEqualShares};
ghost use Rattle.base_io.specs.Counts.{Rose};
ghost use Rattle.machine_shape.specs.Shape.{pins_of};
ghost use Rattle.rig.specs.Rig.{Narrows, Tells, CyclesFail};
ghost use Rattle.run_image.specs.Batches.{most_together};
ghost use Rattle.design_vectors.specs.Readings.{new_reading, GivesUnread};
ghost use Rattle.design_vectors.specs.Rows.{row_line};
ghost use Rattle.cmd_steps.specs.Vocabulary.{IsBegun, file_of, StoreState, SinkState, shape_of, width_of, StandsIn, outside, around, Took};
ghost use Rattle.cmd_steps.specs.Vocabulary.{Follows, all_rows, most_vector_bytes, WaitsOrPuts, NextStops, StaysOpen};
ghost use Rattle.cmd_steps.specs.declared.refusal.Refusal.TheVariants.{Rig};
ghost use Rattle.cmd_steps.specs.declared.refusal.Stop.TheVariants.{Refused};
ghost use Rattle.run_image.specs.Rows.{RowsBegin, copied_rows, image_rows, image_course, loaded_course};
ghost use Rattle.run_image.specs.Running.{IsFitting, IsLoaded, IsSameBut, IsSameRun, AreKept, ReadsMore, BatchGives, DrivesTo, readings_in};
ghost use Rattle.run_image.specs.Running.{CompareStops, HasAddedOne, HasAddedAll, AddStops, AddsStop, MakesRows, MakesStop, EndsSent};
ghost use Rattle.run_image.specs.Running.{together_of, prepares, at_rows};

use crate::copies::{Copies, repeat, share_of, share_row};
use crate::run::TOGETHER;
use crate::{Run, begin};
use base_io::{Sink, Store};
use cmd_steps::{Refusal, RowBlock, Stop, next_vector, open_vectors, write};
use design_vectors::VectorText;
use machine_image::Image;
use rig::{Rig, RigFail};
use std::alloc::{AllocError, Global};

/// For how many rows the rig is asked for room.
const ROOM: u32 = 4_096;

// All that the rows need: but for the rig's, no memory is taken after this.
#[derive(Drop)]
struct Running {
    image: Image,
    copies: Copies,
    run: Run,
    vectors: VectorText,
    /// What the file says, for one copy, and what is driven, for all of them.
    vector: Vec<bool>,
    drive: Vec<bool>,
    /// What all copies read, and what each of them does.
    reading: Vec<bool>,
    row: Vec<bool>,
    block: RowBlock,
    /// What is driven for the vectors that are driven together, one behind the other, and what is read then.
    drives: Vec<bool>,
    readings: Vec<bool>,
    /// How many rows the rig has room for at least, of those that it was asked for.
    left: u32,
}

// How many input pins an image has, and how many output pins: they are different pins of the machine.
fn widths(image: &Image) -> (u32, u32)
    ensures inputs { result.0 ≡ length image.now.inputs }
    ensures outputs { result.1 ≡ length image.now.outputs }
{
    let pins = image.config().shape().pins() as usize;
    let inputs = image.inputs().len();
    let outputs = image.outputs().len();
    prove!(inputs <= pins);
    prove!(outputs <= pins);
    (inputs as u32, outputs as u32)
}

// The buffers of rows: no vector was read, and no row waits.
#[derive(Drop)]
struct Buffers {
    vectors: VectorText,
    vector: Vec<bool>,
    drive: Vec<bool>,
    reading: Vec<bool>,
    row: Vec<bool>,
    block: RowBlock,
    drives: Vec<bool>,
    readings: Vec<bool>,
}

// Takes all memory for rows of so many input and output pins.
fn buffers_for(
    alloc: Global,
    copies: Copies,
    inputs: u32,
    outputs: u32,
) -> Result<Buffers, AllocError>
    ensures vectors { IfOk result (λ b. b.vectors ≡ new_reading (share copies inputs) most_vector_bytes) }
    ensures vector { IfOk result (λ b. length b.vector.items ≡ share copies inputs) }
    ensures drive { IfOk result (λ b. length b.drive.items ≡ inputs) }
    ensures reading { IfOk result (λ b. length b.reading.items ≡ outputs) }
    ensures row { IfOk result (λ b. length b.row.items ≡ share copies outputs) }
    ensures block { IfOk result (λ b. b.block.width ≡ share copies outputs) }
    ensures none { IfOk result (λ b. b.block.text ≡ []) }
    ensures drives { IfOk result (λ b. length b.drives.items ≡ most_together * inputs) }
    ensures readings { IfOk result (λ b. length b.readings.items ≡ most_together * outputs) }
{
    let width = share_of(copies, inputs);
    let count = share_of(copies, outputs);
    let vector = vec![in alloc; false; width as usize]?;
    let drive = vec![in alloc; false; inputs as usize]?;
    let reading = vec![in alloc; false; outputs as usize]?;
    let row = vec![in alloc; false; count as usize]?;
    let drives = vec![in alloc; false; TOGETHER * inputs as usize]?;
    let readings = vec![in alloc; false; TOGETHER * outputs as usize]?;
    let vectors = VectorText::new(alloc, width)?;
    let block = RowBlock::new(alloc, count)?;
    Ok(Buffers {
        vectors,
        vector,
        drive,
        reading,
        row,
        block,
        drives,
        readings,
    })
}

// Loads an image, and takes all memory for its rows.
fn prepare(
    alloc: Global,
    image: Image,
    copies: Copies,
    rig: &mut Box<dyn Rig>,
) -> Result<Running, Stop>
    requires shape { shape_of (rig_state rig.old) ≡ Some image.config.shape }
    requires shares { AreEqualShares copies image }

    ensures machine { (rig_state rig.new).machine ≡ (rig_state rig.old).machine }
    ensures image { IfOk result (λ rows. rows.image ≡ image) }
    ensures copies { IfOk result (λ rows. rows.copies ≡ copies) }
    ensures loaded { IfOk result (λ rows. IsLoaded rows (rig_state rig.new)) }
    // Whatever the store and the sink are.
    ensures took { let old = rig_state rig.old in let new = rig_state rig.new in
        (store : StoreState) (sink : SinkState) →
        Took [] (prepares old new) result (outside store old sink) (outside store new sink) }
{
    let (inputs, outputs) = widths(&image);
    let buffers = buffers_for(alloc, copies, inputs, outputs)?;
    let run = begin(alloc, rig, &image, ROOM)?;
    Ok(Running {
        image,
        copies,
        run,
        vectors: buffers.vectors,
        vector: buffers.vector,
        drive: buffers.drive,
        reading: buffers.reading,
        row: buffers.row,
        block: buffers.block,
        drives: buffers.drives,
        readings: buffers.readings,
        left: ROOM,
    })
}

// Puts bits behind the first ones of others, and says where they end there.
fn put_bits(bits: &[bool], all: &mut [bool], from: usize) -> usize
    requires { from + length bits.now ≤ length all.old }
    ensures place { result ≡ from + length bits.now }
    ensures bits { take result all.new ≡ take from all.old ++ bits.now }
    ensures length { length all.new ≡ length all.old }
{
    'bits: for (k, bit) in bits.iter().enumerate() {
        all[from + k] = *bit;
    }
    from + bits.len()
}

// Takes bits that stand behind the first ones of others, and says where they end there.
fn take_bits(all: &[bool], from: usize, bits: &mut [bool]) -> usize
    requires { from + length bits.old ≤ length all.now }
    ensures place { result ≡ from + length bits.old }
    ensures bits { bits.new ≡ take (length bits.old) (drop from all.now) }
    ensures length { length bits.new ≡ length bits.old }
{
    let end = from + bits.len();
    bits.copy_from_slice(&all[from..end]);
    end
}

// How many vectors are driven together at most, where there is room for so many: one where there is none.
fn most_of(left: u32) -> usize
    ensures { result ≡ together_of left }
{
    if left == 0 {
        return 1;
    }
    (left as usize).min(TOGETHER)
}

// Keeps what is driven for the vector that was read, behind that for others, and says where it ends there.
fn keep_drive(rows: &mut Running, from: usize) -> usize
    requires fits { IsFitting rows.old }
    requires room { from + length rows.old.image.inputs ≤ length rows.old.drives.items }
    ensures same { IsSameRun rows.old rows.new }
    ensures fits { IsFitting rows.new }
    ensures vectors { rows.new.vectors ≡ rows.old.vectors }
    ensures vector { rows.new.vector ≡ rows.old.vector }
    ensures block { rows.new.block ≡ rows.old.block }
    ensures place { result ≡ from + length rows.old.image.inputs }
    ensures drives { take result rows.new.drives.items ≡ take from rows.old.drives.items ++ repeated rows.old.copies rows.old.vector.items }
{
    repeat(rows.copies, &rows.vector, &mut rows.drive);
    put_bits(&rows.drive, &mut rows.drives, from)
}

// Reads the next vector where it was read from the store already. False leaves the reading as it was.
fn take_unread(rows: &mut Running) -> bool
    requires { IsFitting rows.old }
    ensures same { IsSameRun rows.old rows.new }
    ensures fits { IsFitting rows.new }
    ensures block { rows.new.block ≡ rows.old.block }
    ensures drives { rows.new.drives ≡ rows.old.drives }
    ensures gives { result ≡ true → GivesUnread rows.new.vector.items rows.old.vectors rows.new.vectors }
    ensures none { result ≡ false → rows.new.vectors ≡ rows.old.vectors }
{
    rows.vectors.next_unread(&mut rows.vector)
}

// Reads the vectors behind one that was read and kept, as far as they were read from the store with it. How many there are with it.
fn read_on(rows: &mut Running) -> usize
    requires fits { IsFitting rows.old }
    requires kept { AreKept rows.old (rows.old.vector.items ∷ []) }
    ensures same { IsSameRun rows.old rows.new }
    ensures fits { IsFitting rows.new }
    ensures block { rows.new.block ≡ rows.old.block }
    ensures few { result ≤ together_of rows.old.left }
    ensures reads { ReadsMore result rows.old rows.new }
{
    let most = most_of(rows.left);
    let mut end = rows.drive.len();
    'vectors: for k in 1..most {
        if !take_unread(rows) {
            return k;
        }
        end = keep_drive(rows, end);
    }
    most
}

// Reads the next vector and those that were read from the store with it, and keeps what is driven for them. How many there are: none
// at the end of the file.
fn next_batch<S: Store, K: Sink>(
    rows: &mut Running,
    store: &mut S,
    sink: &mut K,
) -> Result<usize, Stop>
    requires open { IsSome (S.store_state store.old).current }
    requires fits { IsFitting rows.old }

    ensures stays { StaysOpen (S.store_state store.old) (S.store_state store.new) }
    ensures same { IsSameRun rows.old rows.new }
    ensures fits { OnOk result (IsFitting rows.new) }
    ensures few { IfOk result (λ count. count ≤ together_of rows.old.left) }
    ensures gives { let from = at_rows rows.old (S.store_state store.old) (K.sink_state sink.old) in
        let to = at_rows rows.new (S.store_state store.new) (K.sink_state sink.new) in
        IfOk result (λ count. BatchGives count rows.new from to) }
    ensures refused { let from = at_rows rows.old (S.store_state store.old) (K.sink_state sink.old) in
        let to = at_rows rows.new (S.store_state store.new) (K.sink_state sink.new) in
        IfErr result (λ stop. NextStops stop from to) }
{
    if !next_vector(
        &mut rows.vectors,
        &mut rows.vector,
        &mut rows.block,
        store,
        sink,
    )? {
        return Ok(0);
    }
    keep_drive(rows, 0);
    Ok(read_on(rows))
}

// Makes the cycles of the vectors that were kept, for each copy, and counts them.
fn drive_rows(rows: &mut Running, count: usize, rig: &mut Box<dyn Rig>) -> Result<(), RigFail>
    requires fits { IsFitting rows.old }
    requires few { count ≤ most_together }
    requires pins { width_of (rig_state rig.old) ≡ Some (pins_of rows.old.image.config.shape) }

    ensures same { IsSameBut rows.old rows.new }
    ensures fits { IsFitting rows.new }
    ensures vectors { rows.new.vectors ≡ rows.old.vectors }
    ensures block { rows.new.block ≡ rows.old.block }
    ensures left { OnOk result (rows.new.left ≡ rows.old.left - count) }
    ensures machine { (rig_state rig.new).machine ≡ (rig_state rig.old).machine }
    ensures narrows { Narrows (rig_state rig.old) (rig_state rig.new) }
    ensures tells { Tells (rig_state rig.old) (rig_state rig.new) }
    ensures loads { (rig_state rig.new).loads ≡ (rig_state rig.old).loads }
    ensures failures { (rig_state rig.old).failures ≤ (rig_state rig.new).failures }
    ensures rows { OnOk result (DrivesTo count rows.old (readings_in count rows.new) (rig_state rig.old) (rig_state rig.new)) }
    ensures refused { IfErr result (λ e. CyclesFail e count (rig_state rig.old) (rig_state rig.new)) }
{
    match rows.run.rows(rig, count, &rows.drives, &mut rows.readings) {
        Ok(()) => {
            rows.left = rows.left.saturating_sub(count as u32);
            Ok(())
        }
        Err(fail) => Err(fail),
    }
}

// Makes a row of what the copies read. Where they read differently, the rows that wait are written.
fn compare_row<K: Sink>(rows: &mut Running, sink: &mut K) -> Result<(), Stop>
    requires { IsFitting rows.old }

    ensures same { IsSameRun rows.old rows.new }
    ensures readings { rows.new.readings ≡ rows.old.readings }
    ensures vectors { rows.new.vectors ≡ rows.old.vectors }
    ensures fits { IsFitting rows.new }
    ensures kept { OnOk result ((rows.new.block ≡ rows.old.block) × (K.sink_state sink.new ≡ K.sink_state sink.old)) }
    ensures row { OnOk result (rows.old.reading.items ≡ repeated rows.old.copies rows.new.row.items) }
    ensures refused { IfErr result (λ stop. CompareStops stop rows.old.copies rows.old.reading.items rows.old.block.text rows.new.block.text
        (K.sink_state sink.old) (K.sink_state sink.new)) }
{
    if share_row(rows.copies, &rows.reading, &mut rows.row) {
        return Ok(());
    }
    rows.block.put(sink)?;
    Err(Stop::Refused(Refusal::Differ))
}

// Lets the row that was made wait behind the others, or writes them all.
fn add_row<K: Sink>(rows: &mut Running, sink: &mut K) -> Result<(), Stop>
    requires { IsFitting rows.old }
    ensures same { IsSameRun rows.old rows.new }
    ensures readings { rows.new.readings ≡ rows.old.readings }
    ensures vectors { rows.new.vectors ≡ rows.old.vectors }
    ensures fits { IsFitting rows.new }
    ensures waits { let lines = rows.old.block.text ++ row_line rows.old.row.items in
        WaitsOrPuts lines rows.new.block.text result (K.sink_state sink.old) (K.sink_state sink.new) }
{
    rows.block.add(&rows.row, sink)
}

// Takes the reading of one of the cycles, and says where the next one begins.
fn take_reading(rows: &mut Running, from: usize) -> usize
    requires fits { IsFitting rows.old }
    requires room { from + length rows.old.image.outputs ≤ length rows.old.readings.items }
    ensures same { IsSameRun rows.old rows.new }
    ensures fits { IsFitting rows.new }
    ensures readings { rows.new.readings ≡ rows.old.readings }
    ensures vectors { rows.new.vectors ≡ rows.old.vectors }
    ensures block { rows.new.block ≡ rows.old.block }
    ensures place { result ≡ from + length rows.old.image.outputs }
    ensures reading { rows.new.reading.items ≡ take (length rows.old.image.outputs) (drop from rows.old.readings.items) }
{
    take_bits(&rows.readings, from, &mut rows.reading)
}

// Compares what the copies read in one of the cycles, and lets its row wait. Says where the next reading begins.
fn next_row<K: Sink>(rows: &mut Running, from: usize, sink: &mut K) -> Result<usize, Stop>
    requires fits { IsFitting rows.old }
    requires room { from + length rows.old.image.outputs ≤ length rows.old.readings.items }

    ensures same { IsSameRun rows.old rows.new }
    ensures readings { rows.new.readings ≡ rows.old.readings }
    ensures vectors { rows.new.vectors ≡ rows.old.vectors }
    ensures fits { OnOk result (IsFitting rows.new) }
    ensures place { IfOk result (λ end. end ≡ from + length rows.old.image.outputs) }
    ensures adds { let reading = take (length rows.old.image.outputs) (drop from rows.old.readings.items) in
        OnOk result (HasAddedOne rows.old.copies reading rows.old.block.text rows.new.block.text
        (K.sink_state sink.old) (K.sink_state sink.new)) }
    ensures refused { let reading = take (length rows.old.image.outputs) (drop from rows.old.readings.items) in
        IfErr result (λ stop. AddStops stop rows.old.copies reading rows.old.block.text rows.new.block.text
        (K.sink_state sink.old) (K.sink_state sink.new)) }
{
    let end = take_reading(rows, from);
    compare_row(rows, sink)?;
    add_row(rows, sink)?;
    Ok(end)
}

// Compares what the copies read in these cycles, and lets the rows wait, one after the other.
fn add_rows<K: Sink>(rows: &mut Running, count: usize, sink: &mut K) -> Result<(), Stop>
    requires fits { IsFitting rows.old }
    requires few { count ≤ most_together }

    ensures same { IsSameRun rows.old rows.new }
    ensures vectors { rows.new.vectors ≡ rows.old.vectors }
    ensures fits { OnOk result (IsFitting rows.new) }
    ensures adds { let readings = readings_in count rows.old in
        OnOk result (HasAddedAll rows.old.copies readings rows.old.block.text rows.new.block.text
        (K.sink_state sink.old) (K.sink_state sink.new)) }
    ensures refused { let readings = readings_in count rows.old in
        IfErr result (λ stop. AddsStop stop rows.old.copies readings rows.old.block.text rows.new.block.text
        (K.sink_state sink.old) (K.sink_state sink.new)) }
{
    let mut from = 0;
    'rows: for _k in 0..count {
        from = next_row(rows, from, sink)?;
    }
    Ok(())
}

// Makes the cycles of the vectors that were kept, compares what the copies read, and lets the rows wait. Where the rig makes no
// cycles, the rows that wait are written.
fn make_rows<K: Sink>(
    rows: &mut Running,
    count: usize,
    rig: &mut Box<dyn Rig>,
    sink: &mut K,
) -> Result<(), Stop>
    requires fits { IsFitting rows.old }
    requires few { count ≤ most_together }
    requires pins { width_of (rig_state rig.old) ≡ Some (pins_of rows.old.image.config.shape) }

    ensures same { IsSameBut rows.old rows.new }
    ensures vectors { rows.new.vectors ≡ rows.old.vectors }
    ensures fits { OnOk result (IsFitting rows.new) }
    ensures left { OnOk result (rows.new.left ≡ rows.old.left - count) }
    ensures machine { (rig_state rig.new).machine ≡ (rig_state rig.old).machine }
    ensures narrows { Narrows (rig_state rig.old) (rig_state rig.new) }
    ensures tells { Tells (rig_state rig.old) (rig_state rig.new) }
    ensures loads { (rig_state rig.new).loads ≡ (rig_state rig.old).loads }
    ensures failures { (rig_state rig.old).failures ≤ (rig_state rig.new).failures }
    ensures makes { OnOk result (MakesRows count rows.old rows.old.block.text rows.new.block.text
        (K.sink_state sink.old) (K.sink_state sink.new) (rig_state rig.old) (rig_state rig.new)) }
    ensures refused { IfErr result (λ stop. MakesStop stop count rows.old rows.old.block.text rows.new.block.text
        (K.sink_state sink.old) (K.sink_state sink.new) (rig_state rig.old) (rig_state rig.new)) }
{
    let fail = match drive_rows(rows, count, rig) {
        Ok(()) => return add_rows(rows, count, sink),
        Err(fail) => fail,
    };
    rows.block.put(sink)?;
    Err(Stop::from(fail))
}

// Ends behind the last row. Where there was no vector the rig is asked for no cycles, so that a load which is due is made.
fn end_rows(rows: &mut Running, none: bool, rig: &mut Box<dyn Rig>) -> Result<(), Stop>
    requires fits { IsFitting rows.old }
    requires pins { width_of (rig_state rig.old) ≡ Some (pins_of rows.old.image.config.shape) }

    ensures machine { (rig_state rig.new).machine ≡ (rig_state rig.old).machine }
    ensures narrows { Narrows (rig_state rig.old) (rig_state rig.new) }
    ensures tells { Tells (rig_state rig.old) (rig_state rig.new) }
    ensures loads { (rig_state rig.new).loads ≡ (rig_state rig.old).loads }
    ensures failures { (rig_state rig.old).failures ≤ (rig_state rig.new).failures }
    ensures sent { OnOk result (EndsSent rows.old (rig_state rig.old) (rig_state rig.new)) }
    ensures refused { IfErr result (λ stop. (stop ≡ Refused Rig) × Rose (rig_state rig.old).failures (rig_state rig.new).failures) }
{
    if !none {
        return Ok(());
    }
    match drive_rows(rows, 0, rig) {
        Ok(()) => Ok(()),
        Err(fail) => Err(Stop::from(fail)),
    }
}

// Makes a cycle for each vector of the current file, and writes all rows that wait before the store is read again. Where there is no
// vector the load is sent.
fn write_rows<S: Store, K: Sink>(
    rows: &mut Running,
    store: &mut S,
    rig: &mut Box<dyn Rig>,
    sink: &mut K,
) -> Result<(), Stop>
    requires begun { IsBegun (S.store_state store.old) }
    requires loaded { IsLoaded rows.old (rig_state rig.old) }

    // However often the rig had failed as the command began.
    ensures follows { let old = outside (S.store_state store.old) (rig_state rig.old) (K.sink_state sink.old) in
        let new = outside (S.store_state store.new) (rig_state rig.new) (K.sink_state sink.new) in
        (failures : ℕ) → failures ≤ old.rig.failures →
        let work = copied_rows rows.old.copies rows.old.image (file_of old.store) new.store failures new.rig in
        Follows ⊥ [] ((new.rig.machine ≡ old.rig.machine) × (new.rig.loads ≡ old.rig.loads)) (all_rows work) result old new }
{
    let mut none = true;
    'file: loop {
        let count = next_batch(rows, store, sink)?;
        if count == 0 {
            return end_rows(rows, none, rig);
        }
        make_rows(rows, count, rig, sink)?;
        none = false;
    }
}

// Opens a file of vectors, and writes the line `outputs` and the rows of an image that is loaded.
fn run_rows<S: Store, K: Sink>(
    rows: &mut Running,
    vectors: &str,
    store: &mut S,
    rig: &mut Box<dyn Rig>,
    sink: &mut K,
) -> Result<(), Stop>
    requires { IsLoaded rows.old (rig_state rig.old) }

    // Wherever the store stood as the command began, and however often the rig had loaded and failed.
    ensures follows { let old = outside (S.store_state store.old) (rig_state rig.old) (K.sink_state sink.old) in
        let new = outside (S.store_state store.new) (rig_state rig.new) (K.sink_state sink.new) in
        (files : List (List ℕ)) (begun : StoreState) (failures before : ℕ) → StandsIn files begun old.store → failures ≤ old.rig.failures →
        let image = rows.old.image in
        let work = copied_rows rows.old.copies image (old.store.contents vectors.now) new.store failures new.rig in
        let b : RowsBegin = record { image = image; vectors = vectors.now; files = files; begun = begun; before = before } in
        Follows ⊥ (vectors.now ∷ []) ((new.rig.machine ≡ old.rig.machine) × (new.rig.loads ≡ old.rig.loads))
        (loaded_course work b (around new)) result old new }
{
    open_vectors(store, vectors)?;
    write(sink, b"outputs\n")?;
    write_rows(rows, store, rig, sink)
}

/// Loads an image of one thing or of copies on the machine that is attached, and writes the line `outputs` and, for each vector of
/// a file, what each copy's output pins read. A vector is driven on the input pins of each copy.
///
/// # Errors
///
/// The first step that refuses, in this order: the image is loaded, the file of vectors is started, the line is
/// written, and then each vector is read and driven, what the copies read is compared, and its row written.
pub(crate) fn run_copies<S: Store, K: Sink>(
    alloc: Global,
    image: Image,
    copies: Copies,
    vectors: &str,
    store: &mut S,
    rig: &mut Box<dyn Rig>,
    sink: &mut K,
) -> Result<(), Stop>
    requires shape { shape_of (rig_state rig.old) ≡ Some image.config.shape }
    requires shares { AreEqualShares copies image }

    // Wherever the store stood as the command began, and however often the rig had failed.
    ensures follows { let old = outside (S.store_state store.old) (rig_state rig.old) (K.sink_state sink.old) in
        let new = outside (S.store_state store.new) (rig_state rig.new) (K.sink_state sink.new) in
        (files : List (List ℕ)) (begun : StoreState) (failures : ℕ) → StandsIn files begun old.store → failures ≤ old.rig.failures →
        let rows = copied_rows copies image (old.store.contents vectors.now) new.store failures new.rig in
        let b : RowsBegin = record { image = image; vectors = vectors.now; files = files; begun = begun; before = old.rig.loads } in
        Follows ⊥ (vectors.now ∷ []) (new.rig.machine ≡ old.rig.machine) (image_course rows b (around new)) result old new }
{
    let mut rows = prepare(alloc, image, copies, rig)?;
    run_rows(&mut rows, vectors, store, rig, sink)
}

/// Loads an image on the machine that is attached, and writes the line `outputs` and, for each vector of a file, what
/// the image's output pins read.
///
/// All memory of its own is taken before that line is written, and the rig is asked for room for 4,096 rows. No
/// vector is read or driven before it.
///
/// # Errors
///
/// The first step that refuses, in this order: the image is loaded, the file of vectors is started, the line is
/// written, and then each vector is read and driven and its row written.
pub fn run_image<S: Store, K: Sink>(
    alloc: Global,
    image: Image,
    vectors: &str,
    store: &mut S,
    rig: &mut Box<dyn Rig>,
    sink: &mut K,
) -> Result<(), Stop>
    requires { shape_of (rig_state rig.old) ≡ Some image.config.shape }

    // Wherever the store stood as the command began, and however often the rig had failed.
    ensures follows { let old = outside (S.store_state store.old) (rig_state rig.old) (K.sink_state sink.old) in
        let new = outside (S.store_state store.new) (rig_state rig.new) (K.sink_state sink.new) in
        (files : List (List ℕ)) (begun : StoreState) (failures : ℕ) → StandsIn files begun old.store → failures ≤ old.rig.failures →
        let rows = image_rows image (old.store.contents vectors.now) new.store failures new.rig in
        let b : RowsBegin = record { image = image; vectors = vectors.now; files = files; begun = begun; before = old.rig.loads } in
        Follows ⊥ (vectors.now ∷ []) (new.rig.machine ≡ old.rig.machine) (image_course rows b (around new)) result old new }
{
    run_copies(alloc, image, Copies::One, vectors, store, rig, sink)
}
