//! The command that runs generated work on a generated machine.
ghost use Rattle.std.specs.Prelude.{◌≡◌, [], Some, IfOk, OnOk, string_bytes};
ghost use Rattle.machine_bench.specs.Work as work;
ghost use Rattle.cmd_bench.specs.Design.{bench_draft};
ghost use Rattle.cmd_steps.specs.Vocabulary.{StoreState, shape_of, outside, around, Follows, Does, IsLawful, AsksMachine};
ghost use Rattle.cmd_bench.specs.Bench.{bench_course, bench_job, design_laid, design_run, generated_name, list_made};
ghost use Rattle.cmd_bench.specs.Headline.{IsBenched};

use crate::summary::summary;
use crate::work::{bench_netlist, bench_shape, run_work};
use base_io::Sink;
use cmd_steps::{Stop, attach, write};
use design_netlist::Netlist;
use diag_list::list_of;
use machine_defects::Defects;
use machine_shape::Shape;
use place_design::lay;
use place_plan::sound_parts_are_room;
use rig::Rig;
use std::alloc::{AllocError, Global};

// The name of the faults that a number makes.
fn name_of(alloc: Global, n: u32) -> Result<String, AllocError>
    ensures { IfOk result (λ name. string_bytes name ≡ generated_name n) }
{
    format!(in alloc; "@{n}")
}

// How many loads a rig has made.
fn loads_of(rig: &Box<dyn Rig>) -> u64
    ensures { result ≡ (rig_state rig.now).loads }
{
    rig.loads()
}

// The work of a number: its design, and how many loads the rig had made before.
#[derive(Clone, Copy)]
struct Task<'a> {
    n: u32,
    begun: u64,
    netlist: &'a Netlist,
}

// Runs the design on what the list leaves free, and writes the summary with the loads that were made since there were so many.
fn run_on<K: Sink>(
    alloc: Global,
    task: &Task<'_>,
    list: &Defects,
    rig: &mut Box<dyn Rig>,
    sink: &mut K,
) -> Result<(), Stop>
    requires shape { shape_of (rig_state rig.old) ≡ Some list.now.shape }
    requires netlist { task.now.netlist.now ≡ bench_draft }

    // Whatever the store is: it isn't touched.
    ensures { (store : StoreState) →
        let old = outside store (rig_state rig.old) (K.sink_state sink.old) in
        let new = outside store (rig_state rig.new) (K.sink_state sink.new) in
        Follows ⊥ [] (new.rig.machine ≡ old.rig.machine)
        (design_laid task.now.n task.now.netlist.now task.now.begun (store ≡ store) new.rig
        (record { list = list.now; loads = old.rig.loads })) result old new }
{
    crate::generated_faults_leave_room();
    let image = lay(alloc, task.netlist, list)?;
    let ones = run_work(alloc, &image, task.n, rig)?;
    let text = summary(task.n, ones, loads_of(rig).saturating_sub(task.begun));
    write(sink, text.as_bytes())
}

// Lists the defects of the machine that is attached, and runs the design on what the list leaves free.
fn list_and_run<K: Sink>(
    alloc: Global,
    task: &Task<'_>,
    shape: &Shape,
    rig: &mut Box<dyn Rig>,
    sink: &mut K,
) -> Result<(), Stop>
    requires shape { shape_of (rig_state rig.old) ≡ Some shape.now }
    requires netlist { task.now.netlist.now ≡ bench_draft }

    // Whatever the store is: it isn't touched.
    ensures { (store : StoreState) →
        let old = outside store (rig_state rig.old) (K.sink_state sink.old) in
        let new = outside store (rig_state rig.new) (K.sink_state sink.new) in
        old.rig.loads ≡ task.now.begun → Follows ⊥ [] (new.rig.machine ≡ old.rig.machine)
        (list_made task.now.n task.now.begun (store ≡ store) new.rig shape.now task.now.netlist.now) result old new }
{
    let list = list_of(alloc, shape, rig)?;
    run_on(alloc, task, &list, rig, sink)
}

// Makes the design for the machine that is attached, lists the defects, and runs the design.
fn make_and_run<K: Sink>(
    alloc: Global,
    n: u32,
    begun: u64,
    shape: &Shape,
    rig: &mut Box<dyn Rig>,
    sink: &mut K,
) -> Result<(), Stop>
    requires shape { shape_of (rig_state rig.old) ≡ Some shape.now }

    // Whatever the store is: it isn't touched.
    ensures { (store : StoreState) →
        let old = outside store (rig_state rig.old) (K.sink_state sink.old) in
        let new = outside store (rig_state rig.new) (K.sink_state sink.new) in
        old.rig.loads ≡ begun → Follows ⊥ [] (new.rig.machine ≡ old.rig.machine)
        (design_run n begun (store ≡ store) new.rig shape.now) result old new }
{
    let netlist = bench_netlist(alloc)?;
    let task = Task {
        n,
        begun,
        netlist: &netlist,
    };
    list_and_run(alloc, &task, shape, rig, sink)
}

// Attaches the machine, lists its defects, and runs the design on what the list leaves free.
fn work<K: Sink>(alloc: Global, n: u32, rig: &mut Box<dyn Rig>, sink: &mut K) -> Result<(), Stop>
    // Whatever the store is: it isn't touched.
    ensures { (store : StoreState) →
        let old = outside store (rig_state rig.old) (K.sink_state sink.old) in
        let new = outside store (rig_state rig.new) (K.sink_state sink.new) in
        Follows ⊥ [] (AsksMachine (λ m. m.counts ≡ work.bench_counts) (generated_name n) old.rig.machine.asked new.rig.machine.asked)
        (bench_course n (around old) (around new)) result old new }
{
    let begun = loads_of(rig);
    let shape = bench_shape();
    let name = name_of(alloc, n)?;
    attach(rig, &shape, name.as_str())?;
    make_and_run(alloc, n, begun, &shape, rig, sink)
}

/// Attaches the machine that the number makes, lists its defects, lays the generated design on what the list leaves free,
/// drives the generated vectors, and writes a summary. Memory is taken before the image is loaded alone.
///
/// # Errors
///
/// The first step that refuses, in this order: the machine is attached, its defects are listed, there is room for the design,
/// it is loaded, the vectors are driven, and the summary is written.
// The condition always holds: see `attach` of `cmd_steps`.
pub fn bench<K: Sink>(
    alloc: Global,
    n: u32,
    rig: &mut Box<dyn Rig>,
    sink: &mut K,
) -> Result<(), Stop>
    requires always { n ≡ n }

    ensures lawful { IsLawful (bench_job n) }
    ensures done { (store : StoreState) → OnOk result (IsBenched n
        (outside store (rig_state rig.old) (K.sink_state sink.old)) (outside store (rig_state rig.new) (K.sink_state sink.new))) }
    ensures does { (store : StoreState) → Does ⊥ (bench_job n) result
        (outside store (rig_state rig.old) (K.sink_state sink.old)) (outside store (rig_state rig.new) (K.sink_state sink.new)) }
{
    sound_parts_are_room();
    map_network::laws::plain_networks_have_the_rows();
    crate::the_bench_design_is_a_design();
    crate::generated_faults_leave_room();
    work(alloc, n, rig, sink)
}
