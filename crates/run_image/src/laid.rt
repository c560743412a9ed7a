//! What is laid on a machine, and run.
ghost use Rattle.std.specs.Prelude.{◌≡◌, ◌≤◌, ℕ, List, ◌∷◌, [], Some};
ghost use Rattle.machine_defects.specs.Lists.{DefectList};
ghost use Rattle.diag_list.specs.Lists.{Listed};
ghost use Rattle.machine_image.specs.Images.{ImageValue};
ghost use Rattle.cmd_steps.specs.Vocabulary.{StoreState, shape_of, Outside, outside, around, StandsIn, Took, Follows};
ghost use Rattle.run_image.specs.Laid.{Laid, IsLaidOn};
ghost use Rattle.run_image.specs.Runs.{HasList, RunBegin, laid_run, machine_listed};

use crate::copies::Copies;
use crate::image::run_copies;
use base_io::{Sink, Store};
use cmd_steps::Stop;
use diag_list::write_list;
use machine_defects::Defects;
use machine_image::Image;
use machine_shape::Shape;
use rig::Rig;
use std::alloc::Global;

/// What can be laid on a machine: one design, several side by side, or copies of one that are driven alike.
///
/// Contracts see the step that lays it, how many bits a vector has, and what the rows are. Each image that the step gives is
/// right for these rows under all faults that the list covers.
pub trait Lays {
    ghost laid: { Self → Laid };

    /// An image on what the list leaves free.
    ///
    /// # Errors
    ///
    /// What its step says: the refusal for want of room, or out of memory.
    fn lay(&self, alloc: Global, list: &Defects) -> Result<Image, Stop>
        // Whatever is around it.
        ensures took { (o : Outside) → Took [] ((laid self.now).lays list.now) result o o };

    /// How many copies of it stand side by side that are driven alike.
    fn copies(&self) -> Copies
        ensures { result ≡ (laid self.now).copies };

    ghost right: { (x : Self) (d : DefectList) (i : ImageValue) → ((laid x).lays d).gives i → IsLaidOn (laid x) d i };
}

// Lays what is given on what a list of the machine's defects leaves free, and runs it.
fn lay_and_run<L: Lays, S: Store, K: Sink>(
    alloc: Global,
    list: &Defects,
    what: &L,
    vectors: &str,
    store: &mut S,
    rig: &mut Box<dyn Rig>,
    sink: &mut K,
) -> Result<(), Stop>
    requires { shape_of (rig_state rig.old) ≡ Some list.now.shape }

    // Wherever the store stood as the command began, however often the rig had failed, and whatever was read since.
    ensures follows { let old = outside (S.store_state store.old) (rig_state rig.old) (K.sink_state sink.old) in
        let new = outside (S.store_state store.new) (rig_state rig.new) (K.sink_state sink.new) in
        let listed : Listed = record { list = list.now; loads = old.rig.loads } in
        (before failures : ℕ) (files : List (List ℕ)) (begun : StoreState) →
        HasList before old.rig listed → failures ≤ old.rig.failures →
        StandsIn files begun old.store → old.store.contents ≡ begun.contents →
        let b : RunBegin = record { begun = begun; failures = failures; files = files; vectors = vectors.now } in
        Follows ⊥ (vectors.now ∷ []) (new.rig.machine ≡ old.rig.machine)
        (laid_run (L.laid what.now) b (around new) listed) result old new }
{
    let image = what.lay(alloc, list)?;
    run_copies(alloc, image, what.copies(), vectors, store, rig, sink)
}

/// Lists the defects of the machine that is attached and writes the list. Then lays what is given on what the list leaves free,
/// loads its image, and writes the line `outputs` and a row for each vector. Of copies a row is what each of them read.
///
/// # Errors
///
/// The first step that refuses, in this order: the defects are listed and the list is written; there is room; the image is loaded,
/// the file of vectors is started, the line is written, and then each vector is read and driven, what copies read is compared, and
/// its row written.
pub fn list_and_run<L: Lays, S: Store, K: Sink>(
    alloc: Global,
    shape: &Shape,
    what: &L,
    vectors: &str,
    store: &mut S,
    rig: &mut Box<dyn Rig>,
    sink: &mut K,
) -> Result<(), Stop>
    requires { shape_of (rig_state rig.old) ≡ Some shape.now }

    // Wherever the store stood as the command began, however often the rig had failed, and whatever was read since.
    ensures follows { let old = outside (S.store_state store.old) (rig_state rig.old) (K.sink_state sink.old) in
        let new = outside (S.store_state store.new) (rig_state rig.new) (K.sink_state sink.new) in
        (before failures : ℕ) (files : List (List ℕ)) (begun : StoreState) → old.rig.loads ≡ before → failures ≤ old.rig.failures →
        StandsIn files begun old.store → old.store.contents ≡ begun.contents →
        let b : RunBegin = record { begun = begun; failures = failures; files = files; vectors = vectors.now } in
        Follows ⊥ (vectors.now ∷ []) (new.rig.machine ≡ old.rig.machine)
        (machine_listed (L.laid what.now) shape.now before b (around new)) result old new }
{
    let list = write_list(alloc, shape, rig, sink)?;
    lay_and_run(alloc, &list, what, vectors, store, rig, sink)
}
