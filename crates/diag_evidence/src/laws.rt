//! What later crates rest on, of proofs and tests.
ghost use Rattle.std.specs.Prelude.{◌≡◌, ℕ, Bool, true, false, [], List, Option, Some};
ghost use Rattle.machine_meaning.specs.Vocabulary.{Pins, Faults};
ghost use Rattle.machine_shape.specs.declared.Shape.{Shape};
ghost use Rattle.machine_config.specs.Vocabulary.{Configuration, with_setting, among, AreReleased, IsDrivenAlone};
ghost use Rattle.machine_config.specs.declared.Setting.{Setting};
ghost use Rattle.rig.specs.Rig.{RigState};
ghost use Rattle.diag_tests.specs.Vocabulary.{IsLoopConfig, IsCellConfig, Walk, IsRoute};
ghost use Rattle.diag_evidence.specs.Kept.{Kept, HoldsFor, HoldsUntried, KeepsNothing, IsMore, Advances, keeps_cross, keeps_pair};
ghost use Rattle.diag_evidence.specs.Loops.{LoopPasses, RoutePasses};
ghost use Rattle.diag_evidence.specs.Readings.{CrossPasses, CellPasses, RegisterPasses, SwingPasses};
ghost use Rattle.diag_evidence.specs.Tables.{CellPassesBy, RegisterPassesBy};

/// What keeps nothing is true of all faults. A kept pair is of two different wires, in either order.
pub fn kept_facts_are_sound()
    ensures nothing { (k : Kept) (f : Faults) → KeepsNothing k → HoldsFor k f }
    ensures differ { (k : Kept) (a : ℕ) → keeps_pair k a a ≡ false }
    ensures turned { (k : Kept) (a b : ℕ) → keeps_pair k a b ≡ keeps_pair k b a }
{}

/// What two calls leave, one after the other, and what a call that makes no load does. What is kept later is true only of faults of which
/// it was true before, the row of a wire on trial left out, and what is kept is so without it.
pub fn tests_add_up()
    ensures itself { (s : RigState) (k : Kept) → Advances s s k k }
    ensures onward { (a b c : RigState) (k l n : Kept) → Advances a b k l → Advances b c l n → Advances a c k n }
    ensures stays { (s : RigState) (k l : Kept) → IsMore k l → ((f : Faults) → HoldsFor k f → HoldsFor l f) → Advances s s k l }
    ensures earlier { (k l : Kept) (f : Faults) → IsMore k l → HoldsUntried l f → HoldsUntried k f }
    ensures untried { (k : Kept) (f : Faults) → HoldsFor k f → HoldsUntried k f }
{}

/// Where just two routes and the ties are closed, the tests pass that are bound to by lists: a toggle of a tie in a
/// loop, and a swing of a route.
pub fn tests_by_lists_pass()
    ensures toggle { (told : Option Faults) (k : Kept) (g : Configuration) (left right : Walk) (ties : List ℕ) (x : ℕ) (drive : Pins)
        (yes : Bool) →
        IsLoopConfig k.shape left right ties g → IsRoute k.shape left → IsRoute k.shape right →
        ((y : ℕ) → among left.crosses y ≡ true → keeps_cross k y ≡ true) →
        ((y : ℕ) → among right.crosses y ≡ true → keeps_cross k y ≡ true) →
        among ties x ≡ true → IsDrivenAlone drive left.pin → CrossPasses told g x drive right.pin yes →
        LoopPasses told k left right ties x yes }
    ensures test_stuck { (told : Option Faults) (m : Shape) (g : Configuration) (r : Walk) (low high : Pins) (yes : Bool) →
        IsLoopConfig m r r [] g → IsRoute m r → IsDrivenAlone low r.pin → AreReleased high → SwingPasses told g low high r.pin yes →
        RoutePasses told m r yes }
{}

/// Where just two routes and the ties are closed and one table is on, the tests of its cells and its register pass that
/// are bound to by lists.
pub fn table_tests_by_lists_pass()
    ensures cell { (told : Option Faults) (k : Kept) (g : Configuration) (left right : Walk) (ties : List ℕ) (t cells a : ℕ)
        (drive : Pins) (yes : Bool) →
        IsCellConfig k.shape left right ties t cells g → IsRoute k.shape left → IsRoute k.shape right →
        ((y : ℕ) → among left.crosses y ≡ true → keeps_cross k y ≡ true) →
        ((y : ℕ) → among right.crosses y ≡ true → keeps_cross k y ≡ true) →
        IsDrivenAlone drive left.pin → CellPasses told g t a drive right.pin yes → CellPassesBy told k left right ties t a yes }
    ensures register { (told : Option Faults) (k : Kept) (g : Configuration) (left right : Walk) (ties : List ℕ) (t cells : ℕ)
        (s : Setting) (drive : Pins) (yes : Bool) →
        IsCellConfig k.shape left right ties t cells g → IsRoute k.shape left → IsRoute k.shape right →
        ((y : ℕ) → among left.crosses y ≡ true → keeps_cross k y ≡ true) →
        ((y : ℕ) → among right.crosses y ≡ true → keeps_cross k y ≡ true) →
        IsDrivenAlone drive left.pin → s.latched ≡ true → RegisterPasses told (with_setting g t (Some s)) t drive right.pin yes →
        RegisterPassesBy told k left right ties t yes }
{}
