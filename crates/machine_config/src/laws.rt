//! What later crates rest on, of configurations and their runs. The laws on readings hold whatever faults
//! there are elsewhere.
ghost use Rattle.std.specs.Prelude.{◌≡◌, ◌≢◌, ◌==◌, ℕ, ◌<◌, Bool, true, false, if◌then◌else◌, List, [], ◌∷◌, ◌++◌, Option, Some, None};
ghost use Rattle.std.specs.Prelude.{length, take, slice_get, slice_index_or};
ghost use Rattle.std.specs.List.{AllByRecursion};
ghost use Rattle.machine_meaning.specs.Vocabulary.{Circuit, Outputs, Pins, IsClear, Faults, AreFaultsOf, stuck_cross, wrong_cell};
ghost use Rattle.machine_meaning.specs.Vocabulary.{stuck_register, Joined, Shorted, net_of, IsSoundWire};
ghost use Rattle.machine_shape.specs.Shape.{pin_wire, pins_of};
ghost use Rattle.machine_shape.specs.declared.Shape.{Shape};
ghost use Rattle.machine_config.specs.Configuration.{Configuration, IsConfiguration, is_closed, setting_of, with_closed, with_open};
ghost use Rattle.machine_config.specs.Configuration.{with_setting, cell_of, with_cell, with_init};
ghost use Rattle.machine_config.specs.Distance.{OpensFarFrom};
ghost use Rattle.machine_config.specs.Faulty.{circuit_of, IsRun};
ghost use Rattle.machine_config.specs.Groups.{AreGroups};
ghost use Rattle.machine_config.specs.Route.{LeadsTo};
ghost use Rattle.machine_config.specs.Run.{Cycle, Cycles, at_load};
ghost use Rattle.machine_config.specs.Tests.{AreOff, AreReleased, IsDrivenAlone, IsDrivenIn, IsLoose, IsLoop, IsCellTest, IsRegisterTest};
ghost use Rattle.machine_config.specs.declared.Setting.{Setting};

/// What is closed once a crosspoint is closed or opened. Closing a closed one and opening an open one
/// change nothing, and each undoes the other.
pub fn closing_and_opening_are_exact()
    ensures closed { (g : Configuration) (x y : ℕ) → is_closed (with_closed g x) y ≡ (if y == x then true else is_closed g y) }
    ensures open { (g : Configuration) (x y : ℕ) → is_closed (with_open g x) y ≡ (if y == x then false else is_closed g y) }
    ensures closed_already { (g : Configuration) (x : ℕ) → is_closed g x ≡ true → with_closed g x ≡ g }
    ensures open_already { (g : Configuration) (x : ℕ) → is_closed g x ≡ false → with_open g x ≡ g }
    ensures opened_again { (g : Configuration) (x : ℕ) → is_closed g x ≡ false → with_open (with_closed g x) x ≡ g }
    ensures closed_again { (g : Configuration) (x : ℕ) → is_closed g x ≡ true → with_closed (with_open g x) x ≡ g }
{}

/// What a table does once its setting is changed. A later change undoes an earlier one.
pub fn settings_are_exact()
    ensures same { (g : Configuration) (t : ℕ) (s : Option Setting) → t < length g.tables → setting_of (with_setting g t s) t ≡ s }
    ensures others { (g : Configuration) (t u : ℕ) (s : Option Setting) → u ≢ t → setting_of (with_setting g t s) u ≡ setting_of g u }
    ensures over { (g : Configuration) (t : ℕ) (s later : Option Setting) →
        with_setting (with_setting g t s) t later ≡ with_setting g t later }
    ensures back { (g : Configuration) (t : ℕ) (s : Option Setting) → with_setting (with_setting g t s) t (setting_of g t) ≡ g }
{}

/// What a cell gives once one is set.
pub fn cells_are_set()
    ensures { (s : Setting) (a y : ℕ) (b : Bool) → cell_of (with_cell s a b) y ≡ (if y == a then b else cell_of s y) }
{}

/// A machine gives exactly one reading for each drive.
pub fn runs_are_one()
    ensures exists { (f : Faults) (g : Configuration) → AreFaultsOf g.shape f → IsConfiguration g → (drives : List Pins) →
        (reads : List Pins) × IsRun f g drives reads }
    ensures unique { (f : Faults) (g : Configuration) (drives reads others : List Pins) → IsRun f g drives reads →
        IsRun f g drives others → reads ≡ others }
    ensures answers { (f : Faults) (g : Configuration) (drives reads : List Pins) → IsRun f g drives reads → length reads ≡ length drives }
    ensures pins { (f : Faults) (g : Configuration) (drives reads : List Pins) → IsRun f g drives reads →
        AllByRecursion (λ r. length r ≡ pins_of g.shape) reads }
{}

/// A run goes on by one cycle, and what was read before stays.
pub fn runs_go_on()
    ensures cycles { (c : Circuit) (before mid after : Outputs) (drives reads : List Pins) (drive read : Pins) →
        Cycles c before drives reads mid → Cycle c mid drive read after →
        Cycles c before (drives ++ drive ∷ []) (reads ++ read ∷ []) after }
    ensures before { (f : Faults) (g : Configuration) (drives more reads : List Pins) → IsRun f g (drives ++ more) reads →
        IsRun f g drives (take (length drives) reads) }
{}

/// A latched table with a stuck register gives the register's value in every state, the first too. The
/// registers of combinational tables have no effect.
pub fn stuck_registers_hold()
    ensures latched { (f : Faults) (g : Configuration) (t : ℕ) (s : Setting) (v : Bool) → setting_of g t ≡ Some s → s.latched ≡ true →
        stuck_register f t ≡ Some v →
        (drives reads : List Pins) (outputs : Outputs) → Cycles (circuit_of f g) (at_load (circuit_of f g)) drives reads outputs →
        outputs t ≡ v }
    ensures combinational { (f h : Faults) (g : Configuration) → f.wires ≡ h.wires → f.crosses ≡ h.crosses → f.cells ≡ h.cells →
        f.bridges ≡ h.bridges →
        ((t : ℕ) (s : Setting) → setting_of g t ≡ Some s → s.latched ≡ true → stuck_register f t ≡ stuck_register h t) →
        (drives reads : List Pins) → IsRun f g drives reads → IsRun h g drives reads }
{}

/// A stuck crosspoint acts alike closed and open, a wrong cell alike at 0 and at 1, and a stuck register
/// alike whatever the initial bit. So a reading that differs shows that it isn't so.
pub fn toggles_show()
    ensures cross { (f : Faults) (g : Configuration) (x : ℕ) (drives reads others : List Pins) →
        IsRun f (with_closed g x) drives reads → IsRun f (with_open g x) drives others → reads ≢ others → stuck_cross f x ≡ None }
    ensures cell { (f : Faults) (g : Configuration) (t a : ℕ) (s : Setting) (drives reads others : List Pins) →
        IsRun f (with_setting g t (Some (with_cell s a true))) drives reads →
        IsRun f (with_setting g t (Some (with_cell s a false))) drives others →
        reads ≢ others → wrong_cell f t a ≡ None }
    ensures register { (f : Faults) (g : Configuration) (t : ℕ) (s : Setting) (drives reads others : List Pins) → s.latched ≡ true →
        IsRun f (with_setting g t (Some (with_init s true))) drives reads →
        IsRun f (with_setting g t (Some (with_init s false))) drives others →
        reads ≢ others → stuck_register f t ≡ None }
{}

/// Where a pin reads differently in two cycles, no wire that the pin is joined to is shorted to a stuck
/// wire.
pub fn a_swing_shows()
    ensures { (f : Faults) (g : Configuration) (first later r q : Pins) (k w : ℕ) →
        IsRun f g (first ∷ later ∷ []) (r ∷ q ∷ []) → k < pins_of g.shape → slice_index_or r k true ≢ slice_index_or q k true →
        Joined (net_of g.shape f (is_closed g)) (pin_wire g.shape k) w → IsClear g.shape f w }
{}

/// Where two pins read differently, no wire that the one is joined to is shorted to one that the other is.
pub fn apart_shows()
    ensures { (f : Faults) (g : Configuration) (drive r : Pins) (k l w u : ℕ) →
        IsRun f g (drive ∷ []) (r ∷ []) → k < pins_of g.shape → l < pins_of g.shape → slice_index_or r k true ≢ slice_index_or r l true →
        Joined (net_of g.shape f (is_closed g)) (pin_wire g.shape k) w → Joined (net_of g.shape f (is_closed g)) (pin_wire g.shape l) u →
        ¬ Shorted g.shape f w u }
{}

/// The wires of a route of closed crosspoints that aren't stuck are joined to its start.
pub fn routes_are_joined()
    ensures { (f : Faults) (g : Configuration) (a e : ℕ) (xs ws : List ℕ) → LeadsTo g.shape a xs ws e →
        AllByRecursion (λ x. is_closed g x ≡ true) xs → AllByRecursion (λ x. stuck_cross f x ≡ None) xs →
        AllByRecursion (λ w. Joined (net_of g.shape f (is_closed g)) a w) ws }
{}

/// Where all tables are off, closed crosspoints have both ends in one of two groups of wires, no wire of these
/// is shorted to a stuck one, and none of one group to one of the other, the tests of wires and crosspoints
/// pass. So do those of a cell and of a register, where one table alone is on.
pub fn tests_pass()
    ensures apart { (f : Faults) (g : Configuration) (left right : ℕ → Bool) (drive r : Pins) (k l : ℕ) → AreOff g →
        AreGroups g.shape f (is_closed g) left right →
        k < pins_of g.shape → l < pins_of g.shape → left (pin_wire g.shape k) ≡ true → right (pin_wire g.shape l) ≡ true →
        IsDrivenAlone drive k →
        IsRun f g (drive ∷ []) (r ∷ []) → (slice_index_or r k true ≡ false) × (slice_index_or r l true ≡ true) }
    ensures swing { (f : Faults) (g : Configuration) (left right : ℕ → Bool) (low high r q : Pins) (k : ℕ) → AreOff g →
        AreGroups g.shape f (is_closed g) left right →
        k < pins_of g.shape → left (pin_wire g.shape k) ≡ true → slice_index_or low k true ≡ false → AreReleased high →
        IsRun f g (low ∷ high ∷ []) (r ∷ q ∷ []) → (slice_index_or r k true ≡ false) × (slice_index_or q k true ≡ true) }
    ensures toggle { (f : Faults) (g : Configuration) (x k l : ℕ) (left right : ℕ → Bool) (drive r q : Pins) →
        IsLoop f g x left right k l → IsDrivenIn g.shape drive k left →
        IsRun f g (drive ∷ []) (r ∷ []) → IsRun f (with_open g x) (drive ∷ []) (q ∷ []) → (slice_index_or r l true ≡ false)
        × (slice_index_or q l true ≡ true) }
    ensures cell { (f : Faults) (g : Configuration) (t a k l : ℕ) (s : Setting) (left right bits : ℕ → Bool) (drive r : Pins) →
        IsCellTest f g t a s left right bits k l → IsDrivenAlone drive k →
        l < pins_of g.shape → IsRun f g (drive ∷ []) (r ∷ []) → slice_index_or r l true ≡ cell_of s a }
    ensures register { (f : Faults) (g : Configuration) (t l : ℕ) (s : Setting) (left right : ℕ → Bool) (drive r : Pins) →
        IsRegisterTest f g t s left right drive l → l < pins_of g.shape → IsRun f g (drive ∷ []) (r ∷ []) →
        slice_index_or r l true ≡ s.init }
{}

/// A pin that alone is driven 0 is driven in its group, and a sound wire that is in neither of two groups is loose.
pub fn sound_parts_serve()
    ensures driven { (m : Shape) (drive : Pins) (k : ℕ) (group : ℕ → Bool) → group (pin_wire m k) ≡ true → IsDrivenAlone drive k →
        IsDrivenIn m drive k group }
    ensures loose { (m : Shape) (f : Faults) (left right : ℕ → Bool) (w : ℕ) → IsSoundWire m f w → left w ≡ false → right w ≡ false →
        IsLoose m f left right w }
{}

/// With all tables off no cycle leaves anything behind: each reading of a run is that of a first cycle under its drive.
pub fn cycles_alike()
    ensures { (f : Faults) (g : Configuration) (drives reads : List Pins) (k : ℕ) (drive read : Pins) → AreOff g → IsRun f g drives reads →
        slice_get drives k ≡ Some drive → slice_get reads k ≡ Some read → IsRun f g (drive ∷ []) (read ∷ []) }
{}

/// Of two configurations with all tables off the second is the first with some crosspoints open, one of them x, and each other of
/// these has an end that isn't joined to a pin. Where this pin reads otherwise under one drive, x isn't stuck: if it were, all
/// that is joined to the pin in the first would be in the second, and nothing else.
pub fn change_at_a_distance()
    ensures { (f : Faults) (g h : Configuration) (x k : ℕ) (drive r s : Pins) → AreOff g → AreOff h → k < pins_of g.shape →
        OpensFarFrom f g h x (pin_wire g.shape k) → IsRun f g (drive ∷ []) (r ∷ []) → IsRun f h (drive ∷ []) (s ∷ []) →
        slice_index_or r k true ≢ slice_index_or s k true → stuck_cross f x ≡ None }
{}
