//! What later crates rest on, of joined wires, their values, and lists of defects.
ghost use Rattle.std.specs.Prelude.{◌≡◌, ◌≢◌, ◌↔◌, ℕ, Bool, true, ◌<◌, ◌≤◌, None, IsSome};
ghost use Rattle.machine_meaning.specs.Circuit.{Circuit, Outputs, Pins};
ghost use Rattle.machine_meaning.specs.Defects.{Defects, Covers, IsClear, IsFreeWire, IsFreeCross, IsFreeTable};
ghost use Rattle.machine_meaning.specs.Faults.{Faults, IsFaultless, stuck_wire, stuck_cross, wrong_cell, stuck_register, is_bridge};
ghost use Rattle.machine_meaning.specs.Joined.{Joined, JoinedByList, Net, Shorted, net_of, plain_net};
ghost use Rattle.machine_shape.specs.Shape.{Ends, ends_of, wires_of, crosses_of, tables_of};
ghost use Rattle.machine_meaning.specs.Sound.{IsSoundWire, IsSoundCross, IsSoundTable};
ghost use Rattle.machine_meaning.specs.Value.{IsValue, AreValues, IsFinite};
ghost use Rattle.machine_shape.specs.declared.Shape.{Shape};

/// To be joined is an equivalence.
pub fn joined_is_an_equivalence()
    ensures itself { (net : Net) (a : ℕ) → Joined net a a }
    ensures turned { (net : Net) (a b : ℕ) → Joined net a b → Joined net b a }
    ensures onward { (net : Net) (a b c : ℕ) → Joined net a b → Joined net b c → Joined net a c }
{}

/// Wires are joined exactly where a finite list of wires leads from one to the other.
pub fn joined_is_a_list()
    ensures { (net : Net) (a b : ℕ) → Joined net a b ↔ JoinedByList net a b }
{}

/// With more crosspoints closed, more is joined. What is shorted is joined.
pub fn joined_grows()
    ensures more { (m : Shape) (f : Faults) (closed more : ℕ → Bool) → ((x : ℕ) → closed x ≡ true → more x ≡ true) →
        (a b : ℕ) → Joined (net_of m f closed) a b → Joined (net_of m f more) a b }
    ensures shorted { (m : Shape) (f : Faults) (closed : ℕ → Bool) (a b : ℕ) → Shorted m f a b → Joined (net_of m f closed) a b }
{}

/// A wire has one value at most, and joined wires have the same.
pub fn values_are_unique()
    ensures one { (c : Circuit) (drive : Pins) (outputs : Outputs) (w : ℕ) (a b : Bool) → IsValue c drive outputs w a →
        IsValue c drive outputs w b → a ≡ b }
    ensures same { (c : Circuit) (drive : Pins) (outputs : Outputs) (w u : ℕ) (b : Bool) → Joined c.net w u →
        IsValue c drive outputs w b → IsValue c drive outputs u b }
{}

/// In a finite circuit each wire has a value, whatever its pins and tables drive.
pub fn values_exist()
    ensures { (c : Circuit) → IsFinite c → (drive : Pins) (outputs : Outputs) → ((t : ℕ) → tables_of c.net.shape ≤ t → outputs t ≡ true) →
        (value : ℕ → Bool) × AreValues c drive outputs value }
{}

/// A sound wire is shorted to no stuck wire, and to no other wire.
pub fn sound_wires_are_clear()
    ensures clear { (m : Shape) (f : Faults) (w : ℕ) → IsSoundWire m f w → IsClear m f w }
    ensures alone { (m : Shape) (f : Faults) (w u : ℕ) → IsSoundWire m f w → u ≢ w → ¬ Shorted m f w u }
{}

/// Take sound wires such that each closed crosspoint that touches one of them has both its ends among
/// them. Then all that is joined to one of them is among them, whatever faults there are elsewhere.
pub fn sound_wires_stay_apart()
    ensures { (m : Shape) (f : Faults) (closed within : ℕ → Bool) →
        ((w : ℕ) → within w ≡ true → IsSoundWire m f w) →
        ((x a b : ℕ) → closed x ≡ true → Ends (ends_of m x) a b → within a ≡ true → within b ≡ true) →
        (a b : ℕ) → within a ≡ true → Joined (net_of m f closed) a b → within b ≡ true }
{}

/// Without faults every wire, crosspoint and table is sound.
pub fn without_faults_all_is_sound()
    ensures wires { (m : Shape) (f : Faults) → IsFaultless f → (w : ℕ) → IsSoundWire m f w }
    ensures crosses { (m : Shape) (f : Faults) → IsFaultless f → (x : ℕ) → IsSoundCross m f x }
    ensures tables { (m : Shape) (f : Faults) → IsFaultless f → (t : ℕ) → IsSoundTable m f t }
{}

/// Every list covers the empty fault set.
pub fn every_list_covers_no_faults()
    ensures { (m : Shape) (d : Defects) (f : Faults) → IsFaultless f → Covers m d f }
{}

/// Where a list covers the faults, it lists each stuck wire, and one end of each bridge at least. A stuck
/// crosspoint is not free, and neither is a table with a wrong cell or a stuck register.
pub fn listed_is_what_is_faulty()
    ensures wires { (m : Shape) (d : Defects) (f : Faults) → Covers m d f → (w : ℕ) → w < wires_of m → IsSome (stuck_wire f w) →
        ¬ IsFreeWire d w }
    ensures crosses { (m : Shape) (d : Defects) (f : Faults) → Covers m d f → (x : ℕ) → x < crosses_of m → IsSome (stuck_cross f x) →
        ¬ IsFreeCross m d x }
    ensures cells { (m : Shape) (d : Defects) (f : Faults) → Covers m d f → (t a : ℕ) → t < tables_of m → a < 64 →
        IsSome (wrong_cell f t a) → ¬ IsFreeTable m d t }
    ensures registers { (m : Shape) (d : Defects) (f : Faults) → Covers m d f → (t : ℕ) → t < tables_of m → IsSome (stuck_register f t) →
        ¬ IsFreeTable m d t }
    ensures bridges { (m : Shape) (d : Defects) (f : Faults) → Covers m d f → (w u : ℕ) → w < wires_of m → u < wires_of m →
        is_bridge f (w, u) ≡ true → w ≢ u → IsFreeWire d w → ¬ IsFreeWire d u }
{}

/// Where a list covers the faults and all closed crosspoints are free, a free wire is joined to no stuck
/// wire, and to another free wire only over closed crosspoints.
pub fn covered_wires_are_as_without_faults()
    ensures { (m : Shape) (d : Defects) (f : Faults) (closed : ℕ → Bool) → Covers m d f →
        ((x : ℕ) → closed x ≡ true → (x < crosses_of m) × IsFreeCross m d x) →
        (w v : ℕ) → w < wires_of m → IsFreeWire d w → Joined (net_of m f closed) w v →
        (stuck_wire f v ≡ None) × (v < wires_of m → IsFreeWire d v → Joined (plain_net m closed) w v) }
{}
