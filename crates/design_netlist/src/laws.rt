//! Laws about the definitions, as contracts.

ghost use Rattle.std.specs.Prelude.{◌≡◌, ◌<◌, ℕ, Bool, List, All, length, map, false};
ghost use Rattle.design_netlist.specs.declared.netlist_data.NetlistData.{NetlistData};
ghost use Rattle.design_netlist.specs.Drafts.{IsDriven};
ghost use Rattle.design_netlist.specs.Checks.{IsChecked};
ghost use Rattle.design_netlist.specs.Rows.{IsRightValuation, HasOneRight, HasOneRows};
ghost use Rattle.design_netlist.specs.declared.netlist_data.Cover.{Cover};
ghost use Rattle.design_netlist.specs.Covers.{cover_at, IsOnCycle};
ghost use Rattle.design_netlist.specs.Valuations.{HasOneValuation, IsSettled};

/// Covers that drive different signals and are on no cycle have exactly one valuation, whatever the other signals
/// are.
pub fn covers_have_one_valuation()
    ensures { (covers : List Cover) (base : ℕ → Bool) →
        ((i j : ℕ) → i < j → j < length covers → (cover_at covers i).out ≡ (cover_at covers j).out → ⊥) →
        ((i : ℕ) → i < length covers → IsOnCycle covers i → ⊥) → HasOneValuation covers base }
{}

/// A checked design has exactly one right valuation for each state and each vector of the right lengths.
pub fn designs_have_one_right_valuation()
    ensures { (d : NetlistData) (state vector : List Bool) → IsChecked d → length state ≡ length d.latches → length vector ≡ length d.inputs →
        HasOneRight d state vector }
{}

/// A checked design has exactly one list of rows for each list of vectors of the right length.
pub fn designs_have_one_list_of_rows()
    ensures { (d : NetlistData) (vectors : List (List Bool)) → IsChecked d → All (λ v. length v ≡ length d.inputs) vectors →
        HasOneRows d vectors }
{}

/// Covers of a checked design that are settled over the vector, the state and 0 for signals that nothing drives have
/// a right valuation.
pub fn settled_valuations_are_right()
    ensures { (d : NetlistData) (state vector : List Bool) (base given : ℕ → Bool) → IsChecked d → map (λ p. base p.signal) d.inputs ≡ vector →
        map (λ l. base l.out) d.latches ≡ state → ((s : ℕ) → (IsDriven d s → ⊥) → base s ≡ false) → IsSettled d.covers base given →
        IsRightValuation d state vector given }
{}
