//! Laws about the definitions, as contracts.

ghost use Rattle.std.specs.Prelude.{◌≡◌, ℕ, List};
ghost use Rattle.design_netlist.specs.declared.netlist_data.NetlistData.{NetlistData};
ghost use Rattle.design_blif.specs.Designs.{IsDesign};

/// The text of a design is the text of no other.
pub fn a_text_has_one_design()
    ensures { (bytes : List ℕ) (a b : NetlistData) → IsDesign bytes a → IsDesign bytes b → a ≡ b }
{}
