//! Laws about the definitions, as contracts.
ghost use Rattle.std.specs.Prelude.{◌≤◌, ℕ, List, length};
ghost use Rattle.base_text.specs.Size.{most_bytes};
ghost use Rattle.design_netlist.specs.declared.netlist_data.NetlistData.{NetlistData};
ghost use Rattle.design_blif.specs.Designs.{IsDesign};
ghost use Rattle.map_text.specs.Remapped.{IsRemapped};

/// A design's own text is its netlist remapped.
pub fn own_texts_are_remapped()
    ensures { (d : NetlistData) (text : List ℕ) → IsDesign text d → length text ≤ most_bytes → IsRemapped d text d }
{}

/// What is remapped twice is remapped.
pub fn remapping_is_transitive()
    ensures { (d e f : NetlistData) (text again : List ℕ) → IsRemapped d text e → IsRemapped e again f → IsRemapped d again f }
{}
