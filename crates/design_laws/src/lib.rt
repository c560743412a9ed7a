//! A law about designs: what the definition says of a text of one model that uses no other.
#![tactic(auto)]

ghost use Rattle.std.specs.Prelude.{◌↔◌, ℕ, true, List};
ghost use Rattle.base_text.specs.Lines.{logical_lines};
ghost use Rattle.design_netlist.specs.declared.netlist_data.NetlistData.{NetlistData};
ghost use Rattle.design_blif.specs.Designs.{IsDesign};
ghost use Rattle.design_laws.specs.ShortDesigns.{AreOfOneModel, IsShortDesign};

/// A text of one model that uses no other is the text of a design exactly where that is what its lines say one by one.
pub fn one_model_is_short()
    ensures { (bytes : List ℕ) (draft : NetlistData) → AreOfOneModel (logical_lines true bytes) →
        IsDesign bytes draft ↔ IsShortDesign bytes draft }
{}
