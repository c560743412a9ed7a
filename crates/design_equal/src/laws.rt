//! Laws about the definitions, as contracts.

ghost use Rattle.std.specs.Prelude.{◌↔◌, ℕ, Bool, List};
ghost use Rattle.design_netlist.specs.declared.netlist_data.NetlistData.{NetlistData};
ghost use Rattle.design_netlist.specs.Vocabulary.{IsChecked, AreRows};
ghost use Rattle.design_equal.specs.declared.graph.Graph.{Graph};
ghost use Rattle.design_equal.specs.Labels.{DoAgree};

/// Two checked designs that are labelled by one graph, and whose outputs in order have the same labels, have the same rows for
/// every list of vectors.
pub fn labelled_alike()
    ensures { (g : Graph) (a b : NetlistData) (first second : List ℕ) (vectors rows : List (List Bool)) → IsChecked a → IsChecked b →
        DoAgree g a first b second → (AreRows a vectors rows ↔ AreRows b vectors rows) }
{}
