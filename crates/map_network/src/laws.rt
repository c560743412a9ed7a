//! Laws about the definitions, as contracts.

ghost use Rattle.std.specs.Prelude.{◌≡◌, Bool, List, All, length};
ghost use Rattle.design_netlist.specs.declared.netlist_data.NetlistData.{NetlistData};
ghost use Rattle.design_netlist.specs.Checks.{IsChecked};
ghost use Rattle.map_network.specs.declared.network.Network.{Network};
ghost use Rattle.map_network.specs.Networks.{IsNetwork};
ghost use Rattle.map_network.specs.Rows.{HasOneRows, HasRowsOf};
ghost use Rattle.map_network.specs.Plain.{plain_network};

/// A network has exactly one list of rows for each list of vectors of the right length.
pub fn networks_have_one_list_of_rows()
    ensures { (n : Network) (vectors : List (List Bool)) → IsNetwork n → All (λ v. length v ≡ n.inputs) vectors → HasOneRows n vectors }
{}

/// The plain network of a checked design is a network, and has the design's rows.
pub fn plain_networks_have_the_rows()
    ensures network { (d : NetlistData) → IsChecked d → IsNetwork (plain_network d) }
    ensures rows { (d : NetlistData) → IsChecked d → HasRowsOf (plain_network d) d }
{}
