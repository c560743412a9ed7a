//! That nets which are laid on free parts read their network's rows, whatever faults a list covers.
ghost use Rattle.std.specs.Prelude.{◌≡◌, ℕ, Option, Some};
ghost use Rattle.machine_meaning.specs.Vocabulary.{Defects, Covers, Faults};
ghost use Rattle.machine_config.specs.Configuration.{Configuration, is_closed};
ghost use Rattle.machine_image.specs.Vocabulary.{IsFreeImage, ImageValue};
ghost use Rattle.map_network.specs.declared.network.Network.{Network};
ghost use Rattle.map_network.specs.Vocabulary.{IsNetwork, IsDeepest, HasRowsOf};
ghost use Rattle.design_netlist.specs.declared.netlist_data.NetlistData.{NetlistData};
ghost use Rattle.place_plan.specs.declared.plan.Plan.{Plan};
ghost use Rattle.place_route.specs.RightImages.{IsRightForNetwork, IsRightImage};
ghost use Rattle.place_plan.specs.Plans.{IsPlan, IsTerminal};
ghost use Rattle.place_route.specs.Layouts.{IsSet, IsLaidOut, image_at};
ghost use Rattle.place_route.specs.Trees.{IsLaidOnTree};

/// Where no wire is of two nets, each closed crosspoint joins two wires of one net, and the terminals of each net hang
/// together, the image reads the network's rows.
pub fn laid_out_nets_read_rows()
    ensures { (f : Faults) (d : Defects) (n : Network) (p : Plan) (g : Configuration) (owner : ℕ → Option ℕ) → IsNetwork n →
        IsLaidOut d n p g (λ k w. owner w ≡ Some k) → IsDeepest n g.ticks → Covers g.shape d f → IsRightForNetwork f (image_at p g) n }
{
    machine_shape::the_numbering_is_sound();
}

/// So does an image whose nets have a line of their own at each node that they visit and a port of their own at each
/// node that they cross. It touches only what is free.
pub fn nets_on_the_tree_read_rows()
    ensures free { (d : Defects) (n : Network) (p : Plan) (g : Configuration) → IsPlan g.shape d n p → IsSet d n p g →
        IsFreeImage d (image_at p g) }
    ensures rows { (f : Faults) (d : Defects) (n : Network) (p : Plan) (g : Configuration) (line port : ℕ → ℕ → Option ℕ) → IsNetwork n →
        IsPlan g.shape d n p → IsSet d n p g → IsLaidOnTree g.shape (IsTerminal g.shape n p) (is_closed g) (λ a k w. line a k ≡ Some w)
        (λ a k w. port a k ≡ Some w) →
        IsDeepest n g.ticks → Covers g.shape d f → IsRightForNetwork f (image_at p g) n }
{
    machine_shape::the_numbering_is_sound();
}

/// An image that reads a network's rows is right for each netlist whose rows are the network's.
pub fn an_image_is_right_for_the_netlists_of_its_network()
    ensures { (f : Faults) (i : ImageValue) (n : Network) (netlist : NetlistData) → HasRowsOf n netlist →
        IsRightForNetwork f i n → IsRightImage f i netlist }
{}
