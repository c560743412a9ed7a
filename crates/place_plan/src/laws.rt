//! What the definitions of room come to.
ghost use Rattle.std.specs.Prelude.{◌≡◌, ℕ, List, length};
ghost use Rattle.machine_meaning.specs.Defects.{Defects};
ghost use Rattle.machine_shape.specs.declared.Shape.{Shape};
ghost use Rattle.place_plan.specs.Plans.{FitsInOrder, IsShortInOrder};
ghost use Rattle.place_plan.specs.Room.{HasTerminal, IsFirstShort, Suffices};
ghost use Rattle.place_plan.specs.declared.plan.Plan.{Plan};
ghost use Rattle.place_plan.specs.declared.short.Need.{Need};
ghost use Rattle.place_plan.specs.declared.short.Short.{Short};
ghost use Rattle.map_network.specs.declared.network.Network.{Network};

/// Where there is room no resource is the first short one. Where one is, it is one alone, at one node.
pub fn room_is_decided()
    ensures never_both { (m : Shape) (d : Defects) (nets : List (List ℕ)) (tables pins : Need) (s : Short) →
        Suffices m d (length nets) (HasTerminal nets) tables pins → ¬ IsFirstShort m d (length nets) (HasTerminal nets) tables pins s }
    ensures one { (m : Shape) (d : Defects) (nets : List (List ℕ)) (tables pins : Need) (s t : Short) →
        IsFirstShort m d (length nets) (HasTerminal nets) tables pins s → IsFirstShort m d (length nets) (HasTerminal nets) tables pins t →
        (s.resource ≡ t.resource) × (s.node.0 ≡ t.node.0) }
{}

/// Where the in-order plan fits, nothing is short for it. So a refusal for want of room and a plan exclude each other.
pub fn in_order_plans_are_decided()
    ensures never_both { (m : Shape) (d : Defects) (n : Network) (p : Plan) (s : Short) → FitsInOrder m d n p → ¬ IsShortInOrder m d n s }
{}
