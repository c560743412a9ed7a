//! What the definition of a repair plan comes to.
ghost use Rattle.machine_meaning.specs.Defects.{Defects};
ghost use Rattle.machine_image.specs.Images.{ImageValue};
ghost use Rattle.place_plan.specs.declared.short.Short.{Short};
ghost use Rattle.place_repair.specs.declared.seats.Seats.{Seats};
ghost use Rattle.place_repair.specs.Plans.{AreNets, AreSeats, HasRoom, IsShortPlan, Nets};

/// An image has one repair plan for a list of defects: where there is room by one, nothing is short by any. So a refusal for want of room
/// and a repair exclude each other.
pub fn repair_plans_are_decided()
    ensures never_both { (d : Defects) (i : ImageValue) (s : Seats) (n : Nets) (short : Short) → AreSeats d i s → AreNets d i s n →
        HasRoom i s n → ¬ IsShortPlan d i short }
{
    place_plan::room_is_decided();
}
