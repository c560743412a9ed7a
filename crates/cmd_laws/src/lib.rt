//! Laws over the calls of the program.
//!
//! `few_faults_are_borne`: on a machine with 2 k of each resource to spare, `go`, `pair` and `twice` come to their end whatever the
//! faults are, if they are at most k.
#![tactic(auto)]

ghost use Rattle.std.specs.Prelude.{ℕ, List};
ghost use Rattle.cmd_steps.specs.Outside.{Outside};
ghost use Rattle.cmd_laws.specs.Borne.{GoIsBorne, PairIsBorne, TwiceIsBorne};

/// On a machine that has 2 k of each resource to spare, right words and files lead to status 0 or out of memory, if some set of at
/// most k faults explains all that was read, no count of failures rose, and the rig refused no text of its faults.
pub fn few_faults_are_borne()
    ensures go { (machine name design vectors : List ℕ) (k status : ℕ) (old new : Outside) →
        GoIsBorne machine name design vectors k status old new }
    ensures pair { (machine name first second vectors : List ℕ) (k status : ℕ) (old new : Outside) →
        PairIsBorne machine name first second vectors k status old new }
    ensures twice { (machine name design vectors : List ℕ) (k status : ℕ) (old new : Outside) →
        TwiceIsBorne machine name design vectors k status old new }
{
    place_spare::spare_parts_bear_faults();
}
