//! Laws of runs over a history.
ghost use Rattle.std.specs.Prelude.{◌≡◌, ◌↔◌, ℕ, List, ◌++◌, length, take};
ghost use Rattle.std.specs.List.{AllByRecursion};
ghost use Rattle.machine_shape.specs.Shape.{pins_of};
ghost use Rattle.machine_meaning.specs.Vocabulary.{Faults, Pins};
ghost use Rattle.machine_config.specs.Vocabulary.{Configuration, IsConfiguration, IsRun};
ghost use Rattle.machine_history.specs.Vocabulary.{History, IsHistoryOf, IsConstant, IsRunOver};

/// Over a history a machine gives exactly one reading for each drive.
pub fn runs_over_are_one()
    ensures exists { (h : History) (g : Configuration) → IsHistoryOf g.shape h → IsConfiguration g → (drives : List Pins) →
        (reads : List Pins) × IsRunOver h g drives reads }
    ensures unique { (h : History) (g : Configuration) (drives reads others : List Pins) → IsRunOver h g drives reads →
        IsRunOver h g drives others → reads ≡ others }
    ensures answers { (h : History) (g : Configuration) (drives reads : List Pins) → IsRunOver h g drives reads →
        length reads ≡ length drives }
    ensures pins { (h : History) (g : Configuration) (drives reads : List Pins) → IsRunOver h g drives reads →
        AllByRecursion (λ r. length r ≡ pins_of g.shape) reads }
{}

/// Where the faults are the same at each instant, a run over the history is a run under them.
pub fn constant_histories_are_faults()
    ensures { (f : Faults) (h : History) (g : Configuration) (drives reads : List Pins) → IsConstant f h →
        IsRunOver h g drives reads ↔ IsRun f g drives reads }
{}

/// The first cycles of a run over a history are a run over it.
pub fn runs_over_begin_as_runs()
    ensures { (h : History) (g : Configuration) (drives more reads : List Pins) → IsRunOver h g (drives ++ more) reads →
        IsRunOver h g drives (take (length drives) reads) }
{}
