//! What calls that follow one another come to.
ghost use Rattle.std.specs.Prelude.{ℕ, List};
ghost use Rattle.cmd_steps.specs.Outside.{Outside};
ghost use Rattle.cmd_map.specs.Headline.{IsFitted};
ghost use Rattle.cmd_map.specs.Chain.{HoldsText, FitsThenCompiles};

/// Where the mapper wrote a text for a machine and a list of its defects, there is room for that text when `compile` is given it, and
/// the image is right for the design that the mapper was given.
pub fn mapped_texts_are_compiled()
    ensures { (machine defects design name : List ℕ) (old new handed : Outside) (f : IsFitted machine defects design old new) →
        HoldsText machine defects name f.text old handed.store → FitsThenCompiles machine defects design name old new handed f }
{}
