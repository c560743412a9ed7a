//! What later crates rest on, of texts that are refused.
ghost use Rattle.std.specs.Prelude.{◌≡◌, ℕ, List};
ghost use Rattle.base_text.specs.Lines.{LogicalLine};
ghost use Rattle.machine_text.specs.Faults.{IsFirstFault};
ghost use Rattle.machine_text.specs.declared.kind.MachineKind.{MachineKind};

/// The lines of a text have one first fault at most: at one line, and of one kind.
pub fn a_text_has_one_fault()
    ensures { (lines : List LogicalLine) (n m : ℕ) (k j : MachineKind) → IsFirstFault lines n k → IsFirstFault lines m j → (n ≡ m)
        × (k ≡ j) }
{}
