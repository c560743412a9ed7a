//! What a growth after a sweep finds, and what both take.
ghost use Rattle.std.specs.Prelude.{◌≡◌, ◌≤◌, ◌+◌, ◌*◌, ℕ, List, Option, length};
ghost use Rattle.base_bits.specs.Numbers.{size_of};
ghost use Rattle.machine_meaning.specs.Faults.{Faults};
ghost use Rattle.machine_shape.specs.Shape.{crosses_of};
ghost use Rattle.machine_shape.specs.declared.Table.{Table};
ghost use Rattle.diag_evidence.specs.Kept.{Kept, IsMore};
ghost use Rattle.diag_known.specs.Field.{ClosedIf, IsFieldOf, fresh, pins_in};
ghost use Rattle.diag_known.specs.declared.field.Field.{Field};
ghost use Rattle.diag_known.specs.declared.verified_wire.VerifiedWire.{VerifiedWire};
ghost use Rattle.diag_sweep.specs.Marks.{MarksIn, Pays, TrueIf, undecided};
ghost use Rattle.diag_sweep.specs.Without.{IsWithout};
ghost use Rattle.diag_sweep.specs.declared.defect_marks.DefectMarks.{DefectMarks};

use machine_shape::the_numbering_is_sound;

/// Where marks are true of what is known, and this is closed in a field without what is marked, it is closed in the field with it: a
/// crosspoint that is stuck is no way to a wire and needn't be kept; a wire that is unfit isn't clear, or is shorted to a known one.
pub fn closed_without_bad()
    ensures { (told : Option Faults) (k : Kept) (ss : List VerifiedWire) (b : DefectMarks) (a rest : Field) →
        IsWithout b a rest → TrueIf told k ss b → ClosedIf told k rest ss → ClosedIf told k a ss }
{}

/// A sweep of a field and then a growth in the field without what is marked take together no more loads than a growth alone may.
pub fn growth_after_a_sweep_is_paid()
    ensures most { (a rest : Field) (tables : List Table) (k l : Kept) (b c : DefectMarks) (before mid after : ℕ) →
        IsMore k l → IsFieldOf k.shape a → IsWithout c a rest → MarksIn a tables b c → Pays a k b before l c mid →
        after + pins_in l.shape rest ≤ mid + (8 * fresh l rest + 3 * size_of rest.wires) →
        after ≤ before + (8 * undecided k b a + 3 * size_of a.wires) }
    ensures few { (a rest : Field) (tables : List Table) (k l : Kept) (b c : DefectMarks) (before mid after : ℕ) →
        IsMore k l → IsFieldOf k.shape a → IsWithout c a rest → MarksIn a tables b c → Pays a k b before l c mid →
        after + pins_in l.shape rest ≤ mid + (2 * fresh l rest + 3 * size_of rest.wires) →
        after ≤ before + (2 * undecided k b a + 3 * size_of a.wires) }
    ensures alone { (a : Field) (k l : Kept) (b c : DefectMarks) (before after : ℕ) →
        IsFieldOf k.shape a → Pays a k b before l c after →
        after ≤ before + (2 * undecided k b a + size_of a.wires) }
{
    the_numbering_is_sound();
}

/// A growth in a field without what is marked takes no more loads than one in the whole field with each undecided crosspoint may, less one
/// for each pin of the machine in that.
pub fn growth_without_bad_is_paid()
    ensures most { (a rest : Field) (k : Kept) (b : DefectMarks) (before after : ℕ) →
        IsFieldOf k.shape a → IsWithout b a rest →
        after + pins_in k.shape rest ≤ before + (8 * fresh k rest + 3 * size_of rest.wires) →
        after + pins_in k.shape a ≤ before + (8 * undecided k b a + 3 * size_of a.wires) }
    ensures few { (a rest : Field) (k : Kept) (b : DefectMarks) (before after : ℕ) →
        IsFieldOf k.shape a → IsWithout b a rest →
        after + pins_in k.shape rest ≤ before + (2 * fresh k rest + 3 * size_of rest.wires) →
        after + pins_in k.shape a ≤ before + (2 * undecided k b a + 3 * size_of a.wires) }
    ensures pins { (a : Field) (k : Kept) → IsFieldOf k.shape a → pins_in k.shape a ≤ size_of a.wires }
    ensures all { (a : Field) (k : Kept) (b : DefectMarks) → IsFieldOf k.shape a → undecided k b a ≤ crosses_of k.shape }
{
    the_numbering_is_sound();
}
