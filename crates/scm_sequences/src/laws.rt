//! Laws of the definitions, each as the contract of a function that does nothing.
ghost use Rattle.std.specs.Prelude.{ℕ, ◌<◌, ◌≤◌, ◌↔◌, List, length, slice_index};
ghost use Rattle.scm_sequences.specs.Traces.{Trace, cut_to, count_in, IsLegal, IsConsistent, fixed_values, given, Agrees, ReadsFit, ChosenFit};

/// The restriction law: a list is a legal front of the cut trace exactly where it is a legal front of the longer trace
/// and its counts lie within the lengths.
pub fn restriction()
    ensures cut { (t : Trace) (lengths front : List ℕ) → IsLegal (cut_to t lengths) front ↔ (IsLegal t front × ((p : ℕ) → p < length t.sequences → count_in front p ≤ slice_index lengths p)) }
{}

/// The law of unset cells: a front is legal in the trace with chosen first contents exactly where it is legal in the trace
/// without them, and the choice agrees with the values that it fixes. So it is legal exactly where some choice makes it
/// so, and the trace is consistent exactly where it is under some choice; and where what is read fits the widths of the cells,
/// exactly where it is under some choice from these widths.
pub fn unset_cells()
    ensures choice { (t : Trace) (front : List ℕ) (chosen : ℕ → ℕ) → IsLegal (given t chosen) front ↔ (IsLegal t front × Agrees chosen (fixed_values t front)) }
    ensures legal { (t : Trace) (front : List ℕ) → IsLegal t front ↔ ((chosen : ℕ → ℕ) × IsLegal (given t chosen) front) }
    ensures consistent { (t : Trace) → IsConsistent t ↔ ((chosen : ℕ → ℕ) × IsConsistent (given t chosen)) }
    ensures legal_in_width { (t : Trace) (bits : ℕ → ℕ) → ReadsFit t bits → (front : List ℕ) → IsLegal t front ↔ ((chosen : ℕ → ℕ) × ChosenFit chosen bits × IsLegal (given t chosen) front) }
    ensures consistent_in_width { (t : Trace) (bits : ℕ → ℕ) → ReadsFit t bits → IsConsistent t ↔ ((chosen : ℕ → ℕ) × ChosenFit chosen bits × IsConsistent (given t chosen)) }
{}
