//! What lines say, as the contract of a function that does nothing.
ghost use Rattle.std.specs.Prelude.{ℕ, ◌≡◌, None, List, All};
ghost use Rattle.scm_sequences.specs.Traces.{Trace, IsSchedule, IsConsistent};
ghost use Rattle.scm_orders.specs.declared.derivation.Line.{Line};
ghost use Rattle.scm_orders.specs.inner.Moments.{Says, AssumptionsHold};
ghost use Rattle.scm_orders.specs.Refuting.{AllFollow, OrdersRefute};

/// The law of derivations: where each line follows from the trace and the lines before it, what a line says is so in every legal
/// schedule in which the assumptions of its block hold. So what those outside of blocks say is so in each, and a derivation that
/// refutes leaves none.
pub fn lines_hold()
    ensures hold { (t : Trace) (lines : List Line) (hints schedule : List ℕ) → AllFollow t lines hints → IsSchedule t schedule → All (λ line. AssumptionsHold t schedule lines line.block → Says t schedule line.fact) lines }
    ensures outside { (t : Trace) (lines : List Line) (hints schedule : List ℕ) → AllFollow t lines hints → IsSchedule t schedule → All (λ line. line.block ≡ None → Says t schedule line.fact) lines }
    ensures none { (t : Trace) (lines : List Line) (hints : List ℕ) → OrdersRefute t lines hints → IsConsistent t → ⊥ }
{}
