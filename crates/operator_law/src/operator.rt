//! What an operator promises.
ghost use Rattle.std.specs.Prelude.{◌≡◌, ◌+◌, ◌≤◌, ℕ, IfOk, IfErr};

use flow_law::Moves;
use ss_text::Steps;
use std::alloc::Global;
use std::sync::ledger::Ledger;

/// What has a value on a whole thing, and says how a change of the thing moves the value.
pub trait Operator {
    /// What an operator that keeps nothing is given of the thing.
    type Input;

    type Change: Moves;

    type Output: Moves + Drop;

    /// Why `prepare` may stop: `NoMemory` where the operator refuses nothing.
    type Fault: Drop;

    // The value on a whole thing.
    ghost value: { Self → Self.Change.Thing → Self.Output.Thing };

    // That the input, and what the operator keeps, stand for the thing.
    ghost stands_for: { Self → Self.Input → Self.Change.Thing → Type 0 };

    // The condition of `prepare`.
    ghost can_prepare: { Self → Self.Input → Self.Change → Type 0 };

    // What `prepare` may answer.
    ghost gives: { Self → Self.Input → Self.Change → Self.Output → Type 0 };

    // The faults with which `prepare` may stop.
    ghost may_stop: { Self → Self.Input → Self.Change → Self.Fault → Type 0 };

    // That `prepare` takes at most so many steps.
    ghost is_bound: { Self → Self.Input → Self.Change → ℕ → Type 0 };

    /// How the change moves the value. Nothing is changed.
    fn prepare<L: Ledger>(
        &self,
        alloc: Global,
        input: &Self::Input,
        change: &Self::Change,
        steps: &mut Steps<L>,
    ) -> Result<Self::Output, Self::Fault>
        requires { can_prepare self.now input.now change.now }
        ensures law { IfOk result (λ out. (x y : Self.Change.Thing) → stands_for self.now input.now x → Self.Change.moves x change.now y
            → Self.Output.moves (value self.now x) out (value self.now y)) }
        ensures gives { IfOk result (gives self.now input.now change.now) }
        ensures stops { IfErr result (may_stop self.now input.now change.now) }
        ensures cost { (n : ℕ) → is_bound self.now input.now change.now n → steps.new ≤ steps.old + n }
        ensures rises { steps.old ≤ steps.new };
}
