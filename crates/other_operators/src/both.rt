//! Two operators, one after the other and side by side.
ghost use Rattle.std.specs.Prelude.{◌≡◌, ◌+◌, ◌≤◌, ℕ, IfOk, IfErr, ◌⊎◌};

use operator_law::Operator;
use ss_text::Steps;
use std::alloc::Global;
use std::sync::ledger::Ledger;

/// A fault of one of two operators.
#[derive(Debug, Drop)]
pub enum EitherFault<A, B> {
    First(A),
    Second(B),
}

/// Gives the output of `first` to `second`. Where `second` keeps its input, it keeps the value of `first`.
#[derive(Debug, Drop)]
pub struct Then<A, B> {
    pub first: A,
    pub second: B,
}

impl<A: Operator, B: Operator<Input = (), Change = A::Output>> Operator for Then<A, B> {
    ghost use Rattle.other_operators.specs.Faults.{MatchFault};

    type Input = A::Input;

    type Change = A::Change;

    type Output = B::Output;

    type Fault = EitherFault<A::Fault, B::Fault>;

    ghost value = { λ t x. B.value t.second (A.value t.first x) };

    ghost stands_for = { λ t i x. A.stands_for t.first i x × B.stands_for t.second tt (A.value t.first x) };

    ghost can_prepare = { λ t i g. A.can_prepare t.first i g × ((m : A.Output) → A.gives t.first i g m → B.can_prepare t.second tt m) };

    ghost gives = { λ t i g o. (m : A.Output) × A.gives t.first i g m × B.gives t.second tt m o };

    ghost may_stop = { λ t i g s. MatchFault (A.may_stop t.first i g) (λ e. (m : A.Output) × A.gives t.first i g m × B.may_stop t.second tt m e) s };

    ghost is_bound = { λ t i g n. (a : ℕ) × (b : ℕ) × A.is_bound t.first i g a × ((m : A.Output) → A.gives t.first i g m → B.is_bound t.second tt m b) × (n ≡ a + b) };

    fn prepare<L: Ledger>(
        &self,
        alloc: Global,
        input: &A::Input,
        change: &A::Change,
        steps: &mut Steps<L>,
    ) -> Result<B::Output, EitherFault<A::Fault, B::Fault>> {
        let between = match self.first.prepare(alloc, input, change, steps) {
            Ok(between) => between,
            Err(fault) => return Err(EitherFault::First(fault)),
        };
        match self.second.prepare(alloc, &(), &between, steps) {
            Ok(output) => Ok(output),
            Err(fault) => Err(EitherFault::Second(fault)),
        }
    }
}

/// Runs both operators on the parts of one change.
#[derive(Debug, Drop)]
pub struct Side<A, B> {
    pub left: A,
    pub right: B,
}

impl<A: Operator, B: Operator> Operator for Side<A, B> {
    ghost use Rattle.other_operators.specs.Faults.{MatchFault};

    type Input = (A::Input, B::Input);

    type Change = (A::Change, B::Change);

    type Output = (A::Output, B::Output);

    type Fault = EitherFault<A::Fault, B::Fault>;

    ghost value = { λ s x. (A.value s.left x.0, B.value s.right x.1) };

    ghost stands_for = { λ s i x. A.stands_for s.left i.0 x.0 × B.stands_for s.right i.1 x.1 };

    ghost can_prepare = { λ s i g. A.can_prepare s.left i.0 g.0 × B.can_prepare s.right i.1 g.1 };

    ghost gives = { λ s i g o. A.gives s.left i.0 g.0 o.0 × B.gives s.right i.1 g.1 o.1 };

    ghost may_stop = { λ s i g e. MatchFault (A.may_stop s.left i.0 g.0) (B.may_stop s.right i.1 g.1) e };

    ghost is_bound = { λ s i g n. (a : ℕ) × (b : ℕ) × A.is_bound s.left i.0 g.0 a × B.is_bound s.right i.1 g.1 b × (n ≡ a + b) };

    fn prepare<L: Ledger>(
        &self,
        alloc: Global,
        input: &(A::Input, B::Input),
        change: &(A::Change, B::Change),
        steps: &mut Steps<L>,
    ) -> Result<(A::Output, B::Output), EitherFault<A::Fault, B::Fault>> {
        let left = match self.left.prepare(alloc, &input.0, &change.0, steps) {
            Ok(left) => left,
            Err(fault) => return Err(EitherFault::First(fault)),
        };
        match self.right.prepare(alloc, &input.1, &change.1, steps) {
            Ok(right) => Ok((left, right)),
            Err(fault) => Err(EitherFault::Second(fault)),
        }
    }
}
