//! The sum of an operator's values.
ghost use Rattle.std.specs.Prelude.{◌≡◌, ◌+◌, ◌≤◌, ℕ, IfOk, IfErr};
ghost use Rattle.std.specs.Option.{option_copied};
ghost use Rattle.unite_op.specs.NamedThings.{bearer};

use crate::{Named, moves_behind};
use operator_law::{Delta, Operator};
use ss_text::{NoMemory, Row, Steps};
use std::alloc::Global;
use std::sync::ledger::Ledger;

/// The sum of the inner operator's values over all inputs, each input's names before its rows. The inner operator refuses
/// nothing.
#[derive(Debug, Drop)]
pub struct Unite<I> {
    pub inner: I,
    /// How many names each list of names has.
    pub names: usize,
}

impl<I: Operator<Output = Delta, Fault = NoMemory>> Operator for Unite<I> {
    ghost use Rattle.std.specs.Prelude.{Some, List, ◌≡◌};
    ghost use Rattle.operator_law.specs.declared.delta.Signed.{Signed};
    ghost use Rattle.unite_op.specs.declared.named.Named.{Named};
    ghost use Rattle.unite_op.specs.NamedThings.{united, Stand, bearer, OneBears, moves_behind};

    type Input = Vec<Named<I::Input>>;

    type Change = Named<I::Change>;

    type Output = Delta;

    type Fault = NoMemory;

    ghost value = { λ s x. united (I.value s.inner) x };

    ghost stands_for = { λ s i x. Stand (I.stands_for s.inner) i.items x };

    ghost can_prepare = { λ s i g. OneBears g.names i.items × ((n : Named I.Input) → bearer g.names i.items ≡ Some n → I.can_prepare s.inner n.value g.value) };

    ghost gives = { λ s i g o. (n : Named I.Input) × (bearer g.names i.items ≡ Some n) × (ms : List Signed) × I.gives s.inner n.value g.value ms × (o ≡ moves_behind g.names ms) };

    ghost may_stop = { λ s i g e. Unit {0} };

    ghost is_bound = { λ s i g b. (n : Named I.Input) → bearer g.names i.items ≡ Some n → I.is_bound s.inner n.value g.value b };

    fn prepare<L: Ledger>(
        &self,
        alloc: Global,
        inputs: &Vec<Named<I::Input>>,
        change: &Named<I::Change>,
        steps: &mut Steps<L>,
    ) -> Result<Delta, NoMemory> {
        let Some(input) = bearer(inputs, &change.names) else {
            unreachable!()
        };
        let inner = match self
            .inner
            .prepare(alloc, &input.value, &change.value, steps)
        {
            Ok(delta) => delta,
            Err(stop) => return Err(stop),
        };
        let delta = moves_behind(alloc, &change.names, &inner)?;
        Ok(delta)
    }
}

// The first input that bears the names.
fn bearer<'a, T>(inputs: &'a [Named<T>], names: &Row) -> Option<&'a Named<T>>
    ensures { option_copied result ≡ bearer names.now inputs.now }
{
    for input in inputs {
        if names == &input.names {
            return Some(input);
        }
    }
    None
}
