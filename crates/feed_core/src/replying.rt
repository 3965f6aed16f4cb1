//! The reply to a change.
ghost use Rattle.std.specs.Prelude.{◌≡◌, ◌≤◌, ◌+◌, ◌∷◌, [], IfOk, OnOk, OnErr, IsTrue};
ghost use Rattle.std.specs.Option.{ForSome};
ghost use Rattle.schema_model.specs.Changes.{is_well_formed};
ghost use Rattle.apply_law.specs.Standing.{Idle};
ghost use Rattle.feed_core.specs.Replies.{reply_to, standing_by, taken_by};

use crate::{Arrival, Handled};
use apply_law::{Applies, GroupRefused};
use ss_text::{NoMemory, Steps};
use std::alloc::Global;
use std::slice::from_ref;
use std::sync::ledger::Ledger;

/// Makes the change of an arrival, or refuses it, and answers what is kept of it. All memory is taken before the change is
/// made.
pub(crate) fn handle<A: Applies, L: Ledger>(
    alloc: Global,
    to: &mut A,
    arrival: Arrival,
    steps: &mut Steps<L>,
) -> Result<Handled, NoMemory>
    requires well_formed { IsTrue (is_well_formed arrival.change) }
    requires idle { A.waits to.old ≡ Idle }
    ensures handled { IfOk result (λ handled. handled ≡ record { arrival = arrival; reply = reply_to (A.state to.old) arrival.change }) }
    ensures stands { OnOk result (A.state to.new ≡ standing_by (reply_to (A.state to.old) arrival.change) (A.state to.old) arrival.change) }
    ensures taken { OnOk result (to.new ≡ taken_by A.after_propose A.after_accept (reply_to (A.state to.old) arrival.change) to.old arrival.change) }
    ensures idle { A.waits to.new ≡ Idle }
    ensures unused { OnErr result (to.new ≡ to.old) }
    ensures within { ForSome ((A.state to.old).limit (A.state to.old).catalogue arrival.change) (λ n. steps.new ≤ steps.old + n) }
    ensures rises { steps.old ≤ steps.new }
{
    match to.propose(alloc, from_ref(&arrival.change), steps) {
        Ok(script) => match Handled::made(alloc, arrival, &script) {
            Ok(handled) => {
                to.accept();
                Ok(handled)
            }
            Err(NoMemory) => {
                to.dismiss();
                Err(NoMemory)
            }
        },
        Err(GroupRefused::NoMemory) => Err(NoMemory),
        Err(refused) => Handled::refused(alloc, arrival, refused),
    }
}
