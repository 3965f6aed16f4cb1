//! What several sources sent, and what was replied.
ghost use Rattle.std.specs.Prelude.{◌≡◌, ◌≢◌, ◌+◌, ◌^◌, ◌<◌, ◌≤◌, [], suc, length, IfOk, IfSome, OnOk, OnErr, IsTrue, Some, option_and_then, slice_get};
ghost use Rattle.std.specs.Option.{ForSome, option_copied};
ghost use Rattle.schema_model.specs.Changes.{is_well_formed};
ghost use Rattle.apply_law.specs.Standing.{Idle};
ghost use Rattle.feed_core.specs.Replies.{reply_to};
ghost use Rattle.feed_core.specs.Arrivals.{arrivals_of, is_fresh, count_of, handled_at, by_handled, answer_to, handled_after, standing_after, taken_after};

use crate::places::{add_place, make_room, place_in};
use crate::replying::handle;
use crate::{Arrival, Handled, Outcome};
use apply_law::Applies;
use indexmap::IndexMap;
use ss_text::{NoMemory, Seed, Steps, Text};
use std::alloc::Global;
use std::marker::Model;
use std::sync::ledger::Ledger;

/// The changes of several sources, which contracts see as the list of those that were handled, each with its reply, in
/// the order in which they came. Of each source they are numbered from 1.
#[derive(Drop)]
pub struct Feeds {
    handled: Vec<Handled>,
    // For each source where its arrivals stand in that list, in the order of their numbers.
    places: IndexMap<Text, Vec<usize>, Seed>,
}

impl Model for Feeds {
    ghost use Rattle.std.specs.Prelude.{List};
    ghost use Rattle.feed_core.specs.Handled.{Handled};
    ghost use Rattle.feed_core.specs.Kept.{IsKept};

    ghost Value = { List Handled };

    ghost view = { λ f. f.handled.items };

    ghost invariant = { λ f. IsKept f.handled.items f.places };
}

impl Feeds {
    /// Nothing was sent. It takes no memory. The names of sources will be hashed by a seed.
    pub fn new(alloc: Global, seed: Seed) -> Feeds
        ensures { result ≡ [] }
    {
        Feeds {
            handled: Vec::new(alloc),
            places: IndexMap::with_hasher(alloc, seed),
        }
    }

    /// Answers an arrival. The next of its source is handled: its change is made or refused, and its reply is kept. Any
    /// other changes nothing and takes no memory. For want of memory nothing is changed, and no number is used.
    pub fn arrive<A: Applies, L: Ledger>(
        &mut self,
        alloc: Global,
        to: &mut A,
        arrival: Arrival,
        steps: &mut Steps<L>,
    ) -> Result<Outcome, NoMemory>
        requires number { 1 ≤ arrival.number }
        requires well_formed { IsTrue (is_well_formed arrival.change) }
        requires idle { A.waits to.old ≡ Idle }
        ensures answer { IfOk result (λ answer. answer ≡ answer_to self.old arrival) }
        ensures handled { OnOk result (self.new ≡ handled_after (reply_to (A.state to.old) arrival.change) self.old arrival) }
        ensures found { IfOk result (λ answer. answer ≡ Outcome.Fresh
            → handled_at arrival.source arrival.number self.new ≡ Some (record { arrival = arrival; reply = reply_to (A.state to.old) arrival.change })) }
        ensures stands { OnOk result (A.state to.new ≡ standing_after (A.state to.old) self.old arrival) }
        ensures taken { OnOk result (to.new ≡ taken_after A.after_propose A.after_accept (A.state to.old) to.old self.old arrival) }
        ensures idle { A.waits to.new ≡ Idle }
        ensures same { OnErr result (self.new ≡ self.old) }
        ensures unused { OnErr result (to.new ≡ to.old) }
        ensures lacks { OnErr result (IsTrue (is_fresh (arrivals_of self.old) arrival)) }

        // Only one that is handled counts steps, as its change does.
        ensures within { ForSome ((A.state to.old).limit (A.state to.old).catalogue arrival.change) (λ n. steps.new ≤ steps.old + n) }
        ensures none { IfOk result (λ answer. answer ≢ Outcome.Fresh → steps.new ≡ steps.old) }
        ensures rises { steps.old ≤ steps.new }
    {
        let count = self.count(&arrival.source);
        if arrival.number - 1 != count {
            let answer = self.answer_again(&arrival, count + 1);
            drop(arrival);
            return Ok(answer);
        }
        self.handle(alloc, to, arrival, steps)?;
        Ok(Outcome::Fresh)
    }

    /// What was handled of a source under a number, with its reply; none where nothing was. It is found without a walk.
    pub fn handled(&self, source: &Text, number: u64) -> Option<&Handled>
        requires { 1 ≤ number }
        ensures { option_copied result ≡ handled_at source.now number self.now }
    {
        let place = self.place_of(source, number)?;
        self.handled.get(place)
    }

    // Where the arrival of a source and number stands in the list.
    #[tactic(auto, using(crate::proofs::KeptLemmas::found_number))]
    fn place_of(&self, source: &Text, number: u64) -> Option<usize>
        requires { 1 ≤ number }
        ensures { option_and_then (slice_get self.now) result ≡ handled_at source.now number self.now }
    {
        place_in(&self.places, source, number as usize - 1)
    }

    // How many arrivals of a source were handled.
    #[tactic(auto, using(crate::proofs::KeptLemmas::counted_some, crate::proofs::KeptLemmas::counted_none))]
    fn count(&self, source: &Text) -> u64
        ensures count { result ≡ count_of source.now (arrivals_of self.now) }
        ensures small { result + 1 < 2 ^ 64 }
    {
        match self.places.get(source) {
            Some(places) => places.len() as u64,
            None => 0,
        }
    }

    // The answer to an arrival that is not the next of its source, of which this number is wanted.
    fn answer_again(&self, arrival: &Arrival, want: u64) -> Outcome
        requires { 1 ≤ arrival.now.number }
        ensures { result ≡ by_handled arrival.now.change want (handled_at arrival.now.source arrival.now.number self.now) }
    {
        match self.handled(&arrival.source, arrival.number) {
            Some(handled) if handled.has_change(&arrival.change) => Outcome::Kept,
            Some(_) => Outcome::OtherChange,
            None => Outcome::Early { want },
        }
    }

    // Handles the next arrival of a source.
    #[tactic(auto, using(crate::proofs::KeptLemmas::kept_more, crate::proofs::KeptLemmas::kept_same))]
    fn handle<A: Applies, L: Ledger>(
        &mut self,
        alloc: Global,
        to: &mut A,
        arrival: Arrival,
        steps: &mut Steps<L>,
    ) -> Result<(), NoMemory>
        requires next { arrival.number ≡ suc (count_of arrival.source (arrivals_of self.old)) }
        requires well_formed { IsTrue (is_well_formed arrival.change) }
        requires idle { A.waits to.old ≡ Idle }
        ensures handled { OnOk result (self.new ≡ handled_after (reply_to (A.state to.old) arrival.change) self.old arrival) }
        ensures found { OnOk result (handled_at arrival.source arrival.number self.new ≡ Some (record { arrival = arrival; reply = reply_to (A.state to.old) arrival.change })) }
        ensures stands { OnOk result (A.state to.new ≡ standing_after (A.state to.old) self.old arrival) }
        ensures taken { OnOk result (to.new ≡ taken_after A.after_propose A.after_accept (A.state to.old) to.old self.old arrival) }
        ensures idle { A.waits to.new ≡ Idle }
        ensures same { OnErr result (self.new ≡ self.old) }
        ensures unused { OnErr result (to.new ≡ to.old) }
        ensures within { ForSome ((A.state to.old).limit (A.state to.old).catalogue arrival.change) (λ n. steps.new ≤ steps.old + n) }
        ensures rises { steps.old ≤ steps.new }
    {
        self.handled.reserve(1)?;
        make_room(alloc, &mut self.places, &arrival.source)?;
        let handled = handle(alloc, to, arrival, steps)?;
        let place = self.handled.len();
        add_place(&mut self.places, handled.source(), place);
        self.handled.push_reserved(handled);
        Ok(())
    }
}
