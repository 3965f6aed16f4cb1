//! An opened view with feeds, and its answers.
ghost use Rattle.std.specs.Prelude.{◌≡◌, ◌≢◌, ◌≤◌, [], false, Ok, Err, IfOk, IfErr, OnOk, IsTrue, None, Some};
ghost use Rattle.outside.specs.Effects.{Does, world_of};
ghost use Rattle.outside.specs.Blame.{Blames, SinkBlames};
ghost use Rattle.tab_lines.specs.Lines.{has_feed};
ghost use Rattle.schema_model.specs.Changes.{is_well_formed};
ghost use Rattle.apply_law.specs.Standing.{tables_of};
ghost use Rattle.apply_law.specs.Verdicts.{Makes};
ghost use Rattle.opened_view.specs.Limits.{IsWithin};
ghost use Rattle.feed_core.specs.Arrivals.{handled_at};
ghost use Rattle.feed_answers.specs.declared.line.FeedLine.TheVariants.{Arrives};
ghost use Rattle.feed_answers.specs.Answers.{answer, by_line, fed, fed_by, repeating, told_by};
ghost use Rattle.feed_answers.specs.Steps.{TakesArrival};
ghost use Rattle.feed_answers.specs.Limits as limits;

use crate::fields::{line_fault_fields, reply_refused_fields};
use crate::{FeedLine, read_feed_line};
use apply_law::Applies;
use course::{LineHandler, LineStop, NoDisk, Verdict};
use feed_core::{Arrival, Feeds, Handled, Outcome};
use opened_view::OpenView;
use outside::{Folders, Sink, Stop};
use ss_print::{early_fields, other_change_fields, print_reply, print_script};
use ss_text::{NoMemory, Seed, Steps, Text};
use std::alloc::Global;
use std::sync::ledger::Ledger;

/// An opened view, and the changes that its sources sent.
pub(crate) struct FeedView {
    view: OpenView,
    feeds: Feeds,
}

impl Drop for FeedView {
    fn drop(self) {
        let FeedView { view, feeds } = self;
        drop(view);
        drop(feeds);
    }
}

impl FeedView {
    /// An opened view, to which nothing was sent yet. The names of its sources will be hashed by a seed.
    pub(crate) fn of(alloc: Global, seed: Seed, view: OpenView) -> FeedView
        ensures { result ≡ record { view = view; feeds = [] } }
    {
        FeedView {
            view,
            feeds: Feeds::new(alloc, seed),
        }
    }

    // Tells the reply that is kept under a number of a source, if one is.
    #[tactic(auto, using(outside::proofs::Following::following))]
    fn repeat<K: Sink>(
        &mut self,
        alloc: Global,
        output: &mut K,
        source: &Text,
        number: u64,
    ) -> Result<(), Stop>
        requires number { 1 ≤ number }
        ensures does { (s : _) → Does (repeating self.old.view (handled_at source.now number self.old.feeds)).effects (world_of s (K.state output.old)) (world_of s (K.state output.new)) result }
        ensures view { OnOk result (self.new.view ≡ (repeating self.old.view (handled_at source.now number self.old.feeds)).view) }
        ensures feeds { self.new.feeds ≡ self.old.feeds }
        ensures blames { SinkBlames (K.state output.old) (K.state output.new) result }
    {
        match self.feeds.handled(source, number) {
            Some(handled) => tell_again(alloc, &mut self.view, output, handled),
            None => Ok(()),
        }
    }

    // Tells the answer to an arrival of this source and number.
    #[tactic(auto, using(outside::proofs::Following::following))]
    fn tell<K: Sink>(
        &mut self,
        alloc: Global,
        output: &mut K,
        source: &Text,
        number: u64,
        answer: Outcome,
    ) -> Result<(), Stop>
        requires number { 1 ≤ number }
        ensures does { (s : _) → Does (told_by self.old source.now number answer).effects (world_of s (K.state output.old)) (world_of s (K.state output.new)) result }
        ensures view { OnOk result (self.new.view ≡ (told_by self.old source.now number answer).view) }
        ensures feeds { self.new.feeds ≡ self.old.feeds }
        ensures blames { SinkBlames (K.state output.old) (K.state output.new) result }
    {
        match answer {
            Outcome::Fresh => self.repeat(alloc, output, source, number),
            Outcome::Kept => self.repeat(alloc, output, source, number),
            Outcome::Early { want } => {
                let fields = early_fields(alloc, source, want)?;
                self.view.refuse(alloc, output, fields)
            }
            Outcome::OtherChange => {
                let fields = other_change_fields(alloc, source, number)?;
                self.view.refuse(alloc, output, fields)
            }
        }
    }

    // Makes or refuses the next change of a source, or finds what came under its number.
    fn take<L: Ledger>(
        &mut self,
        alloc: Global,
        arrival: Arrival,
        steps: &mut Steps<L>,
    ) -> Result<Outcome, NoMemory>
        requires number { 1 ≤ arrival.number }
        requires well_formed { IsTrue (is_well_formed arrival.change) }
        requires idle { self.old.view.session.held ≡ None }
        ensures took { IfOk result (TakesArrival self.old arrival self.new) }
        ensures rises { steps.old ≤ steps.new }
        ensures within { IsWithin (limits.limit_of_arrival self.old arrival) steps.old steps.new }
    {
        let view = &mut self.view;
        stands(&view.session);
        self.feeds.arrive(alloc, &mut view.session, arrival, steps)
    }

    // Answers an arrival.
    #[tactic(auto, using(outside::proofs::Following::following))]
    fn arrive<K: Sink, L: Ledger>(
        &mut self,
        alloc: Global,
        output: &mut K,
        arrival: Arrival,
        steps: &mut Steps<L>,
    ) -> Result<(), Stop>
        requires number { 1 ≤ arrival.number }
        requires well_formed { IsTrue (is_well_formed arrival.change) }
        requires idle { self.old.view.session.held ≡ None }
        ensures does { (s : _) → Does (by_line self.old (Ok (Arrives arrival))).effects (world_of s (K.state output.old)) (world_of s (K.state output.new)) result }
        ensures fed { OnOk result (self.new ≡ fed_by self.old (Ok (Arrives arrival))) }
        ensures blames { SinkBlames (K.state output.old) (K.state output.new) result }
        ensures rises { steps.old ≤ steps.new }
        ensures within { IsWithin (limits.limit_of_arrival self.old arrival) steps.old steps.new }
    {
        let source = arrival.source.copy()?;
        let number = arrival.number;
        let answer = self.take(alloc, arrival, steps)?;
        self.tell(alloc, output, &source, number, answer)
    }

    // Answers a line.
    #[tactic(auto, using(outside::proofs::Following::following))]
    fn answer<F: Folders, K: Sink, L: Ledger>(
        &mut self,
        alloc: Global,
        store: &mut F,
        output: &mut K,
        line: &[u8],
        steps: &mut Steps<L>,
    ) -> Result<(), Stop>
        requires line { has_feed line.now ≡ false }
        requires idle { self.old.view.session.held ≡ None }
        ensures does { Does (answer self.old line.now).effects (world_of (F.state store.old) (K.state output.old)) (world_of (F.state store.new) (K.state output.new)) result }
        ensures fed { OnOk result (self.new ≡ fed self.old line.now) }
        ensures idle { OnOk result (self.new.view.session.held ≡ None) }
        ensures no_read { IfErr result (λ e. e ≢ Stop.ReadFault) }
        ensures blames { Blames (world_of (F.state store.old) (K.state output.old)) (world_of (F.state store.new) (K.state output.new)) result }
        ensures rises { steps.old ≤ steps.new }
        ensures within { IsWithin (limits.limit self.old line.now) steps.old steps.new }
    {
        match read_feed_line(alloc, line) {
            Ok(FeedLine::Arrives(arrival)) => self.arrive(alloc, output, arrival, steps),
            Ok(FeedLine::Sync) => self.view.sync(alloc, store, output),
            Err(fault) => {
                let fields = line_fault_fields(alloc, &fault)?;
                self.view.refuse(alloc, output, fields)
            }
        }
    }
}

// What takes changes has tables over its catalogue.
fn stands<A: Applies>(to: &A)
    ensures { (A.state to.now).verdict (A.state to.now).catalogue ≡ Makes (tables_of (A.state to.now)) }
{
    let _tables = to.tables();
}

// Tells the reply to a change that was handled.
#[tactic(auto, using(outside::proofs::Following::following))]
fn tell_again<K: Sink>(
    alloc: Global,
    view: &mut OpenView,
    output: &mut K,
    handled: &Handled,
) -> Result<(), Stop>
    ensures does { (s : _) → Does (repeating view.old (Some handled.now)).effects (world_of s (K.state output.old)) (world_of s (K.state output.new)) result }
    ensures view { OnOk result (view.new ≡ (repeating view.old (Some handled.now)).view) }
    ensures blames { SinkBlames (K.state output.old) (K.state output.new) result }
{
    let reply = handled.reply(alloc)?;
    print_reply(alloc, output, handled.source(), handled.number())?;
    match reply.as_result() {
        Ok(script) => print_script(alloc, output, script),
        Err(refused) => {
            let change = handled.change(alloc)?;
            let fields = reply_refused_fields(alloc, &change, refused)?;
            view.refuse(alloc, output, fields)
        }
    }
}

impl LineHandler<NoDisk> for FeedView {
    ghost use Rattle.std.specs.Prelude.{◌≡◌, true, [], None};
    ghost use Rattle.course.specs.Keeping.{no_log};
    ghost use Rattle.feed_answers.specs.Answers.{step, finish};
    ghost use Rattle.feed_answers.specs.Limits.{limit};

    ghost step = { step };

    ghost log = { no_log };

    ghost note = { λ fed line. [] };

    ghost ready = { λ fed disk. fed.view.session.held ≡ None };

    ghost limit = { limit };

    ghost counts = { true };

    ghost finish = { finish };

    fn line<F: Folders, K: Sink, L: Ledger>(
        &mut self,
        alloc: Global,
        store: &mut F,
        output: &mut K,
        _disk: &mut NoDisk,
        line: &[u8],
        steps: &mut Steps<L>,
    ) -> Result<Option<Verdict>, LineStop> {
        self.answer(alloc, store, output, line, steps)?;
        Ok(None)
    }

    fn end<F: Folders, K: Sink, L: Ledger>(
        &mut self,
        alloc: Global,
        store: &mut F,
        output: &mut K,
        _steps: &mut Steps<L>,
    ) -> Result<Verdict, Stop> {
        let view = &self.view;
        view.write_changed(alloc, store, output)?;
        if view.some_refused {
            Ok(Verdict::SomeRefused)
        } else {
            Ok(Verdict::Done)
        }
    }
}
