//! A run: its session, and what was counted.
ghost use Rattle.std.specs.Prelude.{◌≡◌, ◌≤◌, ◌+◌, ◌-◌, ◌<◌, ◌^◌, IfOk, OnOk, OnErr, IsTrue};
ghost use Rattle.schema_model.specs.Changes.{is_well_formed};
ghost use Rattle.load_run.specs.Generator.{change_at};
ghost use Rattle.load_run.specs.Runs.{started, answered, lines_of, session_after, summary_by, summary_of};

use crate::generator::change_at;
use crate::size::table_size;
use crate::start::session;
use crate::summary::Summary;
use schema_model::Change;
use ss_text::{NoMemory, Steps};
use std::alloc::Global;
use std::marker::Model;
use std::sync::ledger::Ledger;
use view_session::{Refused, Session};

// A session, how many changes were accepted and how many refused, and the lines of all scripts.
#[derive(Drop)]
struct Run {
    session: Session,
    accepted: u32,
    refused: u32,
    lines: u128,
}

impl Model for Run {
    ghost use Rattle.load_run.specs.Runs.{RunState, IsRun};
    ghost use Rattle.std.specs.Coded.{Coded, codes};
    ghost use Rattle.view_session.specs.ConditionCode.{Mark, condition_code};

    ghost Value = { RunState };

    ghost coded = { let mark_code : Coded Mark = Prim.hlevel codes in Prim.hlevel (codes, condition_code mark_code) };

    ghost view = { λ r. record { session = r.session; accepted = r.accepted; refused = r.refused; lines = r.lines } };

    ghost invariant = { λ r. IsRun (record { session = r.session; accepted = r.accepted; refused = r.refused; lines = r.lines }) };
}

/// Runs so many changes with a seed on a session in memory, counts the steps that they take, and tells what came of
/// them.
pub fn load<L: Ledger>(
    alloc: Global,
    changes: u32,
    seed: u32,
    steps: &mut Steps<L>,
) -> Result<Summary, NoMemory>
    ensures summary { IfOk result (λ summary. summary ≡ summary_of changes seed) }
    ensures rises { steps.old ≤ steps.new }
{
    let mut run = Run::start(alloc, steps)?;
    let summary = run.go_through(alloc, changes, seed, steps);
    drop(run);
    summary
}

impl Run {
    fn start<L: Ledger>(alloc: Global, steps: &mut Steps<L>) -> Result<Run, NoMemory>
        ensures run { IfOk result (λ run. run ≡ started) }
        ensures rises { steps.old ≤ steps.new }
    {
        Ok(Run {
            session: session(alloc, steps)?,
            accepted: 0,
            refused: 0,
            lines: 0,
        })
    }

    // Makes and counts so many changes, and sums them up.
    #[tactic(auto, using(crate::proofs::RunLemmas::ran_next, crate::proofs::RunLemmas::ran_counts))]
    fn go_through<L: Ledger>(
        &mut self,
        alloc: Global,
        changes: u32,
        seed: u32,
        steps: &mut Steps<L>,
    ) -> Result<Summary, NoMemory>
        requires { self.old ≡ started }
        ensures summary { IfOk result (λ summary. summary ≡ summary_of changes seed) }
        ensures rises { steps.old ≤ steps.new }
    {
        for place in 0..changes {
            self.go_on(alloc, seed, place, steps)?;
        }
        self.summary(alloc)
    }

    // Makes the change of a place and counts it.
    fn go_on<L: Ledger>(
        &mut self,
        alloc: Global,
        seed: u32,
        place: u32,
        steps: &mut Steps<L>,
    ) -> Result<(), NoMemory>
        requires { self.old.accepted + self.old.refused < 2 ^ 32 - 1 }
        ensures answered { OnOk result (self.new ≡ answered self.old (change_at seed place)) }
        ensures rises { steps.old ≤ steps.new }
    {
        let change = change_at(alloc, seed, place)?;
        let answer = self.answer(alloc, &change, steps);
        drop(change);
        answer
    }

    // Makes a change and counts its lines, or counts that it is refused.
    #[tactic(auto, using(crate::proofs::RunLemmas::view_kept, crate::proofs::RunLemmas::idle_kept, crate::proofs::RunLemmas::unproposed_kept))]
    fn answer<L: Ledger>(
        &mut self,
        alloc: Global,
        change: &Change,
        steps: &mut Steps<L>,
    ) -> Result<(), NoMemory>
        requires well_formed { IsTrue (is_well_formed change.now) }
        requires few { self.old.accepted + self.old.refused < 2 ^ 32 - 1 }
        ensures answered { OnOk result (self.new ≡ answered self.old change.now) }
        ensures rises { steps.old ≤ steps.new }
    {
        match apply(alloc, &mut self.session, change, steps)? {
            Some(lines) => {
                self.accepted += 1;
                self.lines += lines as u128;
                Ok(())
            }
            None => {
                self.refused += 1;
                Ok(())
            }
        }
    }

    // The numbers that were counted, and those of the table.
    fn summary(&self, alloc: Global) -> Result<Summary, NoMemory>
        ensures { IfOk result (λ summary. summary ≡ summary_by self.now) }
    {
        Ok(Summary {
            accepted: self.accepted,
            refused: self.refused,
            lines: self.lines,
            table: table_size(alloc, &self.session)?,
        })
    }
}

// Makes a change of a session, and answers how many lines its script has; nothing where the change is refused.
#[tactic(auto, using(crate::proofs::RunLemmas::accepted_lines, crate::proofs::RunLemmas::accepted_session, crate::proofs::RunLemmas::refused_lines, crate::proofs::RunLemmas::refused_session))]
fn apply<L: Ledger>(
    alloc: Global,
    session: &mut Session,
    change: &Change,
    steps: &mut Steps<L>,
) -> Result<Option<usize>, NoMemory>
    requires well_formed { IsTrue (is_well_formed change.now) }
    requires idle { session.old.held ≡ None }
    requires unproposed { session.old.proposed ≡ None }
    ensures lines { IfOk result (λ lines. lines ≡ lines_of session.old change.now) }
    ensures session { OnOk result (session.new ≡ session_after session.old change.now) }
    ensures same { OnErr result (session.new ≡ session.old) }
    ensures rises { steps.old ≤ steps.new }
{
    match session.apply(alloc, change, steps) {
        Ok(script) => Ok(Some(script.lines().len())),
        Err(Refused::Change(_) | Refused::Illegal(_) | Refused::Conflict(_)) => Ok(None),
        Err(Refused::NoMemory) => Err(NoMemory),
    }
}
