//! A level takes changes in two steps, as its session does.
use crate::Level;
use apply_law::{Applies, GroupRefused};
use change_script::Script;
use flow_law::Shape;
use kept_tables::KeptTables;
use schema_model::{Catalogue, Change};
use ss_text::Steps;
use std::alloc::Global;
use std::sync::ledger::Ledger;
use view_session::Session;

impl Applies for Level {
    ghost use Rattle.view_session.specs.Verdicts.{verdict_same};
    ghost use Rattle.stack_levels.specs.States.{level_standing, level_waiting, level_proposing, level_accepted};

    ghost state = { λ l. level_standing l };

    ghost waits = { λ l. level_waiting l };

    ghost after_propose = { λ l gs. level_proposing l gs };

    ghost after_accept = { λ l. level_accepted l };

    fn catalogue(&self) -> &Catalogue {
        <Session as Applies>::catalogue(&self.session)
    }

    fn tables(&self) -> &KeptTables {
        <Session as Applies>::tables(&self.session)
    }

    fn shape(&self) -> &Shape {
        <Session as Applies>::shape(&self.session)
    }

    fn propose<L: Ledger>(
        &mut self,
        alloc: Global,
        changes: &[Change],
        steps: &mut Steps<L>,
    ) -> Result<Script, GroupRefused> {
        <Session as Applies>::propose(&mut self.session, alloc, changes, steps)
    }

    fn accept(&mut self) {
        <Session as Applies>::accept(&mut self.session);
    }

    fn dismiss(&mut self) {
        self.session.dismiss();
    }

    ghost same_verdict = { λ l c d sound also order. verdict_same l.session.query c d sound also order };
}
