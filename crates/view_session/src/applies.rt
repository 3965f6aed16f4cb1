//! A session takes changes in two steps.
use crate::Session;
use apply_law::{Applies, GroupRefused};
use change_script::Script;
use flow_law::Shape;
use kept_tables::KeptTables;
use schema_model::{Catalogue, Change};
use ss_text::Steps;
use std::alloc::Global;
use std::sync::ledger::Ledger;

impl Applies for Session {
    ghost use Rattle.view_session.specs.Session.{proposing, accepted};
    ghost use Rattle.view_session.specs.Verdicts.{standing_of, waiting_of, verdict_same};

    ghost state = { λ s. standing_of s };

    ghost waits = { λ s. waiting_of s };

    ghost after_propose = { λ s gs. proposing s gs };

    ghost after_accept = { λ s. accepted s };

    fn catalogue(&self) -> &Catalogue {
        let catalogue = self.catalogue();
        // What a catalogue has is sound.
        let _databases = catalogue.databases();
        catalogue
    }

    fn tables(&self) -> &KeptTables {
        let upkeep = self.upkeep();
        &upkeep.tables
    }

    fn shape(&self) -> &Shape {
        // What is kept is kept for a view of the profile.
        let _upkeep = self.upkeep();
        self.shape()
    }

    fn propose<L: Ledger>(
        &mut self,
        alloc: Global,
        changes: &[Change],
        steps: &mut Steps<L>,
    ) -> Result<Script, GroupRefused> {
        // The view is not refused over the catalogue.
        let _upkeep = self.upkeep();
        self.propose(alloc, changes, steps)
    }

    fn accept(&mut self) {
        self.accept();
    }

    fn dismiss(&mut self) {
        self.dismiss();
    }

    ghost same_verdict = { λ s c d sound also order. verdict_same s.query c d sound also order };
}
