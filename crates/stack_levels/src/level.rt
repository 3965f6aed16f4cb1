//! A level of a stack.
ghost use Rattle.std.specs.Prelude.{◌≡◌, ◌||◌, None, true, false, IfOk, IfErr, OnOk};
ghost use Rattle.ss_text.specs.Label.{is_table_label};
ghost use Rattle.ss_text.specs.Texts.{is_in};
ghost use Rattle.change_draft.specs.Drafts.{StandsOver};
ghost use Rattle.view_def.specs.Query.{query_of};
ghost use Rattle.flow_law.specs.Faults.{IsFault};
ghost use Rattle.view_meaning.specs.Refusal.{refusal};
ghost use Rattle.view_stages.specs.Records.{HasRecords};
ghost use Rattle.stack_levels.specs.Values.{count_of};
ghost use Rattle.stack_levels.specs.States.{level_value, level_tables, level_labels, level_synced};
ghost use Rattle.stack_levels.specs.Opening.{level_opened};

use crate::TableLabels;
use change_draft::Draft;
use flow_law::EvalFault;
use schema_model::{Catalogue, Change};
use ss_text::{NoMemory, Steps, Text};
use std::alloc::Global;
use std::marker::Model;
use std::mem;
use std::sync::ledger::Ledger;
use view_session::Session;
use view_stages::Definition;

/// A level of a stack, which contracts see as the view over its catalogue and the labels of its tables at the last sync.
pub struct Level {
    pub(crate) session: Session,
    pub(crate) view_db: Text,
    pub(crate) synced: TableLabels,
}

impl Drop for Level {
    fn drop(self) {
        let Level {
            session,
            view_db,
            synced,
        } = self;
        drop(session);
        drop(view_db);
        drop(synced);
    }
}

impl Model for Level {
    ghost use Rattle.std.specs.Prelude.{◌≡◌, true};
    ghost use Rattle.ss_text.specs.Label.{is_table_label};
    ghost use Rattle.view_stages.specs.Records.{HasRecords};
    ghost use Rattle.stack_levels.specs.States.{LevelState};
    ghost use Rattle.std.specs.Coded.{Coded, codes};
    ghost use Rattle.view_session.specs.ConditionCode.{Mark, condition_code};

    ghost Value = { LevelState };

    ghost coded = { let mark_code : Coded Mark = Prim.hlevel codes in Prim.hlevel (codes, condition_code mark_code) };

    ghost view = { λ l. record { session = l.session; synced = l.synced } };

    ghost invariant = { λ l. record {
      view_db : l.view_db ≡ l.session.query.view_db;
      legal : is_table_label l.session.query.view_db ≡ true;
      records : HasRecords l.session.query;
    } };
}

impl Level {
    // Opens a view over a catalogue, or tells for which fault it is refused.
    pub(crate) fn open<L: Ledger>(
        alloc: Global,
        catalogue: Catalogue,
        definition: Definition,
        steps: &mut Steps<L>,
    ) -> Result<Level, EvalFault>
        ensures level { IfOk result (λ level. level ≡ level_opened catalogue.databases (query_of definition.view.value)) }
        ensures allowed { OnOk result (refusal catalogue.databases (query_of definition.view.value) ≡ None) }
        ensures refused { IfErr result (λ e. IsFault (refusal catalogue.databases (query_of definition.view.value)) e) }
        ensures steps { steps.new ≡ steps.old }
    {
        let view_db = definition.view.view_db.copy()?;
        let session = Session::open(alloc, catalogue, definition.view, steps)?;
        match TableLabels::of(alloc, session.tables()) {
            Ok(synced) => Ok(Level {
                session,
                view_db,
                synced,
            }),
            Err(lack) => {
                drop(session);
                Err(lack.into())
            }
        }
    }

    /// The view over its catalogue. Its tables have records.
    pub fn session(&self) -> &Session
        ensures session { result.now ≡ self.now.session }
        ensures records { HasRecords self.now.session.query }
    {
        &self.session
    }

    /// The view database: the name of its folder, and that of the database that its tables are for the level above.
    pub fn view_db(&self) -> &Text
        ensures name { result.now ≡ self.now.session.query.view_db }
        ensures legal { is_table_label self.now.session.query.view_db ≡ true }
    {
        &self.view_db
    }

    /// How many files a sync of the level writes or removes: those of the labels that were named since the last sync and have
    /// a table, or had one then.
    pub fn file_count(&self) -> usize
        ensures { result ≡ count_of (level_value self.now) (level_tables self.now) }
    {
        self.session
            .changed_labels()
            .iter()
            .filter(|label| self.has_file(label))
            .count()
    }

    // Whether a label has a table, or had one at the last sync.
    fn has_file(&self, label: &Text) -> bool
        ensures { result ≡ (is_in label.now (level_labels self.now) || is_in label.now self.now.synced) }
    {
        self.has_table(label) || self.synced.has(label)
    }

    // Whether a label has a table.
    #[tactic(auto, using(view_stages::proofs::LabelLemmas::has_label))]
    fn has_table(&self, label: &Text) -> bool
        ensures { result ≡ is_in label.now (level_labels self.now) }
    {
        self.session.tables().table_of(label).is_some()
    }

    // The labels of its tables.
    pub(crate) fn labels(&self, alloc: Global) -> Result<TableLabels, NoMemory>
        ensures { IfOk result (λ labels. labels ≡ level_labels self.now) }
    {
        TableLabels::of(alloc, self.session.tables())
    }

    // Makes a draft over its catalogue ready to judge a change. The level stays, and so do the changes of the draft.
    pub(crate) fn link(&mut self, draft: &mut Draft, change: &Change) -> Result<(), NoMemory>
        requires unproposed { self.old.session.proposed ≡ None }
        requires stands { StandsOver draft.old self.old.session.catalogue }
        ensures level { self.new ≡ self.old }
        ensures changes { draft.new.changes ≡ draft.old.changes }
        ensures stands { StandsOver draft.new self.old.session.catalogue }
        ensures ready { OnOk result (draft.new.is_due ≡ false) }
    {
        self.session.link(draft, change)
    }

    // Notes that its files, which are those of these labels, are synced.
    #[tactic(auto, unfolding(crate::specs::States::level_synced))]
    pub(crate) fn note_synced(&mut self, labels: TableLabels)
        requires { labels ≡ level_labels self.old }
        ensures { self.new ≡ level_synced self.old }
    {
        self.session.clear_changed();
        drop(mem::replace(&mut self.synced, labels));
    }
}
