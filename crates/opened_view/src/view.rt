//! An opened view, its syncs, and how it refuses a line.
ghost use Rattle.std.specs.Prelude.{◌≡◌, ◌≢◌, ◌||◌, ◌∷◌, [], None, Some, IfOk, IfErr, OnOk, true};
ghost use Rattle.std.specs.List.Sorted.{IsStrictlySortedBy};
ghost use Rattle.ss_text.specs.Texts.{is_in, text_cmp};
ghost use Rattle.outside.specs.Effects.{Does, world_of};
ghost use Rattle.outside.specs.Blame.{Blames, SinkBlames};
ghost use Rattle.outside.specs.Performing.{Performs};
ghost use Rattle.flow_law.specs.Tables.{labels_of};
ghost use Rattle.view_folder.specs.Files.{view_folder};
ghost use Rattle.view_session.specs.Session.{tables_of};
ghost use Rattle.source_law.specs.Synced.{saving};
ghost use Rattle.ss_print.specs.Printing.{refuses};
ghost use Rattle.outside.specs.Tree.{Tree, files_of};
ghost use Rattle.view_stages.specs.Opening.{opening_effects};
ghost use Rattle.view_stages.specs.Stages.{files_of_view};
ghost use Rattle.course.specs.Idle.{IdleUnread};
ghost use Rattle.view_stages.specs.Records.{HasRecords};
ghost use Rattle.opened_view.specs.Answers.{in_group, more_broken, refusing, synced_view, syncing, syncing_view};
ghost use Rattle.view_stages.specs.Syncs.{sync_effects, view_effects, sync_count};

use csv_catalog::save_changed;
use outside::{Folders, Sink, Stop};
use ss_print::{print_synced, refuse};
use ss_text::{NoMemory, Row, Seed, Text};
use std::alloc::Global;
use std::marker::Model;
use view_folder::{sync, sync_all};
use view_session::Session;

/// An opened view, which contracts see as the view over its catalogue, the labels of its tables at the last
/// sync, whether some line was refused, and how many were refused in the open group. Who changes its session leaves
/// nothing proposed.
pub struct OpenView {
    pub session: Session,
    pub view_db: Text,
    pub synced: Vec<Text>,
    pub some_refused: bool,
    pub broken: usize,
    pub ghost records: { HasRecords session.query },
}

impl Drop for OpenView {
    fn drop(self) {
        let OpenView {
            session,
            view_db,
            synced,
            some_refused: _,
            broken: _,
        } = self;
        drop(session);
        drop(view_db);
        drop(synced);
    }
}

impl Model for OpenView {
    ghost use Rattle.std.specs.Prelude.{◌≡◌, None};
    ghost use Rattle.std.specs.List.Sorted.{IsStrictlySortedBy};
    ghost use Rattle.ss_text.specs.Texts.{text_cmp};
    ghost use Rattle.view_stages.specs.Open.{OpenValue};
    ghost use Rattle.std.specs.Coded.{Coded, codes};
    ghost use Rattle.view_session.specs.ConditionCode.{Mark, condition_code};

    ghost Value = { OpenValue };

    ghost coded = { let mark_code : Coded Mark = Prim.hlevel codes in Prim.hlevel (codes, condition_code mark_code) };

    ghost view = { λ v. record { session = v.session; synced = v.synced.items; refused = v.some_refused; broken = v.broken } };

    ghost invariant = { λ v. record {
      view_db : v.view_db ≡ v.session.query.view_db;
      synced : IsStrictlySortedBy text_cmp v.synced.items;
      unproposed : v.session.proposed ≡ None;
    } };
}

impl OpenView {
    ghost use Rattle.std.specs.Prelude.{◌≡◌, IfOk};
    ghost use Rattle.view_session.specs.Session.{opened};
    ghost use Rattle.view_stages.specs.Open.{just_opened};

    /// The view that was just opened, of this view database.
    pub fn of(alloc: Global, session: Session, view_db: Text) -> Result<OpenView, NoMemory>
        requires new { session ≡ opened session.query session.catalogue }
        requires view_db { view_db ≡ session.query.view_db }
        requires records { HasRecords session.query }
        ensures { IfOk result (λ view. view ≡ just_opened session.query session.catalogue) }
    {
        match session.tables().labels(alloc) {
            Ok(synced) => Ok(OpenView {
                session,
                view_db,
                synced,
                some_refused: false,
                broken: 0,
            }),
            Err(lack) => {
                drop(session);
                Err(lack)
            }
        }
    }

    /// Writes the folder of a view that was just opened, and prints that it did.
    #[tactic(auto, using(outside::proofs::Following::following, outside::proofs::EffectLemmas::partly_more, outside::proofs::EffectLemmas::partly_later, outside::proofs::EffectLemmas::performed_append, view_stages::proofs::StageLemmas::meaning_fits, course::proofs::IdleLemmas::idle_first, course::proofs::IdleLemmas::idle_print), unfolding(view_stages::specs::Stages::files_of_view))]
    pub fn fill_folder<F: Folders, K: Sink>(
        &self,
        alloc: Global,
        store: &mut F,
        output: &mut K,
    ) -> Result<(), Stop>
        ensures does { (t : Tree) → (F.state store.old).tree ≡ Some t
            → Does
            (opening_effects (view_folder self.now.session.query.view_db) (files_of_view self.now.session.catalogue self.now.session.query) (files_of t (view_folder self.now.session.query.view_db)))
            (world_of (F.state store.old) (K.state output.old)) (world_of (F.state store.new) (K.state output.new)) result }
        ensures idle { IdleUnread result (world_of (F.state store.old) (K.state output.old)) (world_of (F.state store.new) (K.state output.new)) }
        ensures blames { Blames (world_of (F.state store.old) (K.state output.old)) (world_of (F.state store.new) (K.state output.new)) result }
    {
        let session = &self.session;
        let count = sync_all(
            alloc,
            store,
            &self.view_db,
            session.shape(),
            session.tables(),
        )?;
        print_synced(alloc, output, count)?;
        Ok(())
    }

    /// The seed by which all is hashed that is kept for the view.
    pub fn seed(&self) -> Seed {
        self.session.catalogue().seed()
    }

    /// Whether a group is open.
    #[tactic(auto, using(crate::proofs::ViewLemmas::there_counted))]
    pub fn in_group(&self) -> bool
        ensures { result ≡ in_group self.now }
    {
        self.session.held().is_some()
    }

    // How many lines are refused in the open group with one more.
    fn more_broken(&self) -> Result<usize, NoMemory>
        ensures { IfOk result (λ broken. broken ≡ more_broken self.now) }
    {
        if !self.in_group() {
            return Ok(self.broken);
        }
        // More lines than can be counted are no memory.
        match self.broken.checked_add(1) {
            Some(broken) => Ok(broken),
            None => Err(NoMemory),
        }
    }

    /// Refuses a line.
    #[tactic(auto, using(outside::proofs::Following::following))]
    pub fn refuse<K: Sink>(
        &mut self,
        alloc: Global,
        output: &mut K,
        fields: Row,
    ) -> Result<(), Stop>
        ensures does { (s : _) → Does (refuses fields ∷ []) (world_of s (K.state output.old)) (world_of s (K.state output.new)) result }
        ensures view { OnOk result (self.new ≡ (refusing self.old fields).view) }
        ensures blames { SinkBlames (K.state output.old) (K.state output.new) result }
    {
        let broken = self.more_broken()?;
        refuse(alloc, output, fields)?;
        self.some_refused = true;
        self.broken = broken;
        Ok(())
    }

    /// Refuses a group that has ended.
    #[tactic(auto, using(outside::proofs::Following::following))]
    pub fn refuse_group<K: Sink>(
        &mut self,
        alloc: Global,
        output: &mut K,
        fields: Row,
    ) -> Result<(), Stop>
        ensures does { (s : _) → Does (refuses fields ∷ []) (world_of s (K.state output.old)) (world_of s (K.state output.new)) result }
        ensures view { OnOk result (self.new ≡ record { session = self.old.session; synced = self.old.synced; refused = true; broken = 0 }) }
        ensures blames { SinkBlames (K.state output.old) (K.state output.new) result }
    {
        refuse(alloc, output, fields)?;
        self.some_refused = true;
        self.broken = 0;
        Ok(())
    }

    // Of the labels that were named, how many have a table, or had one at the last sync.
    fn sync_count(&self) -> usize
        ensures { result ≡ sync_count self.now }
    {
        self.session
            .changed_labels()
            .iter()
            .filter(|label| self.has_file(label))
            .count()
    }

    // Whether a label has a table, or had one at the last sync.
    fn has_file(&self, label: &Text) -> bool
        ensures { result ≡ (is_in label.now (labels_of (tables_of self.now.session)) || is_in label.now self.now.synced) }
    {
        self.has_table(label) || self.had_table(label)
    }

    // Whether a label has a table.
    #[tactic(auto, using(view_stages::proofs::LabelLemmas::has_label))]
    fn has_table(&self, label: &Text) -> bool
        ensures { result ≡ is_in label.now (labels_of (tables_of self.now.session)) }
    {
        self.session.tables().table_of(label).is_some()
    }

    // Whether a label had a table at the last sync.
    fn had_table(&self, label: &Text) -> bool
        ensures { result ≡ is_in label.now self.now.synced }
    {
        self.synced.binary_search(label).is_ok()
    }

    /// Syncs the files of the labels that were named, and prints how many they are.
    #[tactic(auto, using(outside::proofs::Following::following, outside::proofs::EffectLemmas::partly_more, outside::proofs::EffectLemmas::partly_later, outside::proofs::EffectLemmas::performed_append, view_stages::proofs::StageLemmas::meaning_fits))]
    pub fn write_named<F: Folders, K: Sink>(
        &self,
        alloc: Global,
        store: &mut F,
        output: &mut K,
    ) -> Result<(), Stop>
        ensures does { Does (view_effects self.now) (world_of (F.state store.old) (K.state output.old)) (world_of (F.state store.new) (K.state output.new)) result }
        ensures no_read { IfErr result (λ e. e ≢ Stop.ReadFault) }
        ensures blames { Blames (world_of (F.state store.old) (K.state output.old)) (world_of (F.state store.new) (K.state output.new)) result }
    {
        let session = &self.session;
        sync(
            alloc,
            store,
            &self.view_db,
            session.shape(),
            session.tables(),
            session.changed_labels(),
        )?;
        print_synced(alloc, output, self.sync_count())?;
        Ok(())
    }

    // Saves the relations and databases that were named.
    fn save_named<F: Folders>(&self, alloc: Global, store: &mut F) -> Result<(), Stop>
        ensures { Performs (saving self.now.session) (F.state store.old) (F.state store.new) result }
    {
        let session = &self.session;
        save_changed(
            alloc,
            store,
            session.catalogue(),
            session.changed_databases(),
            session.changed_relations(),
        )
    }

    /// Saves the sources that were named, and then syncs the view's files.
    #[tactic(auto, using(outside::proofs::Following::following, outside::proofs::EffectLemmas::partly_more, outside::proofs::EffectLemmas::partly_later, outside::proofs::EffectLemmas::performed_append))]
    pub fn write_changed<F: Folders, K: Sink>(
        &self,
        alloc: Global,
        store: &mut F,
        output: &mut K,
    ) -> Result<(), Stop>
        ensures does { Does (sync_effects self.now) (world_of (F.state store.old) (K.state output.old)) (world_of (F.state store.new) (K.state output.new)) result }
        ensures no_read { IfErr result (λ e. e ≢ Stop.ReadFault) }
        ensures blames { Blames (world_of (F.state store.old) (K.state output.old)) (world_of (F.state store.new) (K.state output.new)) result }
    {
        self.save_named(alloc, store)?;
        self.write_named(alloc, store, output)?;
        Ok(())
    }

    // Notes that the files of these labels, which are those of the tables, are synced.
    fn note_synced(&mut self, labels: Vec<Text>)
        requires labels { labels.items ≡ labels_of (tables_of self.old.session) }
        requires ascends { IsStrictlySortedBy text_cmp labels.items }
        ensures { self.new ≡ synced_view self.old }
    {
        self.session.clear_changed();
        self.synced = labels;
    }

    /// A sync, which saves the sources.
    #[tactic(auto, using(outside::proofs::Following::following))]
    pub fn sync<F: Folders, K: Sink>(
        &mut self,
        alloc: Global,
        store: &mut F,
        output: &mut K,
    ) -> Result<(), Stop>
        ensures does { Does (syncing self.old).effects (world_of (F.state store.old) (K.state output.old)) (world_of (F.state store.new) (K.state output.new)) result }
        ensures view { OnOk result (self.new ≡ (syncing self.old).view) }
        ensures no_read { IfErr result (λ e. e ≢ Stop.ReadFault) }
        ensures blames { Blames (world_of (F.state store.old) (K.state output.old)) (world_of (F.state store.new) (K.state output.new)) result }
    {
        let synced = self.session.tables().labels(alloc)?;
        self.write_changed(alloc, store, output)?;
        self.note_synced(synced);
        Ok(())
    }

    /// A sync of the view's files, which leaves the sources as they are.
    #[tactic(auto, using(outside::proofs::Following::following))]
    pub fn sync_view<F: Folders, K: Sink>(
        &mut self,
        alloc: Global,
        store: &mut F,
        output: &mut K,
    ) -> Result<(), Stop>
        ensures does { Does (syncing_view self.old).effects (world_of (F.state store.old) (K.state output.old)) (world_of (F.state store.new) (K.state output.new)) result }
        ensures view { OnOk result (self.new ≡ (syncing_view self.old).view) }
        ensures no_read { IfErr result (λ e. e ≢ Stop.ReadFault) }
        ensures blames { Blames (world_of (F.state store.old) (K.state output.old)) (world_of (F.state store.new) (K.state output.new)) result }
    {
        let labels = self.session.tables().labels(alloc)?;
        self.write_named(alloc, store, output)?;
        self.note_synced(labels);
        Ok(())
    }
}
