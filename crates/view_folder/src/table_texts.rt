//! Tables of which a view folder has the files.
ghost use Rattle.std.specs.Prelude.{◌≡◌, IfOk, option_map};
ghost use Rattle.flow_law.specs.Tables.{TablesValue, table_of};
ghost use Rattle.view_folder.specs.Files.{AreViewFiles};
ghost use Rattle.view_folder.specs.TableFiles.{table_text, table_files, FitShape};
ghost use Rattle.view_folder.specs.Sync.{has_table};

use crate::File;
use crate::fact_file::{fact_files, facts_of, facts_text};
use crate::kept_file::{kept_files, kept_text};
use crate::table_file::{table_files, table_text};
use fact_tables::{FactCell, OrderedFacts};
use flow_law::{Shape, Tables};
use kept_tables::KeptTables;
use ss_text::{NoMemory, Text};
use std::alloc::Global;

/// Tables whose files can be made.
pub trait TableTexts {
    /// The tables.
    ghost tables: { Self → TablesValue };

    /// Whether a label has a table.
    fn has_table(&self, alloc: Global, label: &Text) -> Result<bool, NoMemory>
        ensures { IfOk result (λ has. has ≡ has_table (tables self.now) label.now) };

    /// The text of the file of a label's table, if there is one.
    fn text_of(&self, alloc: Global, shape: &Shape, label: &Text) -> Result<Option<Text>, NoMemory>
        requires { FitShape shape.now (tables self.now) }
        ensures { IfOk result (λ text. text ≡ option_map (table_text shape.now) (table_of (tables self.now) label.now)) };

    /// The files of all tables, in the order of their labels.
    fn files(&self, alloc: Global, shape: &Shape) -> Result<Vec<File>, NoMemory>
        requires { FitShape shape.now (tables self.now) }
        ensures files { IfOk result (λ files. files.items ≡ table_files shape.now (tables self.now)) }
        ensures named { AreViewFiles (table_files shape.now (tables self.now)) };
}

impl TableTexts for Tables {
    ghost tables = { λ tables. tables };

    #[tactic(auto, using(crate::proofs::LaterLemmas::copied_there))]
    fn has_table(&self, _alloc: Global, label: &Text) -> Result<bool, NoMemory> {
        Ok(self.table_of(label).is_some())
    }

    #[tactic(auto, using(crate::proofs::LaterLemmas::fits_of))]
    fn text_of(
        &self,
        alloc: Global,
        shape: &Shape,
        label: &Text,
    ) -> Result<Option<Text>, NoMemory> {
        let Some(table) = self.table_of(label) else {
            return Ok(None);
        };
        let text = table_text(alloc, table, shape)?;
        Ok(Some(text))
    }

    fn files(&self, alloc: Global, shape: &Shape) -> Result<Vec<File>, NoMemory> {
        table_files(alloc, self, shape)
    }
}

impl TableTexts for KeptTables {
    ghost tables = { λ kept. kept.tables };

    #[tactic(auto, using(crate::proofs::LaterLemmas::mapped_there))]
    fn has_table(&self, _alloc: Global, label: &Text) -> Result<bool, NoMemory> {
        Ok(self.table_of(label).is_some())
    }

    #[tactic(auto, using(crate::proofs::LaterLemmas::fits_of))]
    fn text_of(
        &self,
        alloc: Global,
        shape: &Shape,
        label: &Text,
    ) -> Result<Option<Text>, NoMemory> {
        let Some(table) = self.table_of(label) else {
            return Ok(None);
        };
        let text = kept_text(alloc, table, shape)?;
        Ok(Some(text))
    }

    #[tactic(auto, using(crate::proofs::OpeningLemmas::labelled_files))]
    fn files(&self, alloc: Global, shape: &Shape) -> Result<Vec<File>, NoMemory> {
        kept_files(alloc, self.slots(), shape)
    }
}

impl<C: FactCell> TableTexts for OrderedFacts<'_, C> {
    ghost tables = { λ tables. tables };

    #[tactic(auto, using(crate::proofs::LaterLemmas::mapped_there))]
    fn has_table(&self, alloc: Global, label: &Text) -> Result<bool, NoMemory> {
        let tables = self.by_table(alloc)?;
        Ok(facts_of(&tables, label).is_some())
    }

    #[tactic(auto, using(crate::proofs::LaterLemmas::fits_of))]
    fn text_of(
        &self,
        alloc: Global,
        shape: &Shape,
        label: &Text,
    ) -> Result<Option<Text>, NoMemory> {
        let tables = self.by_table(alloc)?;
        let Some(facts) = facts_of(&tables, label) else {
            return Ok(None);
        };
        let text = facts_text(alloc, facts, shape)?;
        Ok(Some(text))
    }

    #[tactic(auto, using(crate::proofs::OpeningLemmas::are_view_files))]
    fn files(&self, alloc: Global, shape: &Shape) -> Result<Vec<File>, NoMemory> {
        let tables = self.by_table(alloc)?;
        fact_files(alloc, &tables, shape)
    }
}
