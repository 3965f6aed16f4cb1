//! The labels of tables.
ghost use Rattle.std.specs.Prelude.{◌≡◌, IfOk};
ghost use Rattle.ss_text.specs.Texts.{is_in};
ghost use Rattle.flow_law.specs.Tables.{labels_of};

use kept_tables::KeptTables;
use ss_text::{NoMemory, Text};
use std::alloc::Global;
use std::marker::Model;

/// The labels of tables, each once, ascending. Contracts see their list.
pub struct TableLabels {
    labels: Vec<Text>,
}

impl Drop for TableLabels {
    fn drop(self) {
        let TableLabels { labels } = self;
        drop(labels);
    }
}

impl Model for TableLabels {
    ghost use Rattle.std.specs.Prelude.{List};
    ghost use Rattle.std.specs.List.Sorted.{IsStrictlySortedBy};
    ghost use Rattle.ss_text.specs.Texts.{Text, text_cmp};

    ghost Value = { List Text };

    ghost view = { λ l. l.labels.items };

    ghost invariant = { λ l. IsStrictlySortedBy text_cmp l.labels.items };
}

impl TableLabels {
    // The labels of these tables.
    pub(crate) fn of(alloc: Global, tables: &KeptTables) -> Result<TableLabels, NoMemory>
        ensures { IfOk result (λ labels. labels ≡ labels_of tables.now.tables) }
    {
        let labels = tables.labels(alloc)?;
        Ok(TableLabels { labels })
    }

    // Whether this is one of them.
    pub(crate) fn has(&self, label: &Text) -> bool
        ensures { result ≡ is_in label.now self.now }
    {
        self.labels.binary_search(label).is_ok()
    }
}
