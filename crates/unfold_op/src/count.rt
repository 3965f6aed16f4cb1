//! Counting facts that come one after another.
ghost use Rattle.std.specs.Prelude.{◌≡◌, ◌∷◌, ◌+◌, ◌^◌, ◌<◌, List, Some, false, OnOk, if◌then◌else◌};
ghost use Rattle.ss_text.specs.Texts.{Text as TextValue, text_eq};
ghost use Rattle.indexmap.specs.IndexMap.{get};
ghost use Rattle.counts.specs.Counted.{counted};
ghost use Rattle.flow_law.specs.Facts.{Fact};
ghost use Rattle.unfold_op.specs.Touched.{Place, place_eq};
ghost use Rattle.unfold_op.specs.Kept.{times_at};
ghost use Rattle.unfold_op.specs.Moves.{CanCount, Stands};

use crate::facts::FactCounts;
use counts::Key;
use indexmap::IndexMap;
use indexmap::map::Entry;
use ss_text::{NoMemory, Row, Seed, Text};

// Counts a key once more, which is let go where it is there.
fn count_owned<K: Key>(counts: &mut IndexMap<K, u128, Seed>, key: K) -> Result<(), NoMemory>
    requires { counted K.eq counts.old key + 1 < 2 ^ 128 }
    ensures { OnOk result ((q : K) → counted K.eq counts.new q ≡ counted K.eq counts.old q + (if K.eq key q then 1 else 0)) }
{
    let count = counts.entry(key)?.or_insert(0);
    *count += 1;
    Ok(())
}

// Counts a key once more, which is copied where it is new.
fn count_copied<K: Key>(counts: &mut IndexMap<K, u128, Seed>, key: &K) -> Result<(), NoMemory>
    requires { counted K.eq counts.old key.now + 1 < 2 ^ 128 }
    ensures { OnOk result ((q : K) → counted K.eq counts.new q ≡ counted K.eq counts.old q + (if K.eq key.now q then 1 else 0)) }
{
    match counts.get_mut(key) {
        Some(count) => {
            *count += 1;
        }
        None => {
            counts.insert(key.copied()?, 1)?;
        }
    }
    Ok(())
}

// Counts the value of a place once more. No other value is kept there.
fn count_value(
    cells: &mut IndexMap<(Row, Text), (Text, u128), Seed>,
    place: (Row, Text),
    value: Text,
) -> Result<(), NoMemory>
    requires { times_at cells.old place + 1 < 2 ^ 128 }
    ensures { OnOk result ((q : Place) → get place_eq cells.new q ≡ (if place_eq place q then Some (value, times_at cells.old place + 1) else get place_eq cells.old q)) }
{
    match cells.entry(place)? {
        Entry::Occupied(mut entry) => {
            let kept = entry.get_mut();
            kept.0 = value;
            kept.1 += 1;
        }
        Entry::Vacant(entry) => {
            entry.insert((value, 1));
        }
    }
    Ok(())
}

impl FactCounts {
    // Counts a fact with a column and a value. An empty value is not kept.
    fn count_cell(&mut self, key: Row, column: Text, value: Text) -> Result<(), NoMemory>
        requires { (label : TextValue) × (fs : List Fact) × CanCount self.old (record { label = label; key = key; cell = Some (column, value) }) fs }
        ensures { OnOk result ((label : TextValue) (fs : List Fact) → CanCount self.old (record { label = label; key = key; cell = Some (column, value) }) fs
            → Stands self.new (record { label = label; key = key; cell = Some (column, value) } ∷ fs)) }
    {
        if value.as_slice().is_empty() {
            count_owned(&mut self.keys, key)?;
            count_owned(&mut self.columns, column)?;
            return Ok(());
        }
        count_copied(&mut self.keys, &key)?;
        count_copied(&mut self.columns, &column)?;
        count_value(&mut self.cells, (key, column), value)?;
        Ok(())
    }

    /// Counts one fact more, of this key, and with this column and value where it has them. It bears the label of those that
    /// are counted and does not conflict with them. After `NoMemory` the counts stand for no facts.
    pub fn count(&mut self, key: Row, cell: Option<(Text, Text)>) -> Result<(), NoMemory>
        requires { (label : TextValue) × (fs : List Fact) × CanCount self.old (record { label = label; key = key; cell = cell }) fs }
        ensures { OnOk result ((label : TextValue) (fs : List Fact) → CanCount self.old (record { label = label; key = key; cell = cell }) fs
            → Stands self.new (record { label = label; key = key; cell = cell } ∷ fs)) }
    {
        match cell {
            None => count_owned(&mut self.keys, key)?,
            Some((column, value)) => self.count_cell(key, column, value)?,
        }
        Ok(())
    }
}
