//! Groups of changes as text.
ghost use Rattle.std.specs.Prelude.{◌≡◌, ◌+◌, ◌<◌, ◌^◌, ◌∷◌, [], ℕ, Some, length, IfOk};
ghost use Rattle.change_journal.specs.Spelled.{Group, spelled, group_text, group_of};
ghost use Rattle.change_journal.specs.Entries.{number_of};
ghost use Rattle.change_journal.specs.Journals.{IsEntryOf};

use schema_model::Change;
use ss_text::{NoMemory, Text};
use std::alloc::Global;
use tab_lines::write_line;

/// What is written behind the first byte of an entry: the length of the text of a group, high byte first, the text, and a byte 0.
pub(crate) fn entry_of(alloc: Global, text: &[u8]) -> Result<Vec<u8>, NoMemory>
    requires { length text.now < 2 ^ 32 }
    ensures entry { IfOk result (λ entry. (group : Group) → group_of text.now ≡ Some group → IsEntryOf group entry.items) }
    ensures len { IfOk result (λ entry. length entry.items ≡ 5 + length text.now) }
{
    let mut entry = Vec::new(alloc);
    entry.extend_from_slice(&bytes_of(text.len()))?;
    entry.extend_from_slice(text)?;
    entry.push(0)?;
    Ok(entry)
}

// A number as four bytes, high byte first.
fn bytes_of(n: usize) -> [u8; 4]
    requires { n < 2 ^ 32 }
    ensures { (a : ℕ) × (b : ℕ) × (c : ℕ) × (d : ℕ) × (result ≡ a ∷ b ∷ c ∷ d ∷ []) × (number_of a b c d ≡ n) }
{
    let high = n / 65536;
    let low = n % 65536;
    [
        (high / 256) as u8,
        (high % 256) as u8,
        (low / 256) as u8,
        (low % 256) as u8,
    ]
}

/// The text of a group: the lines of its changes, with LFs between them.
#[tactic(auto, using(crate::proofs::Spellings::group_begins, std::proofs::lemmas::Grind::common_steps))]
pub(crate) fn text_of(alloc: Global, group: &[Change]) -> Result<Vec<u8>, NoMemory>
    ensures { IfOk result (λ text. text.items ≡ group_text group.now) }
{
    let mut text = Vec::new(alloc);
    if let [first, rest @ ..] = group {
        text.extend_from_slice(line_of(alloc, first)?.as_slice())?;
        for change in rest {
            text.push(b'\n')?;
            text.extend_from_slice(line_of(alloc, change)?.as_slice())?;
        }
    }
    Ok(text)
}

// The line of a change.
#[tactic(auto, using(crate::proofs::Spellings::some_field))]
fn line_of(alloc: Global, change: &Change) -> Result<Text, NoMemory>
    ensures { IfOk result (λ line. line ≡ spelled change.now) }
{
    let row = change.write(alloc)?;
    write_line(alloc, &row)
}
