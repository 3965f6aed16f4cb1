//! What stands first among packed texts.
ghost use Rattle.std.specs.Prelude.{◌≡◌, ◌≤◌, ◌∷◌, ◌++◌, map, length, false, IfOk, IsTrue};
ghost use Rattle.std.specs.Option.{option_map_or};
ghost use Rattle.ss_text.specs.Texts.{Row as RowList, row_eq};
ghost use Rattle.feed_core.specs.Packed.{is_wide, first_length, behind_length, first_text, behind_text, unpacked_row};

use ss_text::{NoMemory, Row, Text};
use std::alloc::Global;

/// The row whose packed texts these are.
#[tactic(auto, using(crate::proofs::PackedLemmas::behind_less))]
pub(crate) fn unpack_row(alloc: Global, bytes: &[u8]) -> Result<Row, NoMemory>
    ensures { IfOk result (λ row. row ≡ unpacked_row bytes.now) }
{
    let mut texts = Vec::new(alloc);
    let mut rest = bytes;
    while !rest.is_empty() {
        let (text, behind) = split_text(rest);
        texts.push(Text::of(alloc, text)?)?;
        rest = behind;
    }
    Ok(Row::of(texts))
}

/// The text that stands first, and what is behind it.
#[tactic(auto, using(crate::proofs::PackedLemmas::all_taken, crate::proofs::PackedLemmas::none_left))]
pub(crate) fn split_text(bytes: &[u8]) -> (&[u8], &[u8])
    ensures first { result.0.now ≡ first_text bytes.now }
    ensures behind { result.1.now ≡ behind_text bytes.now }
{
    let (length, behind) = split_length(bytes);
    if length < behind.len() {
        behind.split_at(length)
    } else {
        behind.split_at(behind.len())
    }
}

// The length that stands first, and what is behind it.
fn split_length(bytes: &[u8]) -> (usize, &[u8])
    ensures length { result.0 ≡ first_length bytes.now }
    ensures behind { result.1.now ≡ behind_length bytes.now }
{
    let [first, rest @ ..] = bytes else {
        return (0, bytes);
    };
    if is_wide(*first, rest) {
        let mut wide = [0; 8];
        wide.copy_from_slice(&rest[..8]);
        return (u64::from_le_bytes(wide) as usize, &rest[8..]);
    }
    (*first as usize, rest)
}

// Whether the length that stands first takes eight bytes more.
fn is_wide(first: u8, rest: &[u8]) -> bool
    ensures wide { result ≡ is_wide first rest.now }
    ensures there { IsTrue result → 8 ≤ length rest.now }
{
    first == 255 && rest.len() >= 8
}

/// Whether packed texts are a word, some texts and some more.
pub(crate) fn are_packed(bytes: &[u8], word: &[u8], texts: &[&Text], more: &[Text]) -> bool
    ensures { result ≡ row_eq (word.now ∷ (map (λ t. t.now) texts.now ++ more.now)) (unpacked_row bytes.now) }
{
    let Some(mut rest) = behind_if(bytes, word) else {
        return false;
    };
    for text in texts {
        let Some(behind) = behind_if(rest, text.as_slice()) else {
            return false;
        };
        rest = behind;
    }
    are_last(rest, more)
}

// Whether packed texts are these.
fn are_last(bytes: &[u8], texts: &[Text]) -> bool
    ensures { result ≡ row_eq texts.now (unpacked_row bytes.now) }
{
    let mut rest = bytes;
    for text in texts {
        let Some(behind) = behind_if(rest, text.as_slice()) else {
            return false;
        };
        rest = behind;
    }
    rest.is_empty()
}

// What is behind the text that stands first, if it is this one.
#[tactic(auto, using(crate::proofs::PackedLemmas::first_compared))]
fn behind_if<'a>(bytes: &'a [u8], text: &[u8]) -> Option<&'a [u8]>
    ensures { (texts : RowList) → row_eq (text.now ∷ texts) (unpacked_row bytes.now) ≡ option_map_or (λ behind. row_eq texts (unpacked_row behind.now)) result false }
{
    if bytes.is_empty() {
        return None;
    }
    let (first, behind) = split_text(bytes);
    if text == first { Some(behind) } else { None }
}
