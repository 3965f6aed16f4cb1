//! Numbers in decimal.
ghost use Rattle.std.specs.Prelude.{◌≡◌, ◌++◌, IfOk, decimal};
ghost use Rattle.ss_text.specs.Texts.{text_eq};
ghost use Rattle.load_run.specs.Numbers.{number_in, changes_of, seed_of};

use itoa::Buffer;
use ss_text::{NoMemory, Text, whole};
use std::alloc::Global;

/// The number of changes that a word spells: 1 to 200,000 in decimal, without sign or leading zeros.
pub fn changes_of(word: &Text) -> Option<u32>
    ensures { result ≡ changes_of word.now }
{
    number_in(word, 1, 200_000)
}

/// The seed that a word spells: 0 to 999,999 in decimal, without sign or leading zeros.
pub fn seed_of(word: &Text) -> Option<u32>
    ensures { result ≡ seed_of word.now }
{
    number_in(word, 0, 999_999)
}

// The number from `least` to `most` that a word spells in decimal, without sign or leading zeros.
fn number_in(word: &Text, least: u32, most: u32) -> Option<u32>
    ensures { result ≡ number_in least most word.now }
{
    let number = u32::try_from(whole(word)?).ok()?;
    if least <= number && number <= most && is_decimal(word, number) {
        Some(number)
    } else {
        None
    }
}

// Whether a word is a number in decimal.
fn is_decimal(word: &Text, number: u32) -> bool
    ensures { result ≡ text_eq word.now (decimal number) }
{
    let mut buffer = Buffer::new();
    word.as_slice() == buffer.format(number).as_bytes()
}

// A number in decimal, behind these bytes.
pub(crate) fn number_behind(alloc: Global, front: &[u8], number: u128) -> Result<Text, NoMemory>
    ensures { IfOk result (λ text. text ≡ front.now ++ decimal number) }
{
    let mut buffer = Buffer::new();
    let mut bytes = Vec::from_slice(alloc, front)?;
    bytes.extend_from_slice(buffer.format(number).as_bytes())?;
    Text::of_vec(bytes)
}
