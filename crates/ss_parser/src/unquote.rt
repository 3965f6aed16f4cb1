//! What stands between quotes.
ghost use Rattle.std.specs.Prelude.{◌≡◌, ◌<◌, ◌≤◌, ◌∷◌, drop, length, slice_index, IfOk};
ghost use Rattle.ss_lexer.specs.Lexemes.{inner, undoubled};

use ss_text::{NoMemory, Text};
use std::alloc::Global;

/// The text of a quotation, without the quotes round it and with each doubled quote once.
pub(crate) fn unquoted(alloc: Global, quote: u8, token: &[u8]) -> Result<Text, NoMemory>
    ensures { IfOk result (λ text. text ≡ undoubled quote (inner token.now)) }
{
    match token {
        [_, inner @ .., _] => undoubled(alloc, quote, inner),
        _ => Ok(Text::of(alloc, &[])?),
    }
}

// The text with each doubled quote once.
fn undoubled(alloc: Global, quote: u8, inner: &[u8]) -> Result<Text, NoMemory>
    ensures { IfOk result (λ text. text ≡ undoubled quote inner.now) }
{
    let mut bytes = Vec::with_capacity(alloc, inner.len())?;
    let mut at = 0;
    while at < inner.len() {
        bytes.push(inner[at])?;
        at += step(quote, &inner[at..]);
    }
    Text::of(alloc, &bytes)
}

// How many bytes the first one stands for.
fn step(quote: u8, rest: &[u8]) -> usize
    requires { 0 < length rest.now }
    ensures stands_for { undoubled quote rest.now ≡ slice_index rest.now 0 ∷ undoubled quote (drop result rest.now) }
    ensures some { 0 < result }
    ensures inside { result ≤ length rest.now }
{
    match rest {
        [first, second, ..] if *first == quote && *second == quote => 2,
        _ => 1,
    }
}
