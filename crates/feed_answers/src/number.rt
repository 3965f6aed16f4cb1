//! The numbers under which changes are sent.
ghost use Rattle.std.specs.Prelude.{◌≡◌, ◌≤◌, IfSome};
ghost use Rattle.feed_answers.specs.Lines.{number_of};

use ss_text::{Text, whole};

/// The number that a text spells: 1 to 18 digits, of which the first is no zero.
pub(crate) fn number_of(text: &Text) -> Option<u64>
    ensures value { result ≡ number_of text.now }
    ensures least { IfSome result (λ n. 1 ≤ n) }
{
    spelled(text)
}

fn spelled(text: &Text) -> Option<u64>
    ensures { result ≡ number_of text.now }
{
    match text.as_slice() {
        [] | [b'0' | b'-', ..] => None,
        _ => match whole(text) {
            Some(n) => Some(n as u64),
            None => None,
        },
    }
}
