//! How many bytes a token takes, by the bytes that it begins with.
ghost use Rattle.std.specs.Prelude.{◌≡◌, ◌≤◌, length, IfSome};
ghost use Rattle.std.specs.Char.{is_ascii_digit};
ghost use Rattle.std.specs.List.{prefix_len};
ghost use Rattle.ss_lexer.specs.Spelling.{is_blank, is_letter, in_word, goes_on, word_len, quote_len, digits_len, sign_len};

const MOST_DIGITS: usize = 18;

// Whether a word begins with this byte.
pub(crate) fn is_letter(b: u8) -> bool
    ensures { result ≡ is_letter b }
{
    b.is_ascii_alphabetic() || b == b'_'
}

// Whether this byte goes on a word, whatever follows.
fn in_word(b: u8) -> bool
    ensures { result ≡ in_word b }
{
    is_letter(b) || b.is_ascii_digit()
}

// How many blanks begin the bytes.
pub(crate) fn blank_len(bytes: &[u8]) -> usize
    ensures value { result ≡ prefix_len is_blank bytes.now }
    ensures inside { result ≤ length bytes.now }
{
    bytes
        .iter()
        .take_while(|b| matches!(b, b' ' | b'\t' | b'\n' | b'\r'))
        .count()
}

// How many bytes go on a word.
#[tactic(auto, using(crate::proofs::LengthLemmas::word_len_step))]
pub(crate) fn word_len(bytes: &[u8]) -> usize
    ensures value { result ≡ word_len bytes.now }
    ensures inside { result ≤ length bytes.now }
{
    let mut len = 0;
    while goes_on(&bytes[len..]) {
        len += 1;
    }
    len
}

// Whether the first byte goes on a word.
fn goes_on(bytes: &[u8]) -> bool
    ensures { result ≡ goes_on bytes.now }
{
    match bytes {
        [b'-', second, ..] => in_word(*second),
        [first, ..] => in_word(*first),
        [] => false,
    }
}

// How many bytes behind an opening quote go up to the one that closes.
#[tactic(auto, using(crate::proofs::LengthLemmas::quote_len_other, crate::proofs::LengthLemmas::quote_len_double))]
pub(crate) fn quote_len(quote: u8, bytes: &[u8]) -> Option<usize>
    ensures value { result ≡ quote_len quote bytes.now }
    ensures inside { IfSome result (λ n. n ≤ length bytes.now) }
{
    let mut len = 0;
    loop {
        match &bytes[len..] {
            [] => return None,
            [first, ..] if *first != quote => len += 1,
            [_, second, ..] if *second == quote => len += 2,
            _ => return Some(len + 1),
        }
    }
}

// How many digits begin the bytes, but no more than a number may have.
pub(crate) fn digits_len(bytes: &[u8]) -> usize
    ensures value { result ≡ digits_len bytes.now }
    ensures inside { result ≤ length bytes.now }
{
    digit_count(bytes).min(MOST_DIGITS)
}

fn digit_count(bytes: &[u8]) -> usize
    ensures value { result ≡ prefix_len is_ascii_digit bytes.now }
    ensures inside { result ≤ length bytes.now }
{
    bytes.iter().take_while(|b| b.is_ascii_digit()).count()
}

// The length of the sign that the bytes begin with, or 0.
pub(crate) fn sign_len(bytes: &[u8]) -> usize
    ensures value { result ≡ sign_len bytes.now }
    ensures inside { result ≤ length bytes.now }
{
    match bytes {
        [b':', b':', ..] | [b'-', b'>', ..] | [b'<', b'>' | b'=', ..] | [b'>', b'=', ..] => 2,
        [b'(' | b')' | b',' | b'.' | b';' | b'=' | b'<' | b'>', ..] => 1,
        _ => 0,
    }
}
