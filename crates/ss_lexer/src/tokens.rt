//! The tokens of a text, one by one.
ghost use Rattle.std.specs.Prelude.{◌≡◌, ◌+◌, ◌<◌, ◌≤◌, ◌^◌, length, Some, IfOk, slice_get};
ghost use Rattle.ss_lexer.specs.Tokens.{answer, tokens, behind_first, IsFirst};

use crate::length::{blank_len, digits_len, is_letter, quote_len, sign_len, word_len};
use crate::{Kind, Token, TokenFault};
use ss_text::NoMemory;
use std::alloc::Global;
use std::marker::Model;

/// The tokens of a text that are left, which contracts see as a list: up to the end of the text, or to its first fault.
#[derive(Debug, Drop)]
pub struct Tokens {
    bytes: Vec<u8>,
    at: usize,
    behind_number: bool,
}

impl Model for Tokens {
    ghost use Rattle.std.specs.Prelude.{List, drop, ◌≤◌, vec_len};
    ghost use Rattle.ss_lexer.specs.Tokens.{Answer, tokens_from};

    ghost Value = { List Answer };

    ghost view = { λ t. tokens_from t.behind_number 0 t.at (drop t.at t.bytes.items) };

    ghost invariant = { λ t. t.at ≤ vec_len t.bytes };
}

impl Tokens {
    /// The tokens of a text, whose bytes are copied.
    #[tactic(auto, unfolding(crate::specs::Tokens::tokens))]
    pub fn of(alloc: Global, bytes: &[u8]) -> Result<Tokens, NoMemory>
        ensures { IfOk result (λ all. all ≡ tokens bytes.now) }
    {
        Ok(Tokens {
            bytes: Vec::from_slice(alloc, bytes)?,
            at: 0,
            behind_number: false,
        })
    }

    /// The next token, or the fault that stands there. The last answer, a `Finish` or a fault, comes again and again.
    pub fn next(&mut self) -> Result<Token, TokenFault>
        ensures first { slice_get self.old 0 ≡ Some result }
        ensures left { self.new ≡ behind_first self.old }
    {
        let token = next_token(&self.bytes[self.at..], self.at, self.behind_number)?;
        self.at = token.to;
        self.behind_number = token.kind == Kind::Num;
        Ok(token)
    }
}

// The next token of these bytes, which stand at this place.
fn next_token(bytes: &[u8], at: usize, behind_number: bool) -> Result<Token, TokenFault>
    requires { at + length bytes.now < 2 ^ 64 }
    ensures first { IsFirst behind_number at bytes.now result }
    ensures inside { IfOk result (λ t. t.to ≤ at + length bytes.now) }
{
    let blanks = blank_len(bytes);
    token_at(&bytes[blanks..], at + blanks, behind_number && blanks == 0)
}

// The token that these bytes begin with, which stand at this place and begin with no blank.
#[tactic(auto, unfolding(crate::specs::Tokens::answer))]
fn token_at(bytes: &[u8], at: usize, behind_number: bool) -> Result<Token, TokenFault>
    requires { at + length bytes.now < 2 ^ 64 }
    ensures value { result ≡ answer behind_number at bytes.now }
    ensures inside { IfOk result (λ t. t.to ≤ at + length bytes.now) }
{
    let token = |kind: Kind, len: usize| Token {
        kind,
        from: at,
        to: at + len,
    };
    match bytes {
        [] => Ok(token(Kind::Finish, 0)),
        [b'"', rest @ ..] => {
            let len = quote_len(b'"', rest).ok_or(TokenFault::OpenQuote { at })?;
            Ok(token(Kind::Quoted, 1 + len))
        }
        [b'\'', rest @ ..] => {
            let len = quote_len(b'\'', rest).ok_or(TokenFault::OpenQuote { at })?;
            Ok(token(Kind::Str, 1 + len))
        }
        [b'0'..=b'9', ..] if behind_number => Err(TokenFault::BadByte { at }),
        [b'0'..=b'9', ..] => Ok(token(Kind::Num, digits_len(bytes))),
        [b'-', b'0'..=b'9', ..] => Ok(token(Kind::Num, 1 + digits_len(&bytes[1..]))),
        [first, ..] if is_letter(*first) => Ok(token(Kind::Word, word_len(bytes))),
        _ => match sign_len(bytes) {
            0 => Err(TokenFault::BadByte { at }),
            len => Ok(token(Kind::Sign, len)),
        },
    }
}
