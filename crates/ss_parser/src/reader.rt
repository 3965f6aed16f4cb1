//! The pieces of a text, one of them ahead.
ghost use Rattle.std.specs.Prelude.{◌≡◌, ◌≤◌, ◌<◌, Bool, true, false, List, length, drop, IfOk, Some, option_map, slice_get, slice_range, map};
ghost use Rattle.std.specs.Bool.{OnTrue, OnFalse};
ghost use Rattle.std.specs.Str.{str_to_ascii_lowercase};
ghost use Rattle.ss_text.specs.Texts.{Text as bytes_of_text, is_in};
ghost use Rattle.ss_lexer.specs.Lexemes.{Piece, pieces, keywords};
ghost use Rattle.ss_parser.specs.Phrases.{next, passes};
ghost use Rattle.ss_parser.specs.Terms.{just, key as key_phrase, sign as sign_phrase, ident as ident_phrase, name as name_phrase, literal as literal_phrase, is_key, is_sign, is_ident};
ghost use Rattle.ss_parser.specs.Conditions.{starts_term, operator as operator_phrase};
ghost use Rattle.ss_parser.specs.Views.{finish as finish_phrase};
ghost use Rattle.ss_parser.specs.Keywords.{spelling};
ghost use Rattle.ss_parser.specs.Refused.{fault_at};
ghost use Rattle.ss_parser.specs.Parses.{Parses, ParsesAll, Passes};
ghost use Rattle.ss_parser.specs.Ahead.{is_end};

use crate::ParseFault;
use crate::fault::ParseStop;
use crate::keyword::{Keyword, is_keyword};
use crate::operator::operator_of;
use crate::unquote::unquoted;
use ss_lexer::{Kind, Token, TokenFault, Tokens};
use ss_text::{NoMemory, Text};
use std::alloc::Global;
use std::marker::Model;
use view_def::{Name, Op, RawTerm};

/// A text that is read, which contracts see as the list of the pieces that are left. There is always one more.
#[derive(Drop)]
pub(crate) struct Reader<'a> {
    bytes: &'a [u8],
    tokens: Tokens,
    ahead: Result<Token, TokenFault>,
}

impl<'a> Model for Reader<'a> {
    ghost use Rattle.std.specs.Prelude.{List, ◌≡◌, true, length};
    ghost use Rattle.ss_lexer.specs.Lexemes.{Piece};
    ghost use Rattle.ss_parser.specs.Ahead.{pieces_ahead, is_held};

    ghost Value = { List Piece };

    ghost view = { λ r. pieces_ahead r.bytes.now r.ahead r.tokens };

    ghost invariant = { λ r. is_held (length r.bytes.now) r.ahead r.tokens ≡ true };
}

impl<'a> Reader<'a> {
    /// A reader of these bytes, from their first on.
    pub(crate) fn of(alloc: Global, bytes: &'a [u8]) -> Result<Reader<'a>, NoMemory>
        ensures { IfOk result (λ r. r ≡ pieces bytes.now) }
    {
        let mut tokens = Tokens::of(alloc, bytes)?;
        let ahead = tokens.next();
        Ok(Reader {
            bytes,
            tokens,
            ahead,
        })
    }

    /// The place of the next piece.
    pub(crate) fn place(&self) -> usize
        ensures { option_map (λ p. p.at) (next self.now) ≡ Some result }
    {
        match self.ahead {
            Ok(token) => token.from,
            Err(TokenFault::BadByte { at } | TokenFault::OpenQuote { at }) => at,
        }
    }

    /// Why the next piece goes on no view: the fault of the text there, or that it is not expected.
    pub(crate) fn fault(&self) -> ParseFault
        ensures { option_map fault_at (next self.now) ≡ Some result }
    {
        match self.ahead {
            Ok(token) => ParseFault::Unexpected { at: token.from },
            Err(TokenFault::BadByte { at }) => ParseFault::BadByte { at },
            Err(TokenFault::OpenQuote { at }) => ParseFault::OpenQuote { at },
        }
    }

    // Passes over the next piece.
    fn advance(&mut self)
        requires { passes is_end (next self.old) ≡ false }
        ensures { self.new ≡ drop 1 self.old }
    {
        self.ahead = self.tokens.next();
    }

    /// Whether this sign is next.
    pub(crate) fn is_sign(&self, sign: &[u8]) -> bool
        ensures { result ≡ passes (is_sign sign.now) (next self.now) }
    {
        match self.ahead {
            Ok(token) => token.kind == Kind::Sign && text_of(self.bytes, token) == sign,
            Err(_) => false,
        }
    }

    /// Whether this keyword is next.
    pub(crate) fn is_key(&self, key: Keyword) -> bool
        ensures { result ≡ passes (is_key (spelling key)) (next self.now) }
    {
        match self.ahead {
            Ok(token) => token.kind == Kind::Word && key.is_spelled(text_of(self.bytes, token)),
            Err(_) => false,
        }
    }

    /// Whether an identifier is next.
    pub(crate) fn is_ident(&self) -> bool
        ensures { result ≡ passes is_ident (next self.now) }
    {
        match self.ahead {
            Ok(token) => token.kind == Kind::Word && !is_keyword(text_of(self.bytes, token)),
            Err(_) => false,
        }
    }

    /// Whether a term is next.
    pub(crate) fn is_term(&self) -> bool
        ensures { result ≡ passes starts_term (next self.now) }
    {
        match self.ahead {
            Ok(token) => match token.kind {
                Kind::Str | Kind::Num => true,
                _ => self.is_ident(),
            },
            Err(_) => false,
        }
    }

    /// Passes over this sign.
    pub(crate) fn sign(&mut self, sign: &[u8]) -> Result<(), ParseStop>
        ensures { Parses (λ _. tt) (sign_phrase sign.now) self.old self.new result }
    {
        if !self.is_sign(sign) {
            return Err(ParseStop::Unexpected);
        }
        self.advance();
        Ok(())
    }

    /// Passes over this keyword.
    pub(crate) fn key(&mut self, key: Keyword) -> Result<(), ParseStop>
        ensures { Parses (λ _. tt) (key_phrase (spelling key)) self.old self.new result }
    {
        if !self.is_key(key) {
            return Err(ParseStop::Unexpected);
        }
        self.advance();
        Ok(())
    }

    /// Passes over this sign, if it is next.
    pub(crate) fn takes_sign(&mut self, sign: &[u8]) -> bool
        ensures there { OnTrue result (Passes (is_sign sign.now) self.old self.new) }
        ensures missing { OnFalse result (passes (is_sign sign.now) (next self.old) ≡ false) }
        ensures stays { OnFalse result (self.new ≡ self.old) }
    {
        let there = self.is_sign(sign);
        if there {
            self.advance();
        }
        there
    }

    /// Passes over this keyword, if it is next.
    pub(crate) fn takes_key(&mut self, key: Keyword) -> bool
        ensures there { OnTrue result (Passes (is_key (spelling key)) self.old self.new) }
        ensures missing { OnFalse result (passes (is_key (spelling key)) (next self.old) ≡ false) }
        ensures stays { OnFalse result (self.new ≡ self.old) }
    {
        let there = self.is_key(key);
        if there {
            self.advance();
        }
        there
    }

    /// Sees that nothing is left.
    pub(crate) fn finish(&self) -> Result<(), ParseStop>
        ensures { ParsesAll (λ _. tt) finish_phrase self.now self.now result }
    {
        match self.ahead {
            Ok(token) if token.kind == Kind::Finish => Ok(()),
            _ => Err(ParseStop::Unexpected),
        }
    }

    /// An identifier.
    pub(crate) fn ident(&mut self, alloc: Global) -> Result<Text, ParseStop>
        ensures { Parses (λ t. t) ident_phrase self.old self.new result }
    {
        let text = match self.ahead {
            Ok(token) if self.is_ident() => Text::of(alloc, text_of(self.bytes, token))?,
            _ => return Err(ParseStop::Unexpected),
        };
        self.advance();
        Ok(text)
    }

    /// A name.
    pub(crate) fn name(&mut self, alloc: Global) -> Result<Name, ParseStop>
        ensures { Parses (λ n. n) name_phrase self.old self.new result }
    {
        let ahead = self.ahead;
        let name = match ahead {
            Ok(token) if token.kind == Kind::Quoted => Name {
                text: unquoted(alloc, b'"', text_of(self.bytes, token))?,
                quoted: true,
            },
            Ok(token) if self.is_ident() => Name {
                text: Text::of(alloc, text_of(self.bytes, token))?,
                quoted: false,
            },
            _ => return Err(ParseStop::Unexpected),
        };
        self.advance();
        Ok(name)
    }

    /// A literal.
    pub(crate) fn literal(&mut self, alloc: Global) -> Result<RawTerm, ParseStop>
        ensures { Parses (λ t. t) literal_phrase self.old self.new result }
    {
        let ahead = self.ahead;
        let text = match ahead {
            Ok(token) if token.kind == Kind::Str => {
                unquoted(alloc, b'\'', text_of(self.bytes, token))?
            }
            Ok(token) if token.kind == Kind::Num => Text::of(alloc, text_of(self.bytes, token))?,
            _ => return Err(ParseStop::Unexpected),
        };
        self.advance();
        Ok(RawTerm::Literal(text))
    }

    /// An operator.
    pub(crate) fn operator(&mut self) -> Result<Op, ParseStop>
        ensures { Parses (λ o. o) operator_phrase self.old self.new result }
    {
        let ahead = self.ahead;
        let op = match ahead {
            Ok(token) if token.kind == Kind::Sign => operator_of(text_of(self.bytes, token)),
            _ => None,
        };
        match op {
            Some(op) => {
                self.advance();
                Ok(op)
            }
            None => Err(ParseStop::Unexpected),
        }
    }
}

// The bytes of a token.
fn text_of(bytes: &[u8], token: Token) -> &[u8]
    requires ahead { token.from ≤ token.to }
    requires inside { token.to ≤ length bytes.now }
    ensures { result.now ≡ slice_range bytes.now token.from token.to }
{
    &bytes[token.from..token.to]
}
