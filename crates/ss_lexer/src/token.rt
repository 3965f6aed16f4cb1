//! A token, and what is wrong where no token begins.

/// The kind of a token.
#[derive(Clone, Copy, Debug, PartialEq, Eq)]
pub enum Kind {
    /// An ASCII letter or `_`, and then letters, digits, `_`, and each `-` that one of these follows.
    Word,
    /// A name in double quotes, each double quote inside doubled.
    Quoted,
    /// A literal in single quotes, each single quote inside doubled.
    Str,
    /// A `-` or none, and then 1 to 18 digits.
    Num,
    /// One of `(` `)` `,` `.` `;` `::` `->` `=` `<>` `<=` `>=` `<` `>`.
    Sign,
    /// The end of the text.
    Finish,
}

/// A token: its kind, the place of its first byte, and the place behind its last. Places are in bytes, from 0.
#[derive(Clone, Copy, Debug, PartialEq, Eq)]
pub struct Token {
    pub kind: Kind,
    pub from: usize,
    pub to: usize,
}

/// What is wrong with a text. Places are in bytes, from 0.
#[derive(Clone, Copy, Debug, PartialEq, Eq)]
pub enum TokenFault {
    /// A token is to begin at this place, and none begins so.
    BadByte { at: usize },
    /// A quote opens at this place, and does not close.
    OpenQuote { at: usize },
}
