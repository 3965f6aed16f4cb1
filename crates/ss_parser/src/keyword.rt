//! The keywords.
ghost use Rattle.std.specs.Prelude.{◌≡◌};
ghost use Rattle.std.specs.Str.{str_to_ascii_lowercase};
ghost use Rattle.ss_text.specs.Texts.{is_in, text_eq};
ghost use Rattle.ss_lexer.specs.Lexemes.{keywords, word as word_lexeme};
ghost use Rattle.ss_parser.specs.Terms.{says_key};
ghost use Rattle.ss_parser.specs.Keywords.{spelling};

/// A word that is no identifier, in any ASCII case.
#[derive(Clone, Copy, Debug, PartialEq, Eq)]
pub(crate) enum Keyword {
    Create,
    View,
    As,
    Select,
    From,
    Where,
    And,
    Or,
    Not,
}

impl Keyword {
    /// Whether a word spells this keyword.
    pub(crate) fn is_spelled(self, word: &[u8]) -> bool
        ensures { result ≡ says_key (spelling self) (word_lexeme word.now) }
    {
        word.eq_ignore_ascii_case(self.spelling())
    }

    // Whether a word is this one, in any case.
    fn spells(self, word: &[u8]) -> bool
        ensures { result ≡ text_eq (str_to_ascii_lowercase word.now) (spelling self) }
    {
        word.eq_ignore_ascii_case(self.spelling())
    }

    // How it is spelled, in small letters.
    fn spelling(self) -> &'static [u8]
        ensures { result.now ≡ spelling self }
    {
        match self {
            Keyword::Create => b"create",
            Keyword::View => b"view",
            Keyword::As => b"as",
            Keyword::Select => b"select",
            Keyword::From => b"from",
            Keyword::Where => b"where",
            Keyword::And => b"and",
            Keyword::Or => b"or",
            Keyword::Not => b"not",
        }
    }
}

/// Whether a word spells a keyword.
pub(crate) fn is_keyword(word: &[u8]) -> bool
    ensures { result ≡ is_in (str_to_ascii_lowercase word.now) keywords }
{
    ALL.iter().any(|k| k.spells(word))
}

const ALL: [Keyword; 9] = [
    Keyword::Create,
    Keyword::View,
    Keyword::As,
    Keyword::Select,
    Keyword::From,
    Keyword::Where,
    Keyword::And,
    Keyword::Or,
    Keyword::Not,
];
