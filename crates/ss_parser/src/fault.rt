//! Why a view text is refused.

use ss_text::NoMemory;
use std::alloc::{AllocError, AllocFailed};

/// Why a view text is refused. Places are in bytes, from 0.
#[derive(Clone, Copy, Debug, PartialEq, Eq)]
pub enum ParseFault {
    /// A token is to begin at this place, and none begins so.
    BadByte { at: usize },
    /// A quote opens at this place, and does not close.
    OpenQuote { at: usize },
    /// The tokens before the one at this place begin some view, and with it they begin none.
    Unexpected { at: usize },
    /// A NOT or a parenthesis opens at this place inside 64 others that are open.
    TooDeep { at: usize },
    NoMemory,
}

impl From<NoMemory> for ParseFault {
    ghost use Rattle.std.specs.Prelude.{◌≡◌};
    ghost use Rattle.ss_parser.specs.declared.fault.ParseFault.TheVariants as fault;

    ghost from_gives = { λ _ e. e ≡ fault.NoMemory };

    fn from(_: NoMemory) -> ParseFault {
        ParseFault::NoMemory
    }
}

/// Why nothing is read from here on.
#[derive(Clone, Copy, Debug, PartialEq, Eq)]
pub(crate) enum ParseStop {
    /// The next token goes on no view, or is none.
    Unexpected,
    /// The next token would open one too many.
    TooDeep,
    NoMemory,
}

impl From<NoMemory> for ParseStop {
    ghost use Rattle.std.specs.Prelude.{◌≡◌};
    ghost use Rattle.ss_parser.specs.declared.fault.ParseStop.TheVariants as stop;

    ghost from_gives = { λ _ e. e ≡ stop.NoMemory };

    fn from(_: NoMemory) -> ParseStop {
        ParseStop::NoMemory
    }
}

impl From<AllocError> for ParseStop {
    ghost use Rattle.std.specs.Prelude.{◌≡◌};
    ghost use Rattle.ss_parser.specs.declared.fault.ParseStop.TheVariants as stop;

    ghost from_gives = { λ _ e. e ≡ stop.NoMemory };

    fn from(_: AllocError) -> ParseStop {
        ParseStop::NoMemory
    }
}

impl<T: Drop> From<AllocFailed<T>> for ParseStop {
    ghost use Rattle.std.specs.Prelude.{◌≡◌};
    ghost use Rattle.ss_parser.specs.declared.fault.ParseStop.TheVariants as stop;

    ghost from_gives = { λ _ e. e ≡ stop.NoMemory };

    fn from(_: AllocFailed<T>) -> ParseStop {
        ParseStop::NoMemory
    }
}
