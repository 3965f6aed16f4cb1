//! The operators of comparisons.
ghost use Rattle.std.specs.Prelude.{◌≡◌};
ghost use Rattle.ss_parser.specs.Conditions.{operators, spelled};

use view_def::Op;

/// The operator that a sign spells, if it spells one.
pub(crate) fn operator_of(sign: &[u8]) -> Option<Op>
    ensures { result ≡ spelled operators sign.now }
{
    match sign {
        b"=" => Some(Op::Eq),
        b"<>" => Some(Op::Ne),
        b"<" => Some(Op::Lt),
        b"<=" => Some(Op::Le),
        b">" => Some(Op::Gt),
        b">=" => Some(Op::Ge),
        _ => None,
    }
}
