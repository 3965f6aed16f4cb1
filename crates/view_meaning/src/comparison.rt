//! The comparisons of a condition.
ghost use Rattle.std.specs.Prelude.{◌≡◌, int_lt, int_le};
ghost use Rattle.view_meaning.specs.Terms.{ordered, compares};

use ss_text::{Text, whole};
use view_def::Op;

fn is_less(m: Option<i64>, n: Option<i64>) -> bool
    ensures { result ≡ ordered int_lt m n }
{
    match (m, n) {
        (Some(m), Some(n)) => m < n,
        _ => false,
    }
}

fn is_at_most(m: Option<i64>, n: Option<i64>) -> bool
    ensures { result ≡ ordered int_le m n }
{
    match (m, n) {
        (Some(m), Some(n)) => m <= n,
        _ => false,
    }
}

/// Whether two texts compare so: `=` and `<>` by their bytes, the others by the whole numbers that they spell, and where
/// one spells none they are false.
pub fn compares(op: Op, s: &Text, t: &Text) -> bool
    ensures { result ≡ compares op s.now t.now }
{
    match op {
        Op::Eq => s == t,
        Op::Ne => s != t,
        Op::Lt => is_less(whole(s), whole(t)),
        Op::Le => is_at_most(whole(s), whole(t)),
        Op::Gt => is_less(whole(t), whole(s)),
        Op::Ge => is_at_most(whole(t), whole(s)),
    }
}
