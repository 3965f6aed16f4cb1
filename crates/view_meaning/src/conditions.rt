//! The members of a condition.
ghost use Rattle.std.specs.Prelude.{◌≡◌, map, option_map};
ghost use Rattle.view_def.specs.Conditions.{condition_of};
ghost use Rattle.view_meaning.specs.Early.{members_of, members};

use std::slice::from_ref;
use view_def::Cond;

// The members of the outermost AND of a condition; another one is its own only member.
fn members_of(condition: &Cond) -> &[Cond]
    ensures { map condition_of result.now ≡ members_of (condition_of condition.now) }
{
    match condition {
        Cond::All(members) => members,
        _ => from_ref(condition),
    }
}

/// The members of the outermost AND of a condition, in their order; another condition is its own only member, and none
/// has no members.
pub fn members(filter: &Option<Cond>) -> &[Cond]
    ensures { map condition_of result.now ≡ members (option_map condition_of filter.now) }
{
    match filter {
        None => &[],
        Some(condition) => members_of(condition),
    }
}
