//! What waits in a session.
ghost use Rattle.std.specs.Prelude.{◌≡◌, IfSome, is_some};
ghost use Rattle.view_session.specs.Waits.{held_in, proposed_by};
ghost use Rattle.view_session.specs.declared.waits.Waits.TheVariants.{Open as OpenWaits, Proposed as ProposedWaits};

use crate::group::Group;
use crate::proposal::Proposal;

/// Nothing, an open group, or changes that are proposed.
pub(crate) enum Waits {
    Nothing,
    Open(Group),
    Proposed(Proposal),
}

impl Drop for Waits {
    fn drop(self) {
        match self {
            Waits::Nothing => {}
            Waits::Open(group) => drop(group),
            Waits::Proposed(proposal) => drop(proposal),
        }
    }
}

impl Waits {
    /// The open group, if one is open.
    pub(crate) fn into_group(self) -> Option<Group>
        ensures is { IfSome result (λ group. self ≡ OpenWaits group) }
        ensures there { is_some result ≡ is_some (held_in self) }
    {
        match self {
            Waits::Open(group) => Some(group),
            Waits::Nothing => None,
            Waits::Proposed(proposal) => {
                drop(proposal);
                None
            }
        }
    }

    /// What is proposed, if something is.
    pub(crate) fn into_proposal(self) -> Option<Proposal>
        ensures is { IfSome result (λ proposal. self ≡ ProposedWaits proposal) }
        ensures there { is_some result ≡ is_some (proposed_by self) }
    {
        match self {
            Waits::Proposed(proposal) => Some(proposal),
            Waits::Nothing => None,
            Waits::Open(group) => {
                drop(group);
                None
            }
        }
    }
}
