//! What a view that is opened with a journal and answers lines comes to: laws without code.
//!
//! Its contract: where its course was done, the files of the view are those of its meaning over the catalogue after the
//! journal and the changes that were kept; where its input gave out, its disk failed at a line or its journal is full, over
//! that catalogue at the last sync; and no source was written. A journal that holds the first few of these changes opens the
//! view over just that. It knows nothing of words or of how a disk is called.
#![tactic(auto)]

ghost use Rattle.journal_law.specs.Law.{DoneIsJournaled, CutOffIsJournaled, HeldUpIsJournaled, FullIsJournaled, KeptAreMade};

/// A view is kept up to date with its journal over all lines of its input, or over those before its input gave out, its disk
/// failed or its journal was full; and what it keeps is what it makes.
pub fn journals_are_kept()
    ensures done { DoneIsJournaled }
    ensures cut_off { CutOffIsJournaled }
    ensures held_up { HeldUpIsJournaled }
    ensures full { FullIsJournaled }
    ensures kept { KeptAreMade }
{}
