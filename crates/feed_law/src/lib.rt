//! What a view that is opened and answers numbered feeds comes to: laws without code.
//!
//! Its contract: where its course was done, or its input gave out, the changes of each source were handled in the order of
//! their numbers, each once; each that came again got the reply that is kept; and the files of the view are those of its
//! meaning over the sources with the accepted changes, or where its input gave out over these at the last sync. It knows
//! nothing of words or of how a line is read.
#![tactic(auto)]

ghost use Rattle.feed_law.specs.Law.{DoneIsFed, CutOffIsFed};

/// A view is kept up to date with its feeds over all lines of its input, or over those before the input gave out.
pub fn feeds_are_kept()
    ensures done { DoneIsFed }
    ensures cut_off { CutOffIsFed }
{}
