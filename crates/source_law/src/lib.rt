//! The folders of the sources while changes are made and saved: a law without code.
//!
//! Its contract: where each accepted change names what it changes, and the sources save what was named, their folders
//! hold the changed catalogue, and what is loaded of them is that catalogue. It knows nothing of lines or of views'
//! files.
#![tactic(auto)]

ghost use Rattle.source_law.specs.Law.{SavedSourcesHold};

/// What is saved behind changes is there, and is loaded again.
pub fn saved_sources_hold()
    ensures { SavedSourcesHold }
{}
