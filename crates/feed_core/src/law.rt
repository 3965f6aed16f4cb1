//! What many arrivals come to.
ghost use Rattle.std.specs.Prelude.{List};
ghost use Rattle.apply_law.specs.Standing.{Standing};
ghost use Rattle.feed_core.specs.Turns.{AreHandled};
ghost use Rattle.feed_core.specs.declared.arrival.Arrival.{Arrival as ArrivalValue};

/// Over every list of arrivals the changes of each source are handled in the order of their numbers, each once; what
/// then stands is what the accepted ones make, in the order in which they were handled; and each that comes again finds
/// the one reply that is kept for its number.
pub fn arrivals_are_handled_in_turn()
    ensures { (s : Standing) (arrivals : List ArrivalValue) → AreHandled s arrivals }
{}
