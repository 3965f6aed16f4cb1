//! Things that bear names.
use flow_law::Moves;
use ss_text::Row;
use std::collections::LinkedList;

/// A thing that bears names, or a change of the thing that bears them.
#[derive(Debug, Drop)]
pub struct Named<T> {
    pub names: Row,
    pub value: T,
}

impl<T: Moves> Moves for Named<T> {
    ghost use Rattle.unite_op.specs.NamedThings.{MovesOne};

    type Thing = LinkedList<Named<T::Thing>>;

    ghost moves = { λ x g y. MovesOne T.moves x g y };
}
