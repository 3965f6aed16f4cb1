//! A typed view: each variable is the place of its declaration, counted from 0.
use crate::Op;
use ss_text::{Row, Text};

/// A name, or the variable of a declaration that is no tuple variable.
#[derive(Debug, Drop, PartialEq, Eq)]
pub enum Place {
    Fixed(Text),
    Var(u32),
}

/// A term: a literal, a variable that is no tuple variable, or the cell of a tuple variable's row.
#[derive(Debug, Drop, PartialEq, Eq)]
pub enum Term {
    Literal(Text),
    Var(u32),
    Cell(u32, Place),
}

/// A condition. `Any` of nothing is false, and `All` of nothing is true.
#[derive(Debug, Drop)]
pub enum Cond {
    Any(Vec<Cond>),
    All(Vec<Cond>),
    Not(Box<Cond>),
    Compare(Term, Op, Term),
}

/// What a declaration ranges over.
#[derive(Debug, Drop, PartialEq, Eq)]
pub enum Range {
    Databases,
    Relations(Place),
    Attributes(Place, Place),
    Tuples(Place, Place),
    Values(Place, Place, Place),
    Alias(u32, Place),
}

/// A typed view. `spot` is the number of constant columns before the variable column; `spot`, `column`
/// and `value` are all there or none.
#[derive(Debug)]
pub struct View {
    pub view_db: Text,
    pub label: Place,
    pub constants: Row,
    pub keys: Vec<Term>,
    pub spot: Option<usize>,
    pub column: Option<Place>,
    pub value: Option<Term>,
    pub decls: Vec<Range>,
    pub filter: Option<Cond>,
}

impl Drop for View {
    fn drop(self) {
        let View {
            view_db,
            label,
            constants,
            keys,
            spot: _,
            column,
            value,
            decls,
            filter,
        } = self;
        drop((view_db, label, constants, keys));
        drop((column, value, decls, filter));
    }
}
