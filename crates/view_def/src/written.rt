//! A view definition as it is written.
use ss_text::Text;

/// A name: of a database, a relation, an attribute, a column or a table, or of a variable where it is not quoted.
#[derive(Debug, Drop, PartialEq, Eq)]
pub struct Name {
    pub text: Text,
    pub quoted: bool,
}

/// A term: an identifier alone, an identifier with an attribute, or a literal.
#[derive(Debug, Drop, PartialEq, Eq)]
pub enum RawTerm {
    Lone(Text),
    Dot(Text, Name),
    Literal(Text),
}

/// A comparison of two texts: `=`, `<>`, `<`, `<=`, `>` and `>=`.
#[derive(Clone, Copy, Debug, PartialEq, Eq)]
pub enum Op {
    Eq,
    Ne,
    Lt,
    Le,
    Gt,
    Ge,
}

/// A condition. A parse gives `Any` and `All` at least two members.
#[derive(Debug, Drop)]
pub enum RawCond {
    Any(Vec<RawCond>),
    All(Vec<RawCond>),
    Not(Box<RawCond>),
    Compare(RawTerm, Op, RawTerm),
}

/// What a declaration ranges over: databases, relations, attributes, tuples, column values, or the one
/// cell of a tuple variable.
#[derive(Debug, Drop, PartialEq, Eq)]
pub enum RawRange {
    Databases,
    Relations(Name),
    Attributes(Name, Name),
    Tuples(Name, Name),
    Values(Name, Name, Name),
    Alias(Text, Name),
}

/// A declaration: a range and its variable.
#[derive(Debug, Drop, PartialEq, Eq)]
pub struct RawDecl {
    pub range: RawRange,
    pub var: Text,
}

/// A view definition as it is written.
#[derive(Debug)]
pub struct ViewText {
    pub view_db: Name,
    pub label: Name,
    pub columns: Vec<Name>,
    pub select: Vec<RawTerm>,
    pub decls: Vec<RawDecl>,
    pub filter: Option<RawCond>,
}

impl Drop for ViewText {
    fn drop(self) {
        let ViewText {
            view_db,
            label,
            columns,
            select,
            decls,
            filter,
        } = self;
        drop((view_db, label, columns));
        drop((select, decls, filter));
    }
}
