//! The canonical text of a view definition, written piece by piece into one buffer.
ghost use Rattle.std.specs.Prelude.{◌≡◌, ◌++◌, ◌==◌, [], ◌∷◌, codes, if◌then◌else◌, IfOk, OnOk, map, option_map};
ghost use Rattle.std.specs.List.{join_by};
ghost use Rattle.view_def.specs.Print.{in_quotes, name_text, term_text, range_text, declaration_text, operator_text, comparison_text, is_any, is_joined, condition_text, member_texts, filter_text, header_text, query_text, path_text, print};
ghost use Rattle.view_def.specs.RawConditions.{raw_of, raws};
ghost use Rattle.view_def.specs.Tree.{tree_of};

use crate::{Name, Op, RawCond, RawDecl, RawRange, RawTerm, ViewText};
use ss_text::{NoMemory, Text};
use std::alloc::Global;

/// The canonical text: keywords in capitals, one space between words, every literal in single quotes, parentheses only
/// where they are needed, no `;`, and one line feed at the end.
///
/// It has a text for every definition, also for one that no text spells: a name that is not quoted is printed as it is,
/// and a list of nothing as nothing, whether of names, terms, declarations, or members of `Any` or `All`.
#[tactic(auto, unfolding(crate::specs::Print::print))]
pub fn view_text(alloc: Global, view: &ViewText) -> Result<Text, NoMemory>
    ensures { IfOk result (λ text. text ≡ print (tree_of view.now)) }
{
    let mut out = Vec::new(alloc);
    push(&mut out, b"CREATE VIEW ")?;
    push_header(&mut out, view)?;
    push(&mut out, b" AS ")?;
    push_query(&mut out, view)?;
    push(&mut out, b"\n")?;
    Text::of(alloc, &out)
}

fn push_header(out: &mut Vec<u8>, view: &ViewText) -> Result<(), NoMemory>
    ensures { OnOk result (out.new.items ≡ out.old.items ++ header_text (tree_of view.now)) }
{
    push_path(out, &view.view_db, &view.label)?;
    push(out, b"(")?;
    push_listed(out, &view.columns)?;
    push(out, b")")
}

fn push_query(out: &mut Vec<u8>, view: &ViewText) -> Result<(), NoMemory>
    ensures { OnOk result (out.new.items ≡ out.old.items ++ query_text (tree_of view.now)) }
{
    push(out, b"SELECT ")?;
    push_listed(out, &view.select)?;
    push(out, b" FROM ")?;
    push_listed(out, &view.decls)?;
    push_filter(out, &view.filter)
}

fn push_filter(out: &mut Vec<u8>, filter: &Option<RawCond>) -> Result<(), NoMemory>
    ensures { OnOk result (out.new.items ≡ out.old.items ++ filter_text (option_map raw_of filter.now)) }
{
    match filter {
        None => Ok(()),
        Some(condition) => {
            push(out, b" WHERE ")?;
            push_condition(out, condition)
        }
    }
}

fn push(out: &mut Vec<u8>, piece: &[u8]) -> Result<(), NoMemory>
    ensures { OnOk result (out.new.items ≡ out.old.items ++ piece.now) }
{
    out.extend_from_slice(piece)?;
    Ok(())
}

/// A part of a definition that has a text of its own.
trait Printed {
    ghost use Rattle.std.specs.Prelude.{List, ℕ};

    ghost text: { Self → List ℕ };

    fn push_to(&self, out: &mut Vec<u8>) -> Result<(), NoMemory>
        ensures { OnOk result (out.new.items ≡ out.old.items ++ text self.now) };
}

// The parts with a comma between each two.
fn push_listed<P: Printed>(out: &mut Vec<u8>, parts: &[P]) -> Result<(), NoMemory>
    ensures { OnOk result (out.new.items ≡ out.old.items ++ join_by P.text (codes ", ") parts.now) }
{
    for (place, part) in parts.iter().enumerate() {
        push_between(out, b", ", place)?;
        part.push_to(out)?;
    }
    Ok(())
}

// The separator, before each part but the first.
fn push_between(out: &mut Vec<u8>, separator: &[u8], place: usize) -> Result<(), NoMemory>
    ensures { OnOk result (out.new.items ≡ out.old.items ++ (if place == 0 then [] else separator.now)) }
{
    if place == 0 {
        return Ok(());
    }
    push(out, separator)
}

impl Printed for Name {
    ghost text = { name_text };

    fn push_to(&self, out: &mut Vec<u8>) -> Result<(), NoMemory> {
        if self.quoted {
            push_quoted(out, b'"', &self.text)
        } else {
            push(out, self.text.as_slice())
        }
    }
}

impl Printed for RawTerm {
    ghost text = { term_text };

    fn push_to(&self, out: &mut Vec<u8>) -> Result<(), NoMemory> {
        match self {
            RawTerm::Lone(identifier) => push(out, identifier.as_slice()),
            RawTerm::Dot(identifier, attribute) => {
                push(out, identifier.as_slice())?;
                push(out, b".")?;
                attribute.push_to(out)
            }
            RawTerm::Literal(text) => push_quoted(out, b'\'', text),
        }
    }
}

impl Printed for RawDecl {
    ghost text = { declaration_text };

    fn push_to(&self, out: &mut Vec<u8>) -> Result<(), NoMemory> {
        self.range.push_to(out)?;
        push(out, b" ")?;
        push(out, self.var.as_slice())
    }
}

impl Printed for RawRange {
    ghost text = { range_text };

    fn push_to(&self, out: &mut Vec<u8>) -> Result<(), NoMemory> {
        match self {
            RawRange::Databases => push(out, b"->"),
            RawRange::Relations(db) => {
                db.push_to(out)?;
                push(out, b" ->")
            }
            RawRange::Attributes(db, relation) => {
                push_path(out, db, relation)?;
                push(out, b" ->")
            }
            RawRange::Tuples(db, relation) => push_path(out, db, relation),
            RawRange::Values(db, relation, attribute) => {
                push_path(out, db, relation)?;
                push(out, b".")?;
                attribute.push_to(out)
            }
            RawRange::Alias(tuple, attribute) => {
                push(out, tuple.as_slice())?;
                push(out, b".")?;
                attribute.push_to(out)
            }
        }
    }
}

// A relation with its database.
fn push_path(out: &mut Vec<u8>, db: &Name, relation: &Name) -> Result<(), NoMemory>
    ensures { OnOk result (out.new.items ≡ out.old.items ++ path_text db.now relation.now) }
{
    db.push_to(out)?;
    push(out, b"::")?;
    relation.push_to(out)
}

// A text between quotes, each quote inside doubled.
fn push_quoted(out: &mut Vec<u8>, quote: u8, text: &Text) -> Result<(), NoMemory>
    ensures { OnOk result (out.new.items ≡ out.old.items ++ in_quotes quote text.now) }
{
    out.push(quote)?;
    for b in text.as_slice() {
        push_doubled(out, quote, *b)?;
    }
    out.push(quote)?;
    Ok(())
}

fn push_doubled(out: &mut Vec<u8>, quote: u8, b: u8) -> Result<(), NoMemory>
    ensures { OnOk result (out.new.items ≡ out.old.items ++ (if b == quote then b ∷ b ∷ [] else b ∷ [])) }
{
    if b == quote {
        out.push(b)?;
    }
    out.push(b)?;
    Ok(())
}

fn operator(op: Op) -> &'static [u8]
    ensures { result.now ≡ operator_text op }
{
    match op {
        Op::Eq => b"=",
        Op::Ne => b"<>",
        Op::Lt => b"<",
        Op::Le => b"<=",
        Op::Gt => b">",
        Op::Ge => b">=",
    }
}

fn push_comparison(
    out: &mut Vec<u8>,
    left: &RawTerm,
    op: Op,
    right: &RawTerm,
) -> Result<(), NoMemory>
    ensures { OnOk result (out.new.items ≡ out.old.items ++ comparison_text left.now op right.now) }
{
    left.push_to(out)?;
    push(out, b" ")?;
    push(out, operator(op))?;
    push(out, b" ")?;
    right.push_to(out)
}

// Whether members are joined by OR.
fn is_any(condition: &RawCond) -> bool
    ensures { result ≡ is_any (raw_of condition.now) }
{
    matches!(condition, RawCond::Any(_))
}

// Whether members are joined by OR or by AND.
fn is_joined(condition: &RawCond) -> bool
    ensures { result ≡ is_joined (raw_of condition.now) }
{
    matches!(condition, RawCond::Any(_) | RawCond::All(_))
}

// A parenthesis, where one is needed.
fn push_where(out: &mut Vec<u8>, needed: bool, parenthesis: u8) -> Result<(), NoMemory>
    ensures { OnOk result (out.new.items ≡ out.old.items ++ (if needed then parenthesis ∷ [] else [])) }
{
    if needed {
        out.push(parenthesis)?;
    }
    Ok(())
}

#[cycle(condition)]
fn push_condition(out: &mut Vec<u8>, condition: &RawCond) -> Result<(), NoMemory>
    ensures { OnOk result (out.new.items ≡ out.old.items ++ condition_text (raw_of condition.now)) }
{
    match condition {
        RawCond::Any(members) => push_any(out, members),
        RawCond::All(members) => push_all(out, members),
        RawCond::Not(held) => {
            push(out, b"NOT ")?;
            let needed = is_joined(held);
            push_where(out, needed, b'(')?;
            push_condition(out, held)?;
            push_where(out, needed, b')')
        }
        RawCond::Compare(left, op, right) => push_comparison(out, left, *op, right),
    }
}

#[cycle(condition)]
fn push_any(out: &mut Vec<u8>, members: &[RawCond]) -> Result<(), NoMemory>
    ensures { OnOk result (out.new.items ≡ out.old.items ++ join_by (λ t. t) (codes " OR ") (member_texts is_any (raws (map raw_of members.now)))) }
{
    for (place, member) in members.iter().enumerate() {
        push_between(out, b" OR ", place)?;
        let needed = is_any(member);
        push_where(out, needed, b'(')?;
        push_condition(out, member)?;
        push_where(out, needed, b')')?;
    }
    Ok(())
}

#[cycle(condition)]
fn push_all(out: &mut Vec<u8>, members: &[RawCond]) -> Result<(), NoMemory>
    ensures { OnOk result (out.new.items ≡ out.old.items ++ join_by (λ t. t) (codes " AND ") (member_texts is_joined (raws (map raw_of members.now)))) }
{
    for (place, member) in members.iter().enumerate() {
        push_between(out, b" AND ", place)?;
        let needed = is_joined(member);
        push_where(out, needed, b'(')?;
        push_condition(out, member)?;
        push_where(out, needed, b')')?;
    }
    Ok(())
}
