//! The cells of a tuple variable's row that a view names.
ghost use Rattle.std.specs.Prelude.{◌≡◌, ◌++◌, slice_get, option_copied, option_to_list, IfOk, OnOk};
ghost use Rattle.std.specs.List.{filter_map};
ghost use Rattle.plan_law.specs.Columns.{wanted_in, folded_in};

use ss_text::{NoMemory, Row, Text};
use std::alloc::Global;
use view_def::{Place, Term};

fn wanted_in(declaration: u32, term: &Term) -> Option<&Text>
    ensures { option_copied result ≡ wanted_in declaration term.now }
{
    match term {
        Term::Cell(tuple, Place::Fixed(name)) => {
            if declaration == *tuple {
                Some(name)
            } else {
                None
            }
        }
        Term::Cell(_, Place::Var(_)) | Term::Literal(_) | Term::Var(_) => None,
    }
}

fn folded_in(declaration: u32, term: &Term) -> Option<u32>
    ensures { result ≡ folded_in declaration term.now }
{
    match term {
        Term::Cell(tuple, Place::Var(variable)) => {
            if declaration == *tuple {
                Some(*variable)
            } else {
                None
            }
        }
        Term::Cell(_, Place::Fixed(_)) | Term::Literal(_) | Term::Var(_) => None,
    }
}

fn push_wanted(declaration: u32, term: &Term, names: &mut Vec<Text>) -> Result<(), NoMemory>
    ensures { OnOk result (names.new.items ≡ names.old.items ++ option_to_list (wanted_in declaration term.now)) }
{
    match wanted_in(declaration, term) {
        None => Ok(()),
        Some(name) => {
            names.push(name.copy()?)?;
            Ok(())
        }
    }
}

/// The attributes that the terms want of a declaration's row.
pub(crate) fn wanted(alloc: Global, terms: &[Term], declaration: u32) -> Result<Row, NoMemory>
    ensures { IfOk result (λ names. names ≡ filter_map (wanted_in declaration) terms.now) }
{
    let mut names = Vec::new(alloc);
    for term in terms {
        push_wanted(declaration, term, &mut names)?;
    }
    Ok(Row::of(names))
}

/// The variable that goes over the attributes of a declaration's row, where the terms have one.
pub(crate) fn fold_of(terms: &[Term], declaration: u32) -> Option<u32>
    ensures { result ≡ slice_get (filter_map (folded_in declaration) terms.now) 0 }
{
    for term in terms {
        if let Some(variable) = folded_in(declaration, term) {
            return Some(variable);
        }
    }
    None
}
