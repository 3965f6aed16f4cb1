//! The declarations of a view.
ghost use Rattle.std.specs.Prelude.{◌≡◌, ◌<◌, ◌≤◌, ◌++◌, [], length, map, OnOk, IfOk, count_by};
ghost use Rattle.view_def.specs.declared.written.RawDecl.{RawDecl};
ghost use Rattle.var_typing.specs.Declarations.{ranges_over_rows, too_many, range_fault, declared_twice, range_folds, alias_folds, declaration_after, declarations_fault, typed_range};
ghost use Rattle.var_typing.specs.Folds.{SameOthers};
ghost use Rattle.var_typing.specs.Refusals.{Answers, IsJudged};

use crate::TypeFault;
use crate::folds::Fold;
use crate::scope::{Scope, declared_at};
use std::alloc::Global;
use view_def::{Range, RawDecl, RawRange};

const MOST: usize = 8;

const MOST_OVER_ROWS: usize = 4;

/// The ranges of all declarations, and the folds of the aliases among them.
pub(crate) fn type_declarations(
    alloc: Global,
    decls: &[RawDecl],
    folds: &mut Vec<Fold>,
) -> Result<Vec<Range>, TypeFault>
    requires { folds.old.items ≡ [] }
    ensures answer { let ds = decls.now in
        Answers (λ v. v.items) (declarations_fault ds) (map (λ (d : RawDecl). typed_range ds d.range) ds) result }
    ensures few { OnOk result (length decls.now ≤ 8) }
    ensures taken { OnOk result (SameOthers (alias_folds decls.now decls.now) folds.new.items) }
{
    let mut ranges = Vec::new(alloc);
    for (place, decl) in decls.iter().enumerate() {
        let range = type_declaration(decls, &decls[..place], decl, folds)?;
        ranges.push(range)?;
    }
    Ok(ranges)
}

// A declaration after these.
fn type_declaration(
    decls: &[RawDecl],
    before: &[RawDecl],
    decl: &RawDecl,
    folds: &mut Vec<Fold>,
) -> Result<Range, TypeFault>
    ensures answer { let ds = decls.now in
        Answers (λ r. r) (declaration_after ds folds.old.items before.now decl.now) (typed_range ds decl.now.range) result }
    ensures few { OnOk result (length before.now < 8) }
    ensures taken { OnOk result
        (SameOthers (folds.old.items ++ range_folds decls.now decl.now.range) folds.new.items) }
{
    check_number(before, decl)?;
    let scope = Scope {
        decls,
        visible: before.len(),
    };
    let range = type_range(&scope, folds, &decl.range)?;
    check_new(before, decl)?;
    Ok(range)
}

fn ranges_over_rows(decl: &RawDecl) -> bool
    ensures { result ≡ ranges_over_rows decl.now }
{
    matches!(
        decl.range,
        RawRange::Tuples(_, _) | RawRange::Values(_, _, _)
    )
}

fn check_number(before: &[RawDecl], decl: &RawDecl) -> Result<(), TypeFault>
    ensures passes { IsJudged (too_many before.now decl.now) result }
    ensures few { OnOk result (length before.now < 8) }
{
    if before.len() >= MOST
        || (ranges_over_rows(decl) && count_over_rows(before) >= MOST_OVER_ROWS)
    {
        return Err(TypeFault::TooMany {
            var: decl.var.copy()?,
        });
    }
    Ok(())
}

fn count_over_rows(decls: &[RawDecl]) -> usize
    ensures { result ≡ count_by ranges_over_rows decls.now }
{
    let mut count = 0;
    for decl in decls {
        if ranges_over_rows(decl) {
            count += 1;
        }
    }
    count
}

fn check_new(before: &[RawDecl], decl: &RawDecl) -> Result<(), TypeFault>
    ensures { IsJudged (declared_twice before.now decl.now) result }
{
    if declared_at(before, &decl.var).is_some() {
        return Err(TypeFault::DeclaredTwice {
            var: decl.var.copy()?,
        });
    }
    Ok(())
}

fn type_range(
    scope: &Scope<'_>,
    folds: &mut Vec<Fold>,
    range: &RawRange,
) -> Result<Range, TypeFault>
    ensures answer { let ds = scope.now.decls.now in
        Answers (λ r. r) (range_fault ds scope.now.visible folds.old.items range.now) (typed_range ds range.now) result }
    ensures taken { OnOk result
        (SameOthers (folds.old.items ++ range_folds scope.now.decls.now range.now) folds.new.items) }
{
    match range {
        RawRange::Databases => Ok(Range::Databases),
        RawRange::Relations(db) => Ok(Range::Relations(scope.place(db)?)),
        RawRange::Attributes(db, relation) => {
            let db = scope.place(db)?;
            Ok(Range::Attributes(db, scope.place(relation)?))
        }
        RawRange::Tuples(db, relation) => {
            let db = scope.place(db)?;
            Ok(Range::Tuples(db, scope.place(relation)?))
        }
        RawRange::Values(db, relation, attribute) => {
            let db = scope.place(db)?;
            let relation = scope.place(relation)?;
            Ok(Range::Values(db, relation, scope.place(attribute)?))
        }
        RawRange::Alias(identifier, attribute) => {
            let (tuple, place) = scope.attribute(folds, identifier, attribute)?;
            Ok(Range::Alias(tuple, place))
        }
    }
}
