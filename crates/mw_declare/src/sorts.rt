// The sorts of a module.
ghost use Rattle.std.specs.Prelude.{◌≡◌, List, [], ◌++◌, ◌∷◌, Some, None, IfOk, IfErr, OnOk, map, option_map};
ghost use Rattle.mw_module.specs.Forms.{shape_of};
ghost use Rattle.mw_module.specs.Units.{seen_all};
ghost use Rattle.mw_module.specs.Sortings.{seen_sorting, seen_sortings};
ghost use Rattle.mw_module.specs.Causes.{HasCause};
ghost use Rattle.mw_declare.specs.Meaning.{with_names, sorts_of};
ghost use Rattle.mw_declare.specs.Faults.{unknown_among, mentioned_in, mentioned_by, mentioned, unknown_from};

use mw_module::{Fault, FaultKind, Form, Stated, UnitError, Word, WrittenSort};
use mw_term::{Name, Seq};
use mw_text::Names;
use std::alloc::{AllocError, Global};

/// Adds these names.
fn add_names(alloc: Global, sorts: &mut Names, names: &[Word<'_>]) -> Result<(), AllocError>
    ensures { OnOk result (sorts.new ≡ with_names sorts.old names.now) }
{
    for name in names {
        sorts.add(alloc, name.as_slice())?;
    }
    Ok(())
}

/// The sorts that statements declare, in order of first mention.
pub fn all_sorts(alloc: Global, statements: &[Stated<'_, '_>]) -> Result<Names, AllocError>
    ensures { IfOk result (λ names. names ≡ sorts_of (seen_all statements.now)) }
{
    let mut sorts = Names::new(alloc)?;
    for statement in statements {
        if let Form::Sorts { names } = statement.form {
            add_names(alloc, &mut sorts, names.as_slice())?;
        }
    }
    Ok(sorts)
}

/// The first sort of these groups that isn't declared.
fn unknown_grouped<'f, 's>(sorts: &Names, groups: &'f [Seq<Word<'s>>]) -> Option<&'f Word<'s>>
    ensures { option_map (λ w. w.now) result ≡ unknown_among sorts.now (mentioned_in groups.now) }
{
    for group in groups {
        let words = group.as_slice();
        for word in words {
            if !sorts.has(word.as_slice()) {
                return Some(word);
            }
        }
    }
    None
}

/// The first sort of a declaration that isn't declared.
fn unknown_ranked<'f, 's>(
    sorts: &Names,
    args: &'f [WrittenSort<'s>],
    value: &'f WrittenSort<'s>,
) -> Option<&'f Word<'s>>
    ensures { let names = mentioned_by (seen_sortings args.now) (seen_sorting value.now) in
        option_map (λ w. w.now) result ≡ unknown_among sorts.now names }
{
    for arg in args {
        if !sorts.has(arg.name.as_slice()) {
            return Some(&arg.name);
        }
    }
    if sorts.has(value.name.as_slice()) {
        None
    } else {
        Some(&value.name)
    }
}

/// The first sort that a statement mentions and that isn't declared.
fn unknown_mentioned<'f, 's>(sorts: &Names, form: &'f Form<'s>) -> Option<&'f Word<'s>>
    ensures { option_map (λ w. w.now) result ≡ unknown_among sorts.now (mentioned (shape_of form.now)) }
{
    match form {
        Form::Subsorts { groups } => unknown_grouped(sorts, groups.as_slice()),
        Form::Operators { args, result, .. } => unknown_ranked(sorts, args.as_slice(), result),
        Form::Variables { sort, .. } if !sorts.has(sort.as_slice()) => Some(sort),
        _ => None,
    }
}

/// Whether each sort that statements mention is declared, or else the fault of the first that isn't.
pub fn all_known(
    alloc: Global,
    sorts: &Names,
    statements: &[Stated<'_, '_>],
) -> Result<(), UnitError>
    ensures known { OnOk result (unknown_from sorts.now (seen_all statements.now) ≡ None) }
    ensures fault { IfErr result
        (HasCause (λ fault. unknown_from sorts.now (seen_all statements.now) ≡ Some fault)) }
{
    for statement in statements {
        if let Some(word) = unknown_mentioned(sorts, statement.form) {
            let kind = FaultKind::UnknownSort(Name::of(word.as_slice().to_vec(alloc)?));
            let line = statement.line;
            return Err(UnitError::Fault(Fault { line, kind }));
        }
    }
    Ok(())
}
