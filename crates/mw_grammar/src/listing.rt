// Sorts listed by the numbers of names.
ghost use Rattle.std.specs.Prelude.{◌≡◌, ◌+◌, max, ℕ, length, IfOk, OnOk};
ghost use Rattle.mw_logic.specs.Term.{Variable};
ghost use Rattle.mw_logic.specs.Signature.{Member};
ghost use Rattle.mw_chart.specs.Listed.{inner};
ghost use Rattle.mw_grammar.specs.Compiled.{Extends};
ghost use Rattle.mw_grammar.specs.Leaves.{IsNamed};
ghost use Rattle.mw_grammar.specs.Listing.{AreLists, Lists, OneMore};

use crate::compile::MOST;
use mw_term::{Name, SortId, VarId};
use mw_text::Names;
use std::alloc::{AllocError, Global};

/// Makes room for the list of a number.
fn room(alloc: Global, lists: &mut Vec<Vec<SortId>>, number: usize) -> Result<(), AllocError>
    ensures len { OnOk result (length lists.new.items ≡ max (length lists.old.items) (number + 1)) }
    ensures same { OnOk result ((k : ℕ) → inner lists.new.items k ≡ inner lists.old.items k) }
{
    while lists.len() <= number {
        lists.push(Vec::new(alloc))?;
    }
    Ok(())
}

/// Lists a sort by a name.
fn put(
    alloc: Global,
    names: &mut Names,
    lists: &mut Vec<Vec<SortId>>,
    name: &[u8],
    sort: SortId,
) -> Result<(), AllocError>
    requires { AreLists names.old lists.old.items }
    ensures names { OnOk result (Extends names.old names.new) }
    ensures listed { OnOk result (Lists names.new lists.new.items (OneMore names.old lists.old.items name.now sort)) }
{
    names.add(alloc, name)?;
    let number = names.number(name)? as usize;
    room(alloc, lists, number)?;
    lists[number].push(sort)?;
    Ok(())
}

/// The list of a number.
pub fn list_of(lists: &Vec<Vec<SortId>>, number: u32) -> &[SortId]
    ensures { result.now ≡ inner lists.now.items number }
{
    let number = number as usize;
    if number < lists.len() {
        lists[number].as_slice()
    } else {
        &[]
    }
}

/// Sorts by their names.
pub fn sorts_by_name(
    alloc: Global,
    names: &mut Names,
    sorts: &[Name],
) -> Result<Vec<Vec<SortId>>, AllocError>
    ensures names { OnOk result (Extends names.old names.new) }
    ensures listed { IfOk result (λ v. Lists names.new v.items (IsNamed sorts.now)) }
{
    if sorts.len() > MOST {
        return Err(AllocError);
    }
    let mut lists = Vec::new(alloc);
    for (i, name) in sorts.iter().enumerate() {
        put(alloc, names, &mut lists, name.as_slice(), i as u32 + 1)?;
    }
    Ok(lists)
}

/// The sorts of variables by the variables' names.
pub fn variables_by_name(
    alloc: Global,
    names: &mut Names,
    variables: &[VarId],
) -> Result<Vec<Vec<SortId>>, AllocError>
    ensures names { OnOk result (Extends names.old names.new) }
    ensures listed { IfOk result (λ v. Lists names.new v.items
        (λ n S. Member {X = Variable} (record { name = n; sort = S }) variables.now)) }
{
    let mut lists = Vec::new(alloc);
    for variable in variables {
        let name = variable.name.as_slice();
        put(alloc, names, &mut lists, name, variable.sort)?;
    }
    Ok(lists)
}
