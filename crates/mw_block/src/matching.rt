// The blocks of matches.
ghost use Rattle.std.specs.Prelude.{◌≡◌, ◌++◌, ◌∷◌, [], IfOk, OnOk};
ghost use Rattle.mw_logic.specs.Term.{variable as a_variable};
ghost use Rattle.mw_print.specs.Printing.{term_text};
ghost use Rattle.mw_match.specs.declared.solutions.Solution.{Solution as SolutionOf};
ghost use Rattle.mw_block.specs.Matches.{end_line, end_text, found_line, match_block, match_echo, solution_lines, pairs_of, solutions_lines, spaced_numbers, take_line, value_lines};

use crate::printing::print;
use mw_match::Solution;
use mw_print::push_decimal;
use mw_term::{Binding, Name, Seq, Signature, Term, VarId, copy_name};
use std::alloc::{AllocError, Global};

/// What is matched: the command by its word, in the module of this name, the pattern and the subject.
#[derive(Clone, Copy)]
pub struct Matched<'t> {
    pub command: &'static str,
    pub name: &'t Name,
    pub pattern: &'t Term,
    pub subject: &'t Term,
}

fn write_echo(
    alloc: Global,
    signature: &Signature,
    matched: &Matched<'_>,
    text: &mut Vec<u8>,
) -> Result<(), AllocError>
    ensures { OnOk result (text.new.items ≡ text.old.items ++ match_echo matched.now.command.now signature.now matched.now.name.now matched.now.pattern.now matched.now.subject.now) }
{
    text.extend_from_slice(matched.command.as_bytes())?;
    text.extend_from_slice(" in ".as_bytes())?;
    text.extend_from_slice(matched.name.as_slice())?;
    text.extend_from_slice(" : ".as_bytes())?;
    print(alloc, signature, matched.pattern, text)?;
    text.extend_from_slice(" <=? ".as_bytes())?;
    print(alloc, signature, matched.subject, text)?;
    text.extend_from_slice(" .\n".as_bytes())
}

fn write_numbers(numbers: &[u32], text: &mut Vec<u8>) -> Result<(), AllocError>
    ensures { OnOk result (text.new.items ≡ text.old.items ++ spaced_numbers numbers.now) }
{
    let mut rest = numbers;
    while let [number, after @ ..] = rest {
        text.extend_from_slice(" ".as_bytes())?;
        push_decimal(*number as u128, text)?;
        rest = after;
    }
    Ok(())
}

/// Which arguments are taken, where not the whole is.
fn write_take(take: &Option<Seq<u32>>, text: &mut Vec<u8>) -> Result<(), AllocError>
    ensures { OnOk result (text.new.items ≡ text.old.items ++ take_line take.now) }
{
    match take {
        Some(numbers) => {
            text.extend_from_slice("take".as_bytes())?;
            write_numbers(numbers.as_slice(), text)?;
            text.extend_from_slice("\n".as_bytes())
        }
        None => Ok(()),
    }
}

fn write_variable(
    alloc: Global,
    signature: &Signature,
    variable: &VarId,
    text: &mut Vec<u8>,
) -> Result<(), AllocError>
    ensures { OnOk result (text.new.items ≡ text.old.items ++ term_text signature.now (a_variable variable.now)) }
{
    let name = copy_name(alloc, &variable.name)?;
    let sort = variable.sort;
    let term = Term::variable(alloc, VarId { name, sort })?;
    print(alloc, signature, &term, text)
}

fn write_value(
    alloc: Global,
    signature: &Signature,
    binding: &Binding,
    text: &mut Vec<u8>,
) -> Result<(), AllocError>
    ensures { OnOk result (text.new.items ≡ text.old.items ++ value_lines signature.now (pairs_of (binding.now ∷ []))) }
{
    write_variable(alloc, signature, &binding.variable, text)?;
    text.extend_from_slice(" = ".as_bytes())?;
    print(alloc, signature, &binding.value, text)?;
    text.extend_from_slice("\n".as_bytes())
}

fn write_values(
    alloc: Global,
    signature: &Signature,
    bindings: &[Binding],
    text: &mut Vec<u8>,
) -> Result<(), AllocError>
    ensures { OnOk result (text.new.items ≡ text.old.items ++ value_lines signature.now (pairs_of bindings.now)) }
{
    let mut rest = bindings;
    while let [binding, after @ ..] = rest {
        write_value(alloc, signature, binding, text)?;
        rest = after;
    }
    Ok(())
}

/// A solution by its number: which arguments it takes, and its variables with their values.
fn write_solution(
    alloc: Global,
    signature: &Signature,
    number: usize,
    solution: &Solution,
    text: &mut Vec<u8>,
) -> Result<(), AllocError>
    ensures { OnOk result (text.new.items ≡ text.old.items ++ solution_lines signature.now number solution.now) }
{
    text.extend_from_slice("solution ".as_bytes())?;
    push_decimal(number as u128, text)?;
    text.extend_from_slice("\n".as_bytes())?;
    write_take(&solution.take, text)?;
    write_values(alloc, signature, solution.subst.pairs.as_slice(), text)
}

fn write_solutions(
    alloc: Global,
    signature: &Signature,
    solutions: &[Solution],
    text: &mut Vec<u8>,
) -> Result<(), AllocError>
    ensures { OnOk result (text.new.items ≡ text.old.items ++ solutions_lines signature.now 1 solutions.now) }
{
    let mut rest = solutions;
    let mut number = 1;
    while let [solution, after @ ..] = rest {
        write_solution(alloc, signature, number, solution, text)?;
        number += 1;
        rest = after;
    }
    Ok(())
}

fn end_word(limited: bool) -> &'static str
    ensures { result.now ≡ end_text limited }
{
    if limited { "limit solutions" } else { "all" }
}

fn write_count(count: usize, text: &mut Vec<u8>) -> Result<(), AllocError>
    ensures { OnOk result (text.new.items ≡ text.old.items ++ found_line count) }
{
    text.extend_from_slice("solutions: ".as_bytes())?;
    push_decimal(count as u128, text)?;
    text.extend_from_slice("\n".as_bytes())
}

fn write_end(limited: bool, text: &mut Vec<u8>) -> Result<(), AllocError>
    ensures { OnOk result (text.new.items ≡ text.old.items ++ end_line limited) }
{
    text.extend_from_slice("status: ".as_bytes())?;
    text.extend_from_slice(end_word(limited).as_bytes())?;
    text.extend_from_slice("\n".as_bytes())
}

/// The block of a match, with its solutions as they are listed, and whether there may be more.
pub fn matches(
    alloc: Global,
    signature: &Signature,
    matched: &Matched<'_>,
    solutions: &[Solution],
    limited: bool,
) -> Result<Vec<u8>, AllocError>
    ensures { IfOk result (λ text. text.items ≡ match_block matched.now.command.now signature.now matched.now.name.now matched.now.pattern.now matched.now.subject.now solutions.now limited) }
{
    let mut text = Vec::new(alloc);
    write_echo(alloc, signature, matched, &mut text)?;
    write_solutions(alloc, signature, solutions, &mut text)?;
    write_count(solutions.len(), &mut text)?;
    write_end(limited, &mut text)?;
    Ok(text)
}
