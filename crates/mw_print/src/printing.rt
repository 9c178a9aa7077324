// Terms as they are printed.
ghost use Rattle.std.specs.Prelude.{◌≡◌, ◌<◌, ◌≤◌, ◌∷◌, ◌++◌, [], length, map, codes, true, Some};
ghost use Rattle.std.specs.Prelude.{IfOk, IfSome, IfNone, OnOk, option_map};
ghost use Rattle.mw_logic.specs.Signature.{Signature as SignatureOf, at_number};
ghost use Rattle.mw_logic.specs.Parts.{is_assoc};
ghost use Rattle.mw_logic.specs.NormalForm.{height};
ghost use Rattle.mw_logic.specs.Term as logic;
ghost use Rattle.mw_logic.specs.Terms.{terms_of};
ghost use Rattle.mw_term.specs.Signatures.{gather_of};
ghost use Rattle.mw_text.specs.Names.{items_of};
ghost use Rattle.mw_print.specs.Printing as spec;
ghost use Rattle.mw_print.specs.Chains as chains;
ghost use Rattle.mw_print.specs.Tokens.{token};
ghost use Rattle.mw_print.specs.Printing.{shown, all_shown, term_text};
ghost use Rattle.mw_print.specs.Writing.{Writes};

use crate::sorts::print_sort;
use crate::writer::Writer;
use mw_term::{Gather, OpId, Operator, Signature, Term, VarId, View};
use mw_text::{NameItem, first_item, has_hole, holes};
use std::alloc::{AllocError, Global};

/// The text of a term, whose associative operators on more than two arguments are read as nested to the right.
pub fn mixfix(alloc: Global, signature: &Signature, term: &Term) -> Result<Vec<u8>, AllocError>
    ensures { IfOk result (λ text. text.items ≡ term_text signature.now term.now) }
{
    let mut writer = Writer::new(alloc);
    print(alloc, signature, term, &mut writer)?;
    Ok(writer.into_text())
}

/// Writes a term.
#[cycle(print)]
fn print(
    alloc: Global,
    signature: &Signature,
    term: &Term,
    writer: &mut Writer,
) -> Result<(), AllocError>
    ensures { OnOk result (Writes writer.old writer.new (shown signature.now term.now).tokens) }
{
    match term.view() {
        View::Nat(number) => {
            let digits = format!(in alloc; "{number}")?;
            writer.token(digits.as_bytes())
        }
        View::Qid(token) => writer.token(token.as_slice()),
        View::Var(variable) => {
            let token = sorted(alloc, signature, variable)?;
            writer.token(token.as_slice())
        }
        View::Op(operator, args) => print_operator(alloc, signature, operator, args, writer),
    }
}

/// Writes an operator on arguments, in mixfix form or in prefix form.
#[cycle(print)]
fn print_operator(
    alloc: Global,
    signature: &Signature,
    number: OpId,
    args: &[Term],
    writer: &mut Writer,
) -> Result<(), AllocError>
    ensures { let t = logic.apply number (terms_of args.now) in
        OnOk result (Writes writer.old writer.new (shown signature.now t).tokens) }
{
    match operator_at(signature, number) {
        Some(operator) if operator.assoc => {
            print_joint(alloc, signature, number, operator, args, writer)
        }
        Some(operator) if is_mixfix(operator, args.len()) => {
            print_mixfix(alloc, signature, operator, args, writer)
        }
        Some(operator) => {
            print_head(operator, writer)?;
            print_args(alloc, signature, number, false, args, writer)
        }
        None => print_args(alloc, signature, number, false, args, writer),
    }
}

/// Writes an associative operator on arguments.
#[cycle(print)]
fn print_joint(
    alloc: Global,
    signature: &Signature,
    number: OpId,
    operator: &Operator,
    args: &[Term],
    writer: &mut Writer,
) -> Result<(), AllocError>
    requires there { Some operator.now ≡ at_number signature.now.operators number }
    requires joint { operator.now.assoc ≡ true }
    ensures { let t = logic.apply number (terms_of args.now) in
        OnOk result (Writes writer.old writer.new (shown signature.now t).tokens) }
{
    if args.len() == 1 {
        return print(alloc, signature, &args[0], writer);
    }
    if is_mixfix(operator, args.len().min(2)) {
        return print_chain(alloc, signature, number, operator, args, writer);
    }
    print_head(operator, writer)?;
    print_args(alloc, signature, number, true, args, writer)
}

/// Writes two or more arguments in mixfix forms that are nested to the right.
#[cycle(print)]
fn print_chain(
    alloc: Global,
    signature: &Signature,
    number: OpId,
    operator: &Operator,
    args: &[Term],
    writer: &mut Writer,
) -> Result<(), AllocError>
    requires there { Some operator.now ≡ at_number signature.now.operators number }
    requires joint { operator.now.assoc ≡ true }
    requires mixfix { spec.is_mixfix operator.now 2 ≡ true }
    requires two { 2 ≤ length args.now }
    ensures { let t = logic.apply number (terms_of args.now) in
        OnOk result (Writes writer.old writer.new (shown signature.now t).tokens) }
{
    let mut rest = args;
    while let [arg, behind @ ..] = rest {
        if behind.len() < 2 {
            break;
        }
        print_front(alloc, signature, operator, arg, writer)?;
        rest = behind;
    }
    print_mixfix(alloc, signature, operator, rest, writer)?;
    for _ in 2..args.len() {
        print_back(operator, writer)?;
    }
    Ok(())
}

/// Writes what stands before the second argument of a mixfix form, where that is such a form again.
#[cycle(print)]
fn print_front(
    alloc: Global,
    signature: &Signature,
    operator: &Operator,
    arg: &Term,
    writer: &mut Writer,
) -> Result<(), AllocError>
    ensures { let o = operator.now in
        OnOk result (Writes writer.old writer.new (chains.front o o.gather (shown signature.now arg.now))) }
{
    let [mark, last] = operator.gather.as_slice() else {
        return Ok(());
    };
    let behind = print_pieces(operator.spelling.as_slice(), writer)?;
    print_in_hole(alloc, signature, *mark, operator.prec, arg, writer)?;
    print_pieces(behind, writer)?;
    print_parenthesis(operator, *last, b"(", writer)
}

/// Writes what stands behind it.
fn print_back(operator: &Operator, writer: &mut Writer) -> Result<(), AllocError>
    ensures { OnOk result (Writes writer.old writer.new (chains.back operator.now operator.now.gather)) }
{
    let [_, last] = operator.gather.as_slice() else {
        return Ok(());
    };
    print_parenthesis(operator, *last, b")", writer)?;
    let behind = behind_hole(behind_hole(operator.spelling.as_slice()));
    print_pieces(behind, writer)?;
    Ok(())
}

/// Writes a parenthesis, where a form of the operator in a hole with this mark stands in parentheses.
fn print_parenthesis(
    operator: &Operator,
    mark: Gather,
    parenthesis: &[u8],
    writer: &mut Writer,
) -> Result<(), AllocError>
    ensures { let tokens = token parenthesis.now ∷ [] in
        OnOk result (Writes writer.old writer.new (chains.parenthesis operator.now (gather_of mark) tokens)) }
{
    if takes(mark, operator.prec, operator.prec) {
        return Ok(());
    }
    writer.token(parenthesis)
}

/// Writes the pieces of a name up to its first hole; what stands behind that.
fn print_pieces<'n>(name: &'n [u8], writer: &mut Writer) -> Result<&'n [u8], AllocError>
    ensures { IfOk result (λ behind. Writes writer.old writer.new (chains.before_hole (items_of name.entry.now))
        × (items_of behind.now ≡ chains.after_hole (items_of name.entry.now))) }
{
    let mut rest = name;
    while let Some((item, behind)) = first_item(rest) {
        match item {
            NameItem::Hole => return Ok(behind),
            NameItem::Piece(piece) => writer.token(piece)?,
        }
        rest = behind;
    }
    Ok(rest)
}

/// What stands behind the first hole of a name.
fn behind_hole(name: &[u8]) -> &[u8]
    ensures { items_of result.now ≡ chains.after_hole (items_of name.now) }
{
    let mut rest = name;
    while let Some((item, behind)) = first_item(rest) {
        if let NameItem::Hole = item {
            return behind;
        }
        rest = behind;
    }
    rest
}

/// Writes the pieces of a name, and an argument in each hole.
#[cycle(print)]
fn print_mixfix(
    alloc: Global,
    signature: &Signature,
    operator: &Operator,
    args: &[Term],
    writer: &mut Writer,
) -> Result<(), AllocError>
    ensures { let o = operator.now in let shown = all_shown signature.now args.now in
        OnOk result (Writes writer.old writer.new (spec.in_holes o.prec (items_of o.spelling) o.gather shown)) }
{
    let mut name = operator.spelling.as_slice();
    let mut gather = operator.gather.as_slice();
    let mut args = args;
    while let Some(front) = first_item(name) {
        match front.0 {
            NameItem::Piece(piece) => writer.token(piece)?,
            NameItem::Hole => {
                if let ([mark, marks @ ..], [arg, behind @ ..]) = (gather, args) {
                    print_in_hole(alloc, signature, *mark, operator.prec, arg, writer)?;
                    args = behind;
                    gather = marks;
                }
            }
        }
        name = front.1;
    }
    Ok(())
}

/// Writes an argument in a hole.
#[cycle(print)]
fn print_in_hole(
    alloc: Global,
    signature: &Signature,
    mark: Gather,
    prec: u32,
    arg: &Term,
    writer: &mut Writer,
) -> Result<(), AllocError>
    ensures { OnOk result
        (Writes writer.old writer.new (spec.in_hole (gather_of mark) prec (shown signature.now arg.now))) }
{
    if takes(mark, prec, precedence(signature, arg)) {
        return print(alloc, signature, arg, writer);
    }
    writer.token(b"(")?;
    print(alloc, signature, arg, writer)?;
    writer.token(b")")
}

/// Writes the arguments of a prefix form in parentheses, where there are any.
#[cycle(print)]
fn print_args(
    alloc: Global,
    signature: &Signature,
    number: OpId,
    assoc: bool,
    args: &[Term],
    writer: &mut Writer,
) -> Result<(), AllocError>
    requires { assoc ≡ is_assoc signature.now number }
    ensures { let listed = spec.arguments_of assoc number (all_shown signature.now args.now) in
        OnOk result (Writes writer.old writer.new (spec.called [] listed)) }
{
    if args.is_empty() {
        return Ok(());
    }
    writer.open()?;
    print_list(alloc, signature, number, assoc, args, writer)?;
    writer.token(b")")
}

/// Writes arguments divided by commas.
#[cycle(print)]
fn print_list(
    alloc: Global,
    signature: &Signature,
    number: OpId,
    assoc: bool,
    args: &[Term],
    writer: &mut Writer,
) -> Result<(), AllocError>
    requires { assoc ≡ is_assoc signature.now number }
    ensures { let listed = spec.arguments_of assoc number (all_shown signature.now args.now) in
        OnOk result (Writes writer.old writer.new (spec.divided listed)) }
{
    let mut rest = args;
    while let [arg, behind @ ..] = rest {
        if behind.is_empty() {
            return print_last(alloc, signature, number, assoc, arg, writer);
        }
        print(alloc, signature, arg, writer)?;
        writer.comma()?;
        rest = behind;
    }
    Ok(())
}

/// Writes the last argument.
#[cycle(print)]
fn print_last(
    alloc: Global,
    signature: &Signature,
    number: OpId,
    assoc: bool,
    arg: &Term,
    writer: &mut Writer,
) -> Result<(), AllocError>
    requires { assoc ≡ is_assoc signature.now number }
    ensures { let listed = spec.arguments_of assoc number (shown signature.now arg.now ∷ []) in
        OnOk result (Writes writer.old writer.new (spec.divided listed)) }
{
    if !assoc {
        return print(alloc, signature, arg, writer);
    }
    match own_args(number, unwrapped(signature, arg)) {
        Some(inner) => print_list(alloc, signature, number, assoc, inner, writer),
        None => print(alloc, signature, arg, writer),
    }
}

/// Whether the operator of a number is associative.
fn is_associative(signature: &Signature, number: OpId) -> bool
    ensures { result ≡ is_assoc signature.now number }
{
    match operator_at(signature, number) {
        Some(operator) => operator.assoc,
        None => false,
    }
}

/// A term that is printed alike, without associative operators on one argument on top.
fn unwrapped<'t>(signature: &Signature, term: &'t Term) -> &'t Term
    ensures same { shown signature.now result.now ≡ shown signature.now term.entry.now }
    ensures lower { height result.now ≤ height term.entry.now }
    ensures none { ¬ chains.IsSingle signature.now result.now }
{
    let View::Op(number, args) = term.view() else {
        return term;
    };
    if args.len() != 1 {
        return term;
    }
    if !is_associative(signature, number) {
        return term;
    }
    unwrapped(signature, &args[0])
}

/// The arguments of a term with this operator on top, where there are any.
fn own_args(number: OpId, term: &Term) -> Option<&[Term]>
    ensures some { IfSome result (λ args. (term.now ≡ logic.apply number (terms_of args.now)) × (0 < length args.now)) }
    ensures none { IfNone result ((sig : SignatureOf) → ¬ chains.IsSingle sig term.now
        → spec.spread number (shown sig term.now) ≡ (shown sig term.now).tokens ∷ []) }
{
    let View::Op(operator, args) = term.view() else {
        return None;
    };
    if operator != number {
        return None;
    }
    if args.is_empty() {
        return None;
    }
    Some(args)
}

/// The operator of a number, from 1.
fn operator_at(signature: &Signature, number: OpId) -> Option<&Operator>
    ensures { option_map (λ o. o.now) result ≡ at_number signature.now.operators number }
{
    if number == 0 {
        return None;
    }
    signature.operators.as_slice().get(number as usize - 1)
}

/// Whether an operator on so many arguments is printed in mixfix form.
fn is_mixfix(operator: &Operator, count: usize) -> bool
    ensures { result ≡ spec.is_mixfix operator.now count }
{
    let name = operator.spelling.as_slice();
    let gather = operator.gather.as_slice();
    has_hole(name)
        && holes(name) == count
        && gather.len() == count
        && !(operator.prec == 0 && has_less(gather))
}

/// Whether a hole takes only what has a precedence that is less.
fn has_less(gather: &[Gather]) -> bool
    ensures { result ≡ spec.has_less (map gather_of gather.now) }
{
    for mark in gather {
        if let Gather::Less = mark {
            return true;
        }
    }
    false
}

/// Whether a hole with this mark, in a form of a precedence, takes one of another.
fn takes(mark: Gather, form: u32, precedence: u32) -> bool
    ensures { result ≡ spec.takes (gather_of mark) form precedence }
{
    match mark {
        Gather::Less => precedence < form,
        Gather::Most => precedence <= form,
        Gather::Any => true,
    }
}

/// The precedence of a term as it is printed.
fn precedence(signature: &Signature, term: &Term) -> u32
    ensures { result ≡ (shown signature.now term.now).precedence }
{
    let View::Op(number, args) = term.view() else {
        return 0;
    };
    let Some(operator) = operator_at(signature, number) else {
        return 0;
    };
    if !operator.assoc {
        return precedence_on(operator, args.len());
    }
    if args.len() == 1 {
        return precedence(signature, &args[0]);
    }
    precedence_on(operator, args.len().min(2))
}

/// The precedence of an operator on so many arguments.
fn precedence_on(operator: &Operator, count: usize) -> u32
    ensures { result ≡ spec.precedence_of (Some operator.now) count }
{
    if is_mixfix(operator, count) {
        operator.prec
    } else {
        0
    }
}

/// Writes what stands before the arguments of a prefix form.
fn print_head(operator: &Operator, writer: &mut Writer) -> Result<(), AllocError>
    ensures { OnOk result (Writes writer.old writer.new (spec.head operator.now)) }
{
    let spelling = operator.spelling.as_slice();
    if has_hole(spelling) {
        return writer.token(spelling);
    }
    let mut name = spelling;
    while let Some(front) = first_item(name) {
        if let NameItem::Piece(piece) = front.0 {
            writer.token(piece)?;
        }
        name = front.1;
    }
    Ok(())
}

/// A variable as a token: its name, a colon and its sort's name.
fn sorted(alloc: Global, signature: &Signature, variable: &VarId) -> Result<Vec<u8>, AllocError>
    ensures { IfOk result (λ v. v.items ≡ variable.now.name ++ codes ":" ++ spec.sort_name signature.now variable.now.sort) }
{
    let mut token = variable.name.as_slice().to_vec(alloc)?;
    token.push(b':')?;
    print_sort(signature, variable.sort, &mut token)?;
    Ok(token)
}
