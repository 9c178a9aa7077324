// What the classes of object modules declare.
ghost use Rattle.std.specs.Prelude.{◌≡◌, ◌++◌, ◌∷◌, [], codes, IfOk, OnOk};
ghost use Rattle.mw_module.specs.Attributes.{seen_attributes};
ghost use Rattle.mw_module.specs.Forms.{shape_of};
ghost use Rattle.mw_module.specs.Known.{AreKnown};
ghost use Rattle.mw_module.specs.Units.{seen_lined, seen_statements, seen_unit};
ghost use Rattle.mw_omod.specs.Declaring as spec;

use mw_module::{Attributes, ClassAttribute, Form, Lined, Unit, Word, WrittenSort};
use mw_term::Seq;
use std::alloc::{AllocError, Global};

/// One word alone.
fn one<'s>(alloc: Global, word: &Word<'s>) -> Result<Seq<Word<'s>>, AllocError>
    ensures { IfOk result (λ words. words ≡ word.now ∷ []) }
{
    let word = word.again(alloc)?;
    Ok(Seq::of(vec![in alloc; word]?))
}

/// One name alone.
fn one_name<'s>(alloc: Global, name: Seq<Word<'s>>) -> Result<Seq<Seq<Word<'s>>>, AllocError>
    ensures { IfOk result (λ names. names ≡ name.entry ∷ []) }
{
    Ok(Seq::of(vec![in alloc; name]?))
}

/// The sort of a class.
fn sort_form<'s>(alloc: Global, class: &Word<'s>) -> Result<Form<'s>, AllocError>
    ensures { IfOk result (λ f. shape_of f ≡ spec.sort_shape class.now) }
{
    let names = one(alloc, class)?;
    Ok(Form::Sorts { names })
}

/// The sort of a class below that of all classes.
fn below_form<'s>(alloc: Global, class: &Word<'s>) -> Result<Form<'s>, AllocError>
    ensures { IfOk result (λ f. shape_of f ≡ spec.below_shape class.now) }
{
    let lower = one(alloc, class)?;
    let upper = one(alloc, &Word::lent(b"Cid"))?;
    let groups = Seq::of(vec![in alloc; lower, upper]?);
    Ok(Form::Subsorts { groups })
}

/// The constant of a class, which has its sort.
fn constant_form<'s>(alloc: Global, class: &Word<'s>) -> Result<Form<'s>, AllocError>
    ensures { IfOk result (λ f. shape_of f ≡ spec.constant_shape class.now) }
{
    let names = one_name(alloc, one(alloc, class)?)?;
    let name = class.again(alloc)?;
    Ok(Form::Operators {
        names,
        args: Vec::new(alloc),
        result: WrittenSort { name, kind: false },
        attributes: Attributes::none(alloc),
    })
}

/// The name of the operator of an attribute: its own, a colon, and a hole.
fn attribute_name<'s>(alloc: Global, name: &Word<'s>) -> Result<Seq<Word<'s>>, AllocError>
    ensures { IfOk result (λ words. words ≡ spec.attribute_name name.now) }
{
    let name = name.again(alloc)?;
    Ok(Seq::of(vec![in alloc; name, Word::lent(b":"), Word::lent(b"_")]?))
}

/// The attributes of an operator whose one hole takes any precedence.
fn any_gather<'s>(alloc: Global) -> Result<Attributes<'s>, AllocError>
    ensures { IfOk result (λ a. seen_attributes a ≡ spec.any_gather) }
{
    let mut attributes = Attributes::none(alloc);
    attributes.gather = Some(Seq::of(vec![in alloc; Word::lent(b"&")]?));
    Ok(attributes)
}

/// The operator of an attribute of a class.
fn attribute_form<'s>(alloc: Global, attribute: &ClassAttribute<'s>) -> Result<Form<'s>, AllocError>
    ensures { IfOk result (λ f. shape_of f ≡ spec.attribute_shape attribute.now) }
{
    let names = one_name(alloc, attribute_name(alloc, &attribute.name)?)?;
    let name = attribute.sort.again(alloc)?;
    let args = vec![in alloc; WrittenSort { name, kind: false }]?;
    let attributes = any_gather(alloc)?;
    let name = Word::lent(b"Attribute");
    Ok(Form::Operators {
        names,
        args,
        result: WrittenSort { name, kind: false },
        attributes,
    })
}

/// Adds the forms that a class stands for behind others.
fn add_class<'s>(
    alloc: Global,
    all: &mut Vec<Lined<'s>>,
    line: u32,
    name: &Word<'s>,
    attributes: &[ClassAttribute<'s>],
) -> Result<(), AllocError>
    ensures { OnOk result (seen_statements all.new.items
        ≡ seen_statements all.old.items ++ spec.class_forms line name.now attributes.now) }
{
    let form = sort_form(alloc, name)?;
    all.push(Lined { line, form })?;
    let form = below_form(alloc, name)?;
    all.push(Lined { line, form })?;
    let form = constant_form(alloc, name)?;
    all.push(Lined { line, form })?;
    for attribute in attributes {
        let form = attribute_form(alloc, attribute)?;
        all.push(Lined { line, form })?;
    }
    Ok(())
}

/// Adds the forms that a statement stands for behind others, where it is a class.
fn add_forms<'s>(
    alloc: Global,
    all: &mut Vec<Lined<'s>>,
    statement: &Lined<'s>,
) -> Result<(), AllocError>
    ensures { let s = seen_lined statement.now in
        OnOk result (seen_statements all.new.items ≡ seen_statements all.old.items ++ spec.forms_of s.line s.shape) }
{
    match &statement.form {
        Form::Class { name, attributes } => {
            add_class(alloc, all, statement.line, name, attributes.as_slice())
        }
        Form::Sorts { .. }
        | Form::Subsorts { .. }
        | Form::Operators { .. }
        | Form::Variables { .. }
        | Form::Statement { .. }
        | Form::Import { .. } => Ok(()),
    }
}

/// Adds a statement behind others, and before it, where it is a class, the forms that it stands for.
fn add_spread<'s>(
    alloc: Global,
    all: &mut Vec<Lined<'s>>,
    statement: Lined<'s>,
) -> Result<(), AllocError>
    ensures { OnOk result (seen_statements all.new.items
        ≡ seen_statements all.old.items ++ spec.spread_one (seen_lined statement.entry)) }
{
    add_forms(alloc, all, &statement)?;
    all.push(statement)?;
    Ok(())
}

/// The import of CONFIGURATION, and then the statements, spread.
fn declared<'s>(
    alloc: Global,
    line: u32,
    statements: Vec<Lined<'s>>,
) -> Result<Vec<Lined<'s>>, AllocError>
    ensures { IfOk result (λ v. seen_statements v.items
        ≡ spec.object_statements line (seen_statements statements.entry.items)) }
{
    let form = Form::Import {
        module: Word::lent(b"CONFIGURATION"),
    };
    let mut all = vec![in alloc; Lined { line, form }]?;
    for statement in statements {
        add_spread(alloc, &mut all, statement)?;
    }
    Ok(all)
}

/// The unit that declares the same in forms that each module may have.
pub fn declare<'s>(alloc: Global, unit: Unit<'s>) -> Result<Unit<'s>, AllocError>
    ensures declared { IfOk result (λ u. seen_unit u ≡ spec.declared_unit (seen_unit unit.entry)) }
    ensures known { AreKnown (seen_unit unit.entry).statements
        → IfOk result (λ u. AreKnown (seen_unit u).statements) }
{
    if unit.word != b"omod".as_slice() {
        return Ok(unit);
    }
    let Unit {
        line,
        word,
        name,
        statements,
        tokens,
    } = unit;
    let statements = declared(alloc, line, statements)?;
    Ok(Unit {
        line,
        word,
        name,
        statements,
        tokens,
    })
}
