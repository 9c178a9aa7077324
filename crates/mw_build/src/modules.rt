// Modules that were accepted.
ghost use Rattle.std.specs.Prelude.{◌≡◌, ◌≤◌, ◌++◌, ℕ, List, length, drop, option_copied, All, IfOk, IfErr, IfSome, None, IsTrue, codes};
ghost use Rattle.mw_logic.specs.Term.{Variable};
ghost use Rattle.mw_logic.specs.Signature.{IsRawTerm, IsSortNamed};
ghost use Rattle.mw_logic.specs.Built.{HasBuiltIns};
ghost use Rattle.mw_sorting.specs.PreregularModulo.{HasNaturals};
ghost use Rattle.mw_logic.specs.Accepted.{IsAccepted as IsAcceptedSignature, IsWellSorted};
ghost use Rattle.mw_logic.specs.Preregular.{HasItsSorts};
ghost use Rattle.mw_term.specs.Raws.{raw_term};
ghost use Rattle.mw_text.specs.Mixfix.{Reads};
ghost use Rattle.mw_text.specs.Readings.{ReadsPair};
ghost use Rattle.mw_module.specs.Causes.{HasCause};
ghost use Rattle.mw_module.specs.Known.{AreKnown};
ghost use Rattle.mw_module.specs.Units.{seen_statements, seen_unit};
ghost use Rattle.mw_module.specs.Words.{texts};
ghost use Rattle.mw_grammar.specs.Grammars.{IsGrammarOf, IsReading};
ghost use Rattle.mw_parse.specs.Answers.{HasCause as HasReadingCause, HasPairCause};
ghost use Rattle.mw_poset.specs.SortOrder.{order_of};
ghost use Rattle.mw_sorts.specs.Diagrams.{AreTablesOf};
ghost use Rattle.mw_least.specs.Workable.{AreSides, IsWorkable};
ghost use Rattle.mw_index.specs.Index.{IsIndexOf};
ghost use Rattle.mw_import.specs.Flat.{IsFlat};
ghost use Rattle.mw_carry.specs.Laws.{OperatorsApart};
ghost use Rattle.mw_declare.specs.Declarations.{Declares, DeclarationFault};
ghost use Rattle.mw_build.specs.Sides.{sides_of};
ghost use Rattle.mw_build.specs.Statements.{AreReadAs, FirstFault};
ghost use Rattle.mw_build.specs.Imported.{IsNotOwise, ArePartsOf, origins_of};
ghost use Rattle.mw_omod.specs.Workable.{AreClasses};
ghost use Rattle.mw_build.specs.Classes.{AreObjectsOf};
ghost use Rattle.mw_build.specs.Modules.{IsDeclaredModule, StatementsFault, IsAccepted, IsRefused, AreLoaded, AreAll, NotAll, IsOfKnown};
ghost use Rattle.mw_build.specs.Modules.{reached_of, flattened};

use crate::carrying::imported;
use crate::classes::classes_of;
use crate::signature::tables;
use crate::statements::{Reader, statements_of, written_statements};
use mw_canon::Facts;
use mw_declare::{Declarations, Reached, Typing, all_typed, declare};
use mw_grammar::Grammar;
use mw_import::{Flat, Units};
use mw_index::Index;
use mw_least::Ctx;
use mw_lex::Token;
use mw_module::{Lined, Unit, UnitError};
use mw_omod::Classes;
use mw_parse::{Unread, parse, parse_pair};
use mw_poset::Poset;
use mw_sorts::Tables;
use mw_term::{Name, Raw, Seq, Statement, VarId};
use std::alloc::{AllocError, Global};
use std::marker::Model;

/// A module that was accepted.
#[derive(Drop)]
pub struct Module {
    name: Name,
    context: Box<Ctx>,
    // How many statements of others stand before its own.
    imported: usize,
    // Made when it is first wanted.
    index: Option<Box<Index>>,
    variables: Seq<VarId>,
    grammar: Box<Grammar>,
}

impl Model for Module {
    ghost use Rattle.std.specs.Prelude.{drop};
    ghost use Rattle.std.specs.Coded.{codes};
    ghost use Rattle.mw_logic.specs.TermCode.{coded_term, coded_variable};
    ghost use Rattle.mw_build.specs.Imported.{Accepted};

    ghost Value = { Accepted };

    ghost coded = { Prim.hlevel (codes, coded_term, coded_variable) };

    ghost view = { λ m. record { name = m.name; «module» = m.context.value; variables = m.variables; own = drop m.imported m.context.value.statements } };

    ghost use Rattle.mw_grammar.specs.Grammars.{IsGrammarOf};
    ghost use Rattle.mw_index.specs.Index.{IsIndexOf};
    ghost use Rattle.mw_build.specs.Modules.{IsHeld};

    ghost invariant = { λ m. IsHeld m.context.value m.imported m.variables m.grammar.value m.index };
}

impl Module {
    pub fn name(&self) -> &Name
        ensures { result.now ≡ self.now.name }
    {
        &self.name
    }

    /// Its signature and its statements, as the engine takes them.
    pub fn context(&self) -> &Ctx
        ensures { result.now ≡ self.now.module }
    {
        &self.context
    }

    /// The statements that stand in it itself, in order.
    pub fn own(&self) -> &[Statement]
        ensures own { result.now ≡ self.now.own }
        ensures ordinary { All IsNotOwise result.now }
        ensures sides { All (AreSides self.now.module.signature) result.now }
    {
        self.context.shows();
        let (_, own) = self.context.statements().split_at(self.imported);
        own
    }

    /// Its equations and rules, by what their left sides are instances of, where `prepare` has made that.
    pub fn index(&self) -> Option<&Index>
        ensures { IfSome result (λ index. IsIndexOf self.now.module index.now) }
    {
        match &self.index {
            Some(index) => Some(index),
            None => None,
        }
    }

    /// Makes the index where there is none yet: a module in which nothing is reduced needs none.
    pub fn prepare(&mut self, alloc: Global) -> Result<(), AllocError>
        ensures { self.new ≡ self.old }
    {
        if self.index.is_none() {
            let index = Index::of(alloc, &self.context)?;
            self.index = Some(Box::new(alloc, index)?);
        }
        Ok(())
    }

    /// The one term that the tokens spell, in which the module's variables may stand. It is a term of the signature.
    pub fn term(&self, alloc: Global, tokens: &[Token]) -> Result<Raw, Unread<Raw>>
        ensures read { IfOk result (λ t. Reads self.now.module.signature self.now.variables None (texts tokens.now) (raw_term t)) }
        ensures raw { IfOk result (λ t. IsRawTerm self.now.module.signature (raw_term t)) }
        ensures cause { IfErr result (HasReadingCause self.now.module.signature self.now.variables None (texts tokens.now)) }
    {
        self.context.shows();
        parse(alloc, &self.grammar, tokens, None)
    }

    /// The one pair of terms of one kind that the tokens spell, in which the module's variables may stand. They are
    /// terms of the signature.
    pub fn pair(
        &self,
        alloc: Global,
        left: &[Token],
        right: &[Token],
    ) -> Result<(Raw, Raw), Unread<(Raw, Raw)>>
        ensures read { IfOk result (λ p. ReadsPair self.now.module.signature self.now.variables (texts left.now) (texts right.now) (raw_term p.0, raw_term p.1)) }
        ensures raw { IfOk result (λ p. IsRawTerm self.now.module.signature (raw_term p.0) × IsRawTerm self.now.module.signature (raw_term p.1)) }
        ensures cause { IfErr result (HasPairCause self.now.module.signature self.now.variables (texts left.now) (texts right.now)) }
    {
        self.context.shows();
        parse_pair(alloc, &self.grammar, left, right)
    }
}

/// The statements that a module's equations and rules are, or their first fault.
fn read(
    alloc: Global,
    reader: Reader<'_>,
    statements: &[Lined<'_>],
) -> Result<Vec<Statement>, UnitError>
    requires reading { IsReading reader.grammar.now }
    requires grammar { (variables : List Variable) × IsGrammarOf reader.facts.now variables reader.grammar.now }
    requires classes { IfSome reader.classes (λ K. AreClasses reader.facts.now K.now) }
    ensures statements { (variables : List Variable) → IsGrammarOf reader.entry.facts.now variables reader.entry.grammar.now
        → IfOk result (λ v. AreReadAs reader.entry.facts.now variables (option_copied reader.entry.classes) (sides_of (seen_statements statements.now)) v.items) }
    ensures fault { (variables : List Variable) → IsGrammarOf reader.entry.facts.now variables reader.entry.grammar.now
        → IfErr result (HasCause (FirstFault reader.entry.facts.now variables (option_copied reader.entry.classes) (sides_of (seen_statements statements.now)))) }
{
    let written = written_statements(alloc, statements)?;
    match statements_of(alloc, reader, written.as_slice())? {
        Ok(found) => Ok(found),
        Err(fault) => Err(UnitError::Fault(fault)),
    }
}

/// A unit, and where it is an object module the classes by which its rules are completed.
#[derive(Clone, Copy)]
struct Source<'u, 's, 'c> {
    unit: &'u Unit<'s>,
    classes: Option<&'c Classes>,
}

/// The statements of a module, of which so many stand for those of others.
#[derive(Drop)]
struct Statements {
    imported: usize,
    list: Vec<Statement>,
}

/// The first statements, and then the others.
fn joined(first: Vec<Statement>, others: Vec<Statement>) -> Result<Statements, AllocError>
    ensures imported { IfOk result (λ s. s.imported ≡ length first.items) }
    ensures list { IfOk result (λ s. s.list.items ≡ first.items ++ others.items) }
{
    let imported = first.len();
    let mut list = first;
    for other in others {
        list.push(other)?;
    }
    Ok(Statements { imported, list })
}

/// A module's signature with its order, its axioms and its tables, and the module's variables.
#[derive(Drop)]
struct Signed {
    facts: Facts,
    order: Poset,
    tables: Box<Tables>,
    variables: Seq<VarId>,
}

/// What was declared, with the operators' tables.
fn with_tables(
    alloc: Global,
    declarations: Box<Declarations>,
    tables: Box<Tables>,
) -> Result<Box<Signed>, AllocError>
    requires accepted { IsAcceptedSignature declarations.value.signature }
    requires sorts { HasItsSorts declarations.value.signature }
    requires order { declarations.value.order ≡ order_of declarations.value.signature }
    ensures facts { IfOk result (λ s. s.value.facts ≡ declarations.value.signature) }
    ensures order { IfOk result (λ s. s.value.order ≡ declarations.value.order) }
    ensures variables { IfOk result (λ s. s.value.variables ≡ declarations.value.variables) }
    ensures tables { IfOk result (λ s. s.value.tables.value ≡ tables.value) }
{
    let Declarations {
        signature,
        order,
        variables,
    } = Box::into_inner(declarations);
    let facts = Facts::of(alloc, signature, &order)?;
    let signed = Signed {
        facts,
        order,
        tables,
        variables,
    };
    Ok(Box::new(alloc, signed)?)
}

/// The statements of a module with this signature, which reaches these modules: those that stand for statements of
/// others, and then its own; or the first fault.
fn all_statements(
    alloc: Global,
    signed: &Signed,
    grammar: &Grammar,
    modules: &[Module],
    reached: &[usize],
    source: Source<'_, '_, '_>,
) -> Result<Statements, UnitError>
    requires numbers { HasItsSorts signed.now.facts }
    requires order { signed.now.order ≡ order_of signed.now.facts }
    requires parts { ArePartsOf modules.now reached.now signed.now.facts }
    requires reading { IsReading grammar.now }
    requires classes { IfSome source.classes (λ K. AreClasses signed.now.facts K.now) }
    requires grammar { (variables : List Variable) × IsGrammarOf signed.now.facts variables grammar.now }
    ensures all { (variables : List Variable) → IsGrammarOf signed.now.facts variables grammar.now → IfOk result (λ s.
        AreAll signed.now.facts variables (option_copied source.entry.classes) (origins_of modules.now reached.now) (sides_of (seen_unit source.entry.unit.now).statements) s.imported s.list.items) }
    ensures fault { (variables : List Variable) → IsGrammarOf signed.now.facts variables grammar.now → IfErr result (HasCause
        (NotAll signed.now.facts variables (option_copied source.entry.classes) (seen_unit source.entry.unit.now).line (origins_of modules.now reached.now) (sides_of (seen_unit source.entry.unit.now).statements))) }
{
    let imported = imported(
        alloc,
        &signed.facts,
        &signed.order,
        modules,
        reached,
        source.unit.line,
    )?;
    let reader = Reader {
        facts: &signed.facts,
        grammar,
        classes: source.classes,
    };
    let own = read(alloc, reader, source.unit.statements.as_slice())?;
    Ok(joined(imported, own)?)
}

/// The module of this name with this signature and these statements.
fn module_of(
    alloc: Global,
    name: Name,
    signed: Box<Signed>,
    grammar: Box<Grammar>,
    statements: Statements,
) -> Result<Module, AllocError>
    requires workable { IsWorkable (record { signature = signed.value.facts; statements = statements.list.items }) }
    requires order { signed.value.order ≡ order_of signed.value.facts }
    requires tables { AreTablesOf signed.value.facts signed.value.tables.value }
    requires grammar { IsGrammarOf signed.value.facts signed.value.variables grammar.value }
    requires within { statements.imported ≤ length statements.list.items }
    requires ordinary { All IsNotOwise (drop statements.imported statements.list.items) }
    ensures { IfOk result (λ m. m ≡ record {
      name = name;
      «module» = record { signature = signed.value.facts; statements = statements.list.items };
      variables = signed.value.variables;
      own = drop statements.imported statements.list.items;
    }) }
{
    let Signed {
        facts,
        order,
        tables,
        variables,
    } = Box::into_inner(signed);
    let Statements { imported, list } = statements;
    let context = Ctx::new(alloc, facts, order, Box::into_inner(tables), Seq::of(list))?;
    Ok(Module {
        name,
        context,
        imported,
        index: None,
        variables,
        grammar,
    })
}

/// The module of this name that a unit is, by what its flattened module declares, where it reaches these modules; or
/// its first fault.
fn declared_module(
    alloc: Global,
    name: Name,
    source: Source<'_, '_, '_>,
    modules: &[Module],
    reached: &[usize],
    declarations: Box<Declarations>,
) -> Result<Module, UnitError>
    requires classes { IfSome source.classes (λ K. AreClasses declarations.value.signature K.now) }
    requires declared { IsOfKnown declarations.value }
    requires parts { ArePartsOf modules.now reached.now declarations.value.signature }
    requires order { declarations.value.order ≡ order_of declarations.value.signature }
    requires accepted { IsAcceptedSignature declarations.value.signature }
    requires well_sorted { IsWellSorted declarations.value.signature }
    requires sorts { HasItsSorts declarations.value.signature }
    requires naturals { IsTrue declarations.value.signature.nat → HasNaturals declarations.value.signature }
    requires quoted { IsTrue declarations.value.signature.qid → (S : ℕ) × IsSortNamed declarations.value.signature S (codes "Qid") }
    requires built { HasBuiltIns declarations.value.signature }
    ensures holds { IfOk result (IsDeclaredModule name declarations.value (option_copied source.entry.classes) (origins_of modules.now reached.now) (sides_of (seen_unit source.entry.unit.now).statements)) }
    ensures fault { IfErr result (HasCause (StatementsFault (seen_unit source.entry.unit.now).line declarations.value (option_copied source.entry.classes) (origins_of modules.now reached.now) (sides_of (seen_unit source.entry.unit.now).statements))) }
{
    let tables = tables(
        alloc,
        source.unit.line,
        &declarations.signature,
        &declarations.order,
    )?;
    let signed = with_tables(alloc, declarations, tables)?;
    let grammar = Grammar::of(
        alloc,
        signed.facts.signature(),
        &signed.order,
        signed.variables.as_slice(),
    )?;
    let statements = all_statements(alloc, &signed, &grammar, modules, reached, source)?;
    Ok(module_of(alloc, name, signed, grammar, statements)?)
}

/// What the flattened module of a unit declares, which has this name, whose own variables have these sorts and which
/// reaches these units; or its first fault.
fn flattened_declarations(
    alloc: Global,
    units: &Units<'_>,
    unit: &Unit<'_>,
    name: &[u8],
    typing: &Typing,
    flat: &Flat,
) -> Result<Box<Declarations>, UnitError>
    requires flat { IsFlat units.now (seen_unit unit.now).statements flat.now }
    ensures declared { IfOk result (λ d. Declares (reached_of units.now name.now flat.now) typing.now (flattened units.now (seen_unit unit.now) flat.now) d.value) }
    ensures order { IfOk result (λ d. d.value.order ≡ order_of d.value.signature) }
    ensures accepted { IfOk result (λ d. IsAcceptedSignature d.value.signature) }
    ensures well_sorted { IfOk result (λ d. IsWellSorted d.value.signature) }
    ensures numbers { IfOk result (λ d. HasItsSorts d.value.signature) }
    ensures apart { IfOk result (λ d. OperatorsApart d.value.signature) }
    ensures naturals { IfOk result (λ d. IsTrue d.value.signature.nat → HasNaturals d.value.signature) }
    ensures quoted { IfOk result (λ d. IsTrue d.value.signature.qid → (S : ℕ) × IsSortNamed d.value.signature S (codes "Qid")) }
    ensures built { IfOk result (λ d. HasBuiltIns d.value.signature) }
    ensures fault { IfErr result (HasCause (DeclarationFault (reached_of units.now name.now flat.now) (seen_unit unit.now).line (flattened units.now (seen_unit unit.now) flat.now))) }
{
    let statements = units.statements(alloc, unit.line, flat, unit.statements.as_slice())?;
    let reached = Reached {
        nat: units.reaches(flat, name, b"NAT"),
        qid: units.reaches(flat, name, b"QID"),
    };
    declare(alloc, unit.line, reached, typing, statements.as_slice())
}

/// The classes of the flattened module of a unit, where it is an object module.
fn classes(
    alloc: Global,
    units: &Units<'_>,
    unit: &Unit<'_>,
    flat: &Flat,
    declarations: &Declarations,
) -> Result<Option<Classes>, AllocError>
    requires flat { IsFlat units.now (seen_unit unit.now).statements flat.now }
    requires sorts { HasItsSorts declarations.now.signature }
    requires order { declarations.now.order ≡ order_of declarations.now.signature }
    requires accepted { IsAcceptedSignature declarations.now.signature }
    requires apart { OperatorsApart declarations.now.signature }
    ensures { IfOk result (AreObjectsOf (seen_unit unit.now).word declarations.now.signature (flattened units.now (seen_unit unit.now) flat.now)) }
{
    if unit.word != b"omod".as_slice() {
        return Ok(None);
    }
    let statements = units.statements(alloc, unit.line, flat, unit.statements.as_slice())?;
    let Declarations {
        signature,
        order,
        ..
    } = declarations;
    classes_of(alloc, signature, order, statements.as_slice())
}

/// A module, with the units that it reaches.
#[derive(Drop)]
pub struct Built {
    pub flat: Flat,
    pub module: Module,
}

/// The module of this name that a unit is, or its first fault; where these units were accepted as these modules.
pub fn build(
    alloc: Global,
    units: &Units<'_>,
    modules: &[Module],
    unit: &Unit<'_>,
    name: Name,
) -> Result<Built, UnitError>
    requires loaded { AreLoaded units.now modules.now }
    requires known { AreKnown (seen_unit unit.now).statements }
    ensures accepted { IfOk result (λ b. IsAccepted units.now modules.now (seen_unit unit.now) name b.flat b.module) }
    ensures fault { IfErr result (HasCause (IsRefused units.now modules.now (seen_unit unit.now) name)) }
{
    units.shows();
    let typing = all_typed(alloc, unit.statements.as_slice())?;
    let flat = units.flatten(alloc, name.as_slice(), unit.statements.as_slice())?;
    let declarations = flattened_declarations(alloc, units, unit, name.as_slice(), &typing, &flat)?;
    let classes = classes(alloc, units, unit, &flat, &declarations)?;
    let objects = classes.as_ref();
    let source = Source {
        unit,
        classes: objects,
    };
    let module = declared_module(alloc, name, source, modules, flat.as_slice(), declarations)?;
    Ok(Built { flat, module })
}
