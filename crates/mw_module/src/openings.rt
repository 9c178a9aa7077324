// The first words of statements.
ghost use Rattle.std.specs.Prelude.{◌≡◌};
ghost use Rattle.mw_module.specs.Openings as openings;

use crate::kinds::Kind;
use crate::words::same;

/// What a statement's first word asks for.
#[derive(Clone, Copy)]
pub enum Opening {
    Sorts,
    Subsorts,
    Operator,
    Operators,
    Variables,
    Equation,
    ConditionalEquation,
    Rule,
    ConditionalRule,
    Import,
    Class,
    Message,
    Messages,
    /// A statement of other kinds of modules.
    Elsewhere,
    /// No word of a statement that is read.
    Unread,
}

// A word of imports, which all mean the same.
fn is_import(word: &[u8]) -> bool
    ensures { result ≡ openings.is_import word.now }
{
    same(word, b"protecting")
        || same(word, b"pr")
        || same(word, b"extending")
        || same(word, b"ex")
        || same(word, b"including")
        || same(word, b"inc")
}

// A word of rules, which stand in system and object modules alone.
fn is_rule(word: &[u8]) -> bool
    ensures { result ≡ openings.is_rule word.now }
{
    same(word, b"rl") || same(word, b"crl")
}

// A word of statements that stand in object modules alone.
fn is_of_objects(word: &[u8]) -> bool
    ensures { result ≡ openings.is_of_objects word.now }
{
    same(word, b"class")
        || same(word, b"subclass")
        || same(word, b"subclasses")
        || same(word, b"msg")
        || same(word, b"msgs")
}

// Whether rules may stand in modules of this kind.
fn has_rules(kind: Kind) -> bool
    ensures { result ≡ openings.has_rules kind }
{
    matches!(kind, Kind::System | Kind::Object)
}

// Whether classes and messages may.
fn has_objects(kind: Kind) -> bool
    ensures { result ≡ openings.has_objects kind }
{
    matches!(kind, Kind::Object)
}

// What a word of statements that stand in object modules alone asks for there.
fn opening_of_objects(word: &[u8]) -> Opening
    ensures { result ≡ openings.opening_of_objects word.now }
{
    if same(word, b"class") {
        Opening::Class
    } else if same(word, b"msg") {
        Opening::Message
    } else if same(word, b"msgs") {
        Opening::Messages
    } else {
        Opening::Subsorts
    }
}

/// What this first word asks for in a module of this kind.
pub fn opening_of(kind: Kind, word: &[u8]) -> Opening
    ensures { result ≡ openings.opening_of kind word.now }
{
    if same(word, b"sort") || same(word, b"sorts") {
        Opening::Sorts
    } else if same(word, b"subsort") || same(word, b"subsorts") {
        Opening::Subsorts
    } else if same(word, b"op") {
        Opening::Operator
    } else if same(word, b"ops") {
        Opening::Operators
    } else if same(word, b"var") || same(word, b"vars") {
        Opening::Variables
    } else if same(word, b"eq") {
        Opening::Equation
    } else if same(word, b"ceq") || same(word, b"cq") {
        Opening::ConditionalEquation
    } else if is_import(word) {
        Opening::Import
    } else if has_rules(kind) && same(word, b"rl") {
        Opening::Rule
    } else if has_rules(kind) && same(word, b"crl") {
        Opening::ConditionalRule
    } else if has_objects(kind) && is_of_objects(word) {
        opening_of_objects(word)
    } else if is_rule(word) || is_of_objects(word) {
        Opening::Elsewhere
    } else {
        Opening::Unread
    }
}
