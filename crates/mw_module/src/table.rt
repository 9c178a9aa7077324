// The table of the forms of statements.
ghost use Rattle.std.specs.Prelude.{◌≡◌, map};
ghost use Rattle.mw_module.specs.Rows as spec;
ghost use Rattle.mw_module.specs.Reading as reading;

use crate::faults::FaultKind;
use std::alloc::AllocError;

/// A place between the tokens of a statement, or of a piece of one.
#[derive(Clone, Copy)]
pub enum Place {
    /// Among sorts or variables that are declared.
    Sorts,
    Variables,
    /// Where a group of sorts begins, and where it goes on.
    Group,
    InGroup,
    /// A sort and nothing more.
    Sort,
    /// In the one name of an operator, among several names, and inside the parentheses of one.
    Name,
    Names,
    Parentheses,
    /// Among the sorts of arguments, and inside the brackets of a kind there.
    Args,
    ArgKind,
    ArgKindEnd,
    /// The sort of the value, the same, and what stands behind it.
    Value,
    ValueKind,
    ValueKindEnd,
    Behind,
    /// The name of a class, and what stands behind it; the name of an attribute, its colon and its sort, and what stands
    /// behind them.
    Class,
    BehindClass,
    ClassAttribute,
    ClassColon,
    ClassSort,
    BehindClassSort,
    /// Where an attribute begins, and behind the words of some.
    Attribute,
    Frozen,
    Number,
    Numbers,
    Identity,
    Precedence,
    Gather,
    Marks,
    Format,
    Formatted,
    Metadata,
    /// In the left side of an equation, or of a fragment of a condition that is one; and in that of a rule.
    Left,
    RuleLeft,
    /// In the right side.
    Right,
    /// In the pattern of a fragment that is a match.
    Pattern,
    /// Among the fragments of a condition.
    Condition,
    /// Among the attributes of a statement, and behind the words of some.
    Statement,
    Label,
    Text,
    /// Behind the whole piece; and the same where a brace would go on with a sort.
    Whole,
    SortEnd,
}

/// What the tokens of a part are.
#[derive(Clone, Copy)]
pub enum Role {
    /// A name, a group of sorts, a side or a fragment.
    Words,
    /// A sort, and whether its kind is meant.
    Sort(bool),
    /// The bracket in front of attributes, or an attribute that says nothing.
    Silent,
    Assoc,
    Comm,
    /// What stands behind `id:`.
    Identity,
    Config,
    Precedence,
    Gather,
    /// The word `frozen`.
    Frozen,
    Nonexec,
    Owise,
}

/// What becomes of a token. It stands in the part that is open, opens or closes a level, ends the open part, stands
/// before a part that it opens, does both, or is a part of its own.
#[derive(Clone, Copy)]
pub enum Act {
    Skip,
    Deeper,
    Shallower,
    Close,
    After(Role),
    Next(Role),
    One(Role),
}

/// What is asked of a token besides its text: nothing, that no level is open, that it is no punctuation byte, that it
/// isn't quoted either, that it is a precedence, a string up to its end, or decimal digits.
#[derive(Clone, Copy)]
pub enum Test {
    Any,
    Outside,
    Plain,
    Run,
    Precedence,
    Text,
    Digits,
}

/// What is wrong with a statement: it isn't of its form, or it has a form that isn't read.
#[derive(Clone, Copy)]
pub enum Wrong {
    Bad,
    Unread,
}

/// What is read, or what is wrong.
pub type Read<T> = Result<Result<T, Wrong>, AllocError>;

/// Whether a piece may end at a place, and whether its end closes the open part.
#[derive(Clone, Copy)]
pub enum End {
    Never,
    Free,
    Closes,
}

/// What is asked of the parts of a piece: nothing, that each is a name, or that each gather has so many marks, and one
/// at least.
#[derive(Clone, Copy)]
pub enum Want {
    Nothing,
    Names,
    Marks(usize),
}

/// A row: a token with this text, or any where the text is empty, that passes the test.
#[derive(Clone, Copy)]
pub struct Row {
    pub word: &'static [u8],
    pub test: Test,
    pub act: Act,
    pub next: Result<Place, Wrong>,
}

/// What the table says of a place: how a piece may end there, and the rows, of which the first that a token meets is
/// taken.
#[derive(Clone, Copy)]
pub struct Entry {
    pub end: End,
    pub rows: &'static [Row],
}

/// The fault that is told.
pub fn told(wrong: Wrong) -> FaultKind
    ensures { result ≡ reading.told wrong }
{
    match wrong {
        Wrong::Bad => FaultKind::BadStatement,
        Wrong::Unread => FaultKind::NotInProfile,
    }
}

/// What may stand behind the word `frozen`: numbers in parentheses, or, as behind any attribute, what goes on with the
/// list.
#[rattlefmt::skip]
fn behind_frozen() -> &'static [Row]
    ensures { map spec.seen_row result.now ≡ spec.behind_frozen }
{
    use Act::{One, Skip};
    use Test::Any;
    &[
        Row { word: b"(", test: Any, act: Skip, next: Ok(Place::Number) },
        Row { word: b"]", test: Any, act: Skip, next: Ok(Place::Whole) },
        Row { word: b"assoc", test: Any, act: One(Role::Assoc), next: Ok(Place::Attribute) },
        Row { word: b"comm", test: Any, act: One(Role::Comm), next: Ok(Place::Attribute) },
        Row { word: b"id:", test: Any, act: Skip, next: Ok(Place::Identity) },
        Row { word: b"ctor", test: Any, act: One(Role::Silent), next: Ok(Place::Attribute) },
        Row { word: b"ditto", test: Any, act: One(Role::Silent), next: Ok(Place::Attribute) },
        Row { word: b"memo", test: Any, act: One(Role::Silent), next: Ok(Place::Attribute) },
        Row { word: b"object", test: Any, act: One(Role::Silent), next: Ok(Place::Attribute) },
        Row { word: b"message", test: Any, act: One(Role::Silent), next: Ok(Place::Attribute) },
        Row { word: b"frozen", test: Any, act: One(Role::Frozen), next: Ok(Place::Frozen) },
        Row { word: b"config", test: Any, act: One(Role::Config), next: Ok(Place::Attribute) },
        Row { word: b"prec", test: Any, act: Skip, next: Ok(Place::Precedence) },
        Row { word: b"gather", test: Any, act: Skip, next: Ok(Place::Gather) },
        Row { word: b"format", test: Any, act: One(Role::Silent), next: Ok(Place::Format) },
        Row { word: b"metadata", test: Any, act: One(Role::Silent), next: Ok(Place::Metadata) },
        Row { word: b"", test: Any, act: Skip, next: Err(Wrong::Unread) },
    ]
}

/// What the table says of a place.
#[rattlefmt::skip]
pub fn entry_of(place: Place) -> Entry
    ensures { spec.seen_entry result ≡ spec.entry place }
{
    use Act::{After, Close, Deeper, Next, One, Shallower, Skip};
    use End::{Closes, Free, Never};
    use Test::{Any, Outside, Plain, Run};
    match place {
        Place::Sorts => Entry { end: Free, rows: &[
            Row { word: b"{", test: Any, act: Skip, next: Err(Wrong::Unread) },
            Row { word: b"", test: Run, act: Skip, next: Ok(Place::Sorts) },
        ] },
        Place::Variables => Entry { end: Free, rows: &[
            Row { word: b"", test: Run, act: Skip, next: Ok(Place::Variables) },
        ] },
        Place::Group => Entry { end: Never, rows: &[
            Row { word: b"<", test: Any, act: Skip, next: Err(Wrong::Bad) },
            Row { word: b"{", test: Any, act: Skip, next: Err(Wrong::Unread) },
            Row { word: b"", test: Plain, act: Skip, next: Ok(Place::InGroup) },
        ] },
        Place::InGroup => Entry { end: Closes, rows: &[
            Row { word: b"<", test: Any, act: Next(Role::Words), next: Ok(Place::Group) },
            Row { word: b"{", test: Any, act: Skip, next: Err(Wrong::Unread) },
            Row { word: b"", test: Plain, act: Skip, next: Ok(Place::InGroup) },
        ] },
        Place::Sort => Entry { end: Never, rows: &[
            Row { word: b"{", test: Any, act: Skip, next: Err(Wrong::Unread) },
            Row { word: b"", test: Plain, act: One(Role::Sort(false)), next: Ok(Place::SortEnd) },
        ] },
        Place::Name => Entry { end: Closes, rows: &[Row { word: b"", test: Any, act: Skip, next: Ok(Place::Name) }] },
        Place::Names => Entry { end: Free, rows: &[
            Row { word: b"(", test: Any, act: After(Role::Words), next: Ok(Place::Parentheses) },
            Row { word: b")", test: Any, act: Skip, next: Err(Wrong::Bad) },
            Row { word: b"", test: Any, act: One(Role::Words), next: Ok(Place::Names) },
        ] },
        Place::Parentheses => Entry { end: Never, rows: &[
            Row { word: b")", test: Outside, act: Close, next: Ok(Place::Names) },
            Row { word: b")", test: Any, act: Shallower, next: Ok(Place::Parentheses) },
            Row { word: b"(", test: Any, act: Deeper, next: Ok(Place::Parentheses) },
            Row { word: b"", test: Any, act: Skip, next: Ok(Place::Parentheses) },
        ] },
        Place::Args => Entry { end: Free, rows: &[
            Row { word: b"[", test: Any, act: Skip, next: Ok(Place::ArgKind) },
            Row { word: b"{", test: Any, act: Skip, next: Err(Wrong::Unread) },
            Row { word: b"", test: Plain, act: One(Role::Sort(false)), next: Ok(Place::Args) },
        ] },
        Place::ArgKind => Entry { end: Never, rows: &[
            Row { word: b"{", test: Any, act: Skip, next: Err(Wrong::Unread) },
            Row { word: b"", test: Plain, act: One(Role::Sort(true)), next: Ok(Place::ArgKindEnd) },
        ] },
        Place::ArgKindEnd => Entry { end: Never, rows: &[
            Row { word: b"]", test: Any, act: Skip, next: Ok(Place::Args) },
            Row { word: b"{", test: Any, act: Skip, next: Err(Wrong::Unread) },
        ] },
        Place::Value => Entry { end: Never, rows: &[
            Row { word: b"[", test: Any, act: Skip, next: Ok(Place::ValueKind) },
            Row { word: b"{", test: Any, act: Skip, next: Err(Wrong::Unread) },
            Row { word: b"", test: Plain, act: One(Role::Sort(false)), next: Ok(Place::Behind) },
        ] },
        Place::ValueKind => Entry { end: Never, rows: &[
            Row { word: b"{", test: Any, act: Skip, next: Err(Wrong::Unread) },
            Row { word: b"", test: Plain, act: One(Role::Sort(true)), next: Ok(Place::ValueKindEnd) },
        ] },
        Place::ValueKindEnd => Entry { end: Never, rows: &[
            Row { word: b"]", test: Any, act: Skip, next: Ok(Place::Behind) },
            Row { word: b"{", test: Any, act: Skip, next: Err(Wrong::Unread) },
        ] },
        Place::Behind => Entry { end: Free, rows: &[
            Row { word: b"[", test: Any, act: One(Role::Silent), next: Ok(Place::Attribute) },
            Row { word: b"{", test: Any, act: Skip, next: Err(Wrong::Unread) },
        ] },
        Place::Attribute => Entry { end: Never, rows: &behind_frozen()[1..] },
        Place::Frozen => Entry { end: Never, rows: behind_frozen() },
        Place::Number => Entry { end: Never, rows: &[
            Row { word: b"", test: Test::Digits, act: Skip, next: Ok(Place::Numbers) },
        ] },
        Place::Numbers => Entry { end: Never, rows: &[
            Row { word: b")", test: Any, act: Skip, next: Ok(Place::Attribute) },
            Row { word: b"", test: Test::Digits, act: Skip, next: Ok(Place::Numbers) },
        ] },
        Place::Class => Entry { end: Never, rows: &[
            Row { word: b"{", test: Any, act: Skip, next: Err(Wrong::Unread) },
            Row { word: b"", test: Run, act: One(Role::Words), next: Ok(Place::BehindClass) },
        ] },
        Place::BehindClass => Entry { end: Free, rows: &[
            Row { word: b"|", test: Any, act: Skip, next: Ok(Place::ClassAttribute) },
            Row { word: b"{", test: Any, act: Skip, next: Err(Wrong::Unread) },
        ] },
        Place::ClassAttribute => Entry { end: Never, rows: &[
            Row { word: b"", test: Any, act: One(Role::Words), next: Ok(Place::ClassColon) },
        ] },
        Place::ClassColon => Entry { end: Never, rows: &[
            Row { word: b":", test: Any, act: Skip, next: Ok(Place::ClassSort) },
        ] },
        Place::ClassSort => Entry { end: Never, rows: &[
            Row { word: b"{", test: Any, act: Skip, next: Err(Wrong::Unread) },
            Row { word: b"", test: Run, act: One(Role::Words), next: Ok(Place::BehindClassSort) },
        ] },
        Place::BehindClassSort => Entry { end: Free, rows: &[
            Row { word: b",", test: Any, act: Skip, next: Ok(Place::ClassAttribute) },
            Row { word: b"{", test: Any, act: Skip, next: Err(Wrong::Unread) },
        ] },
        Place::Identity => Entry { end: Never, rows: &[
            Row { word: b"", test: Any, act: One(Role::Identity), next: Ok(Place::Attribute) },
        ] },
        Place::Precedence => Entry { end: Never, rows: &[
            Row { word: b"", test: Test::Precedence, act: One(Role::Precedence), next: Ok(Place::Attribute) },
        ] },
        Place::Gather => Entry { end: Never, rows: &[
            Row { word: b"(", test: Any, act: After(Role::Gather), next: Ok(Place::Marks) },
        ] },
        Place::Marks => Entry { end: Never, rows: &[
            Row { word: b")", test: Any, act: Close, next: Ok(Place::Attribute) },
            Row { word: b"", test: Any, act: Skip, next: Ok(Place::Marks) },
        ] },
        Place::Format => Entry { end: Never, rows: &[
            Row { word: b"(", test: Any, act: Skip, next: Ok(Place::Formatted) },
        ] },
        Place::Formatted => Entry { end: Never, rows: &[
            Row { word: b")", test: Any, act: Skip, next: Ok(Place::Attribute) },
            Row { word: b"", test: Any, act: Skip, next: Ok(Place::Formatted) },
        ] },
        Place::Metadata => Entry { end: Never, rows: &[
            Row { word: b"", test: Test::Text, act: Skip, next: Ok(Place::Attribute) },
        ] },
        Place::Left => Entry { end: Never, rows: &[
            Row { word: b"=", test: Outside, act: Next(Role::Words), next: Ok(Place::Right) },
            Row { word: b"(", test: Any, act: Deeper, next: Ok(Place::Left) },
            Row { word: b"[", test: Any, act: Deeper, next: Ok(Place::Left) },
            Row { word: b"{", test: Any, act: Deeper, next: Ok(Place::Left) },
            Row { word: b"if", test: Any, act: Deeper, next: Ok(Place::Left) },
            Row { word: b")", test: Any, act: Shallower, next: Ok(Place::Left) },
            Row { word: b"]", test: Any, act: Shallower, next: Ok(Place::Left) },
            Row { word: b"}", test: Any, act: Shallower, next: Ok(Place::Left) },
            Row { word: b"fi", test: Any, act: Shallower, next: Ok(Place::Left) },
            Row { word: b"", test: Any, act: Skip, next: Ok(Place::Left) },
        ] },
        Place::RuleLeft => Entry { end: Never, rows: &[
            Row { word: b"=>", test: Outside, act: Next(Role::Words), next: Ok(Place::Right) },
            Row { word: b"(", test: Any, act: Deeper, next: Ok(Place::RuleLeft) },
            Row { word: b"[", test: Any, act: Deeper, next: Ok(Place::RuleLeft) },
            Row { word: b"{", test: Any, act: Deeper, next: Ok(Place::RuleLeft) },
            Row { word: b"if", test: Any, act: Deeper, next: Ok(Place::RuleLeft) },
            Row { word: b")", test: Any, act: Shallower, next: Ok(Place::RuleLeft) },
            Row { word: b"]", test: Any, act: Shallower, next: Ok(Place::RuleLeft) },
            Row { word: b"}", test: Any, act: Shallower, next: Ok(Place::RuleLeft) },
            Row { word: b"fi", test: Any, act: Shallower, next: Ok(Place::RuleLeft) },
            Row { word: b"", test: Any, act: Skip, next: Ok(Place::RuleLeft) },
        ] },
        Place::Right => Entry { end: Closes, rows: &[
            Row { word: b"", test: Any, act: Skip, next: Ok(Place::Right) },
        ] },
        Place::Pattern => Entry { end: Never, rows: &[
            Row { word: b":=", test: Outside, act: Next(Role::Words), next: Ok(Place::Right) },
            Row { word: b"(", test: Any, act: Deeper, next: Ok(Place::Pattern) },
            Row { word: b"[", test: Any, act: Deeper, next: Ok(Place::Pattern) },
            Row { word: b"{", test: Any, act: Deeper, next: Ok(Place::Pattern) },
            Row { word: b"if", test: Any, act: Deeper, next: Ok(Place::Pattern) },
            Row { word: b")", test: Any, act: Shallower, next: Ok(Place::Pattern) },
            Row { word: b"]", test: Any, act: Shallower, next: Ok(Place::Pattern) },
            Row { word: b"}", test: Any, act: Shallower, next: Ok(Place::Pattern) },
            Row { word: b"fi", test: Any, act: Shallower, next: Ok(Place::Pattern) },
            Row { word: b"", test: Any, act: Skip, next: Ok(Place::Pattern) },
        ] },
        Place::Condition => Entry { end: Closes, rows: &[
            Row { word: b"/\\", test: Outside, act: Next(Role::Words), next: Ok(Place::Condition) },
            Row { word: b"=>", test: Outside, act: Skip, next: Err(Wrong::Unread) },
            Row { word: b"(", test: Any, act: Deeper, next: Ok(Place::Condition) },
            Row { word: b"[", test: Any, act: Deeper, next: Ok(Place::Condition) },
            Row { word: b"{", test: Any, act: Deeper, next: Ok(Place::Condition) },
            Row { word: b"if", test: Any, act: Deeper, next: Ok(Place::Condition) },
            Row { word: b")", test: Any, act: Shallower, next: Ok(Place::Condition) },
            Row { word: b"]", test: Any, act: Shallower, next: Ok(Place::Condition) },
            Row { word: b"}", test: Any, act: Shallower, next: Ok(Place::Condition) },
            Row { word: b"fi", test: Any, act: Shallower, next: Ok(Place::Condition) },
            Row { word: b"", test: Any, act: Skip, next: Ok(Place::Condition) },
        ] },
        Place::Statement => Entry { end: Free, rows: &[
            Row { word: b"nonexec", test: Any, act: One(Role::Nonexec), next: Ok(Place::Statement) },
            Row { word: b"owise", test: Any, act: One(Role::Owise), next: Ok(Place::Statement) },
            Row { word: b"label", test: Any, act: Skip, next: Ok(Place::Label) },
            Row { word: b"metadata", test: Any, act: Skip, next: Ok(Place::Text) },
            Row { word: b"", test: Any, act: Skip, next: Err(Wrong::Unread) },
        ] },
        Place::Label => Entry { end: Never, rows: &[
            Row { word: b"", test: Any, act: Skip, next: Ok(Place::Statement) },
        ] },
        Place::Text => Entry { end: Never, rows: &[
            Row { word: b"", test: Test::Text, act: Skip, next: Ok(Place::Statement) },
        ] },
        Place::Whole => Entry { end: Free, rows: &[] },
        Place::SortEnd => Entry { end: Free, rows: &[
            Row { word: b"{", test: Any, act: Skip, next: Err(Wrong::Unread) },
        ] },
    }
}
