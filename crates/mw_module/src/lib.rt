//! Cuts the tokens of a source into units, and a module's body into statements of known forms.
//!
//! A unit goes from its first word to the first token that is its end word, a command to the first full stop; a body's
//! statement goes to the first full stop. docs/LANGUAGE.md has the statements and attributes, docs/ERRORS.md the
//! faults. What the words `fmod`, `mod`, `omod`, `fth`, `th`, `oth`, `view`, `smod` (and `proof`, where proofs are
//! asked for) begin is found up to its own end word; of these functional, system and object modules are read, the others
//! aren't in the profile. A system module may hold rules besides what a functional one does, and an object module
//! classes and messages too. Where the input ends first, a module, command or proof is unended; theories, views and
//! strategy modules aren't in the profile.
//!
//! - `read_unit` answers the unit that begins at a token, with its statements, or its fault; and the place of the next
//!   one. Each statement is read once, by `Form::of`: its form. Its names and sorts are words, which
//!   are lent by the source, or made where a form isn't one of the source (`Word`); its sides are slices of tokens.
//! - The end of a unit is looked at first, then its head, then its statements in order, and in a form the first place
//!   from the left that is at fault decides. A missing full stop comes last.
//! - Statements are read by a table (table.rt, specs/Rows): each place in a statement has rows, and the first row that
//!   a token meets says what becomes of it and where the next one stands. What is read is a list of parts, spans of
//!   tokens with their roles. What is known only from behind, or from a word ahead, is cut off before: the names of
//!   operators and variables end at the first colon, argument sorts at the first arrow; the label of an equation (`eq`)
//!   or a rule (`rl`) and its attributes (the group from the `[` that matches a last `]`, only these two counted, if
//!   its second token is an attribute's) are taken off, and a counter of `( [ { if` and `) ] } fi`, never below 0,
//!   finds the `=` that divides an equation, or the `=>` that divides a rule.
//! - `ceq` and `cq` state an equation with a condition, `crl` a rule with one. What is left of label and attributes is
//!   cut at the one `if` that no `fi` closes, of all tokens only these two counted, a `fi` closing the last `if` that
//!   is open; where none stays open, or several do, the statement is bad. Sides stand in front of it, divided as those
//!   of `eq` or `rl` are, and the condition behind it. Each `/\` that is outside by the counter above, from the
//!   condition's start on, divides it into fragments; and a fragment is divided by the first such `:=`, also where a
//!   `=` stands in front of it, or else by the first such `=`, or else is any other text: a sort test or a Boolean
//!   term. All these texts may be empty. A `=>` outside in a condition isn't in the profile. What is wrong is told in
//!   this order: the `if`, the sides, the condition, attributes.
//! - `op` has one name of one or more tokens, `ops` one or more, each a token or the tokens of a group in parentheses,
//!   of which only parentheses are counted.
//! - A class has a name and attributes (`Form::Class`); what it declares isn't told here. `subclass` and `subclasses`
//!   have the form of `subsort`, and `msg` and `msgs` that of `op` and `ops` with the value's sort `Msg`.
//! - `Attributes` holds what a list says: the axioms, with the word that names an identity, a precedence, a gather,
//!   `config`, frozen arguments, and whether two identities, precedences or gathers differ (`clash`). `add` joins what
//!   another list says.
//! - A statement with `owise` is refused: a rule as a bad statement, an equation as not in the profile.
//! - [`FaultKind`] has the faults of all layers, one kind for each refusal that the program prints.
//!
//! Proved: the unit at a place, exactly, with the next place; a fault exactly where there is one, and the first; the
//! next place is the same with a fault and without (`Reads`, specs/Units). A form with its parts, or exactly what is
//! wrong (`form_of`, specs/Forms); what two lists of attributes say together. Whatever the table says, parts stand one
//! after the other and are such as is wanted (`parts_ascend`): names are names, and there is a mark for each argument.
//! Operators are written as names, a colon, sorts, an arrow, and the rest (`operators_are_written`). What is known of
//! the statements of a unit that was read, and of what tokens they are made (`units_are_proper`).
//! `read_unit` asks for a place at which a token stands. `Memory` may come at any call.
//!
//! Cost: each statement is looked at a fixed number of times, and all units of a source take time linear in its tokens.
//! Only tested, by the sources in cases/: that the definitions are the language that is meant.
//!
//! A new form, or a new attribute, is rows of the table and a case of `form_behind` or `said_as`; a new kind of unit is
//! one of `unit_with`. What crates above know of the statements of a unit that was read stands in specs/Known, and of
//! what tokens they are made in specs/Tokens; proofs/Sources has the two laws. Crates above answer a `UnitError`, whose
//! fault has the property that `HasCause` names (specs/Causes).
#![tactic(auto)]

mod attribute;
mod classes;
mod conditions;
mod faults;
mod forms;
mod kinds;
mod machine;
mod openings;
mod operator_names;
mod operators;
mod sortings;
mod statements;
mod table;
mod units;
mod word;
mod words;

pub use attribute::Attributes;
pub use classes::ClassAttribute;
pub use conditions::WrittenFragment;
pub use faults::{Fault, FaultKind, UnitError};
pub use forms::Form;
pub use machine::parts_ascend;
pub use operators::operators_are_written;
pub use sortings::WrittenSort;
pub use units::{Lined, Stated, Unit, read_unit, units_are_proper};
pub use word::Word;
pub use words::{count_before, is_word, tokens_from};
