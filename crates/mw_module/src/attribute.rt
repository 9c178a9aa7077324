// What attributes of operators say.
ghost use Rattle.std.specs.Prelude.{◌≡◌, nat_eq, IfOk, OnOk};
ghost use Rattle.std.specs.Char.{is_ascii_digit};
ghost use Rattle.std.specs.List.{list_all};
ghost use Rattle.std.specs.Option.{option_or};
ghost use Rattle.mw_text.specs.Seen.{item_of};
ghost use Rattle.mw_module.specs.Attributes as attributes;
ghost use Rattle.mw_module.specs.Forms.{said_by, said_from};
ghost use Rattle.mw_module.specs.Attributes.{seen_attributes, no_attributes};
ghost use Rattle.mw_module.specs.Attributes.{differ, same_texts};

use crate::machine::{Part, behind_part, part_tokens};
use crate::table::Role;
use crate::word::{Word, add_again, add_words, first_word, words_again, words_of};
use crate::words::{count_before, is_word};
use mw_lex::Token;
use mw_term::Seq;
use mw_text::{NameItem, first_item};
use std::alloc::{AllocError, Global};

/// What the attributes of an operator say. Those that aren't here say nothing.
#[derive(Drop)]
pub struct Attributes<'s> {
    pub assoc: bool,
    pub comm: bool,
    /// The word that names the identity.
    pub identity: Option<Word<'s>>,
    pub precedence: Option<u32>,
    /// The marks, one for each argument.
    pub gather: Option<Seq<Word<'s>>>,
    pub config: bool,
    /// Whether all arguments are frozen.
    pub all_frozen: bool,
    /// The numbers of frozen arguments, as they are written.
    pub frozen: Vec<Word<'s>>,
    /// Whether there are two different identities, precedences or gathers.
    pub clash: bool,
}

// Whether the words are the same.
fn same_marks(marks: &[Word<'_>], others: &[Word<'_>]) -> bool
    ensures { result ≡ same_texts marks.now others.now }
{
    let mut left = marks;
    let mut right = others;
    while let [mark, after @ ..] = left {
        let [other, behind @ ..] = right else {
            return false;
        };
        if mark.as_slice() != other.as_slice() {
            return false;
        }
        left = after;
        right = behind;
    }
    right.is_empty()
}

// Whether two items are the same.
fn same_item(item: NameItem<'_>, other: NameItem<'_>) -> bool
    ensures { result ≡ attributes.same_item (item_of item.entry) (item_of other.entry) }
{
    match (item, other) {
        (NameItem::Piece(text), NameItem::Piece(other)) => text == other,
        (NameItem::Hole, NameItem::Hole) => true,
        _ => false,
    }
}

// Whether two texts spell one name.
fn same_name(text: &[u8], other: &[u8]) -> bool
    ensures { result ≡ attributes.same_name text.now other.now }
{
    let mut left = text;
    let mut right = other;
    while let Some((item, after)) = first_item(left) {
        let Some((other, behind)) = first_item(right) else {
            return false;
        };
        if !same_item(item, other) {
            return false;
        }
        left = after;
        right = behind;
    }
    first_item(right).is_none()
}

// Whether there are two identities, and they differ.
fn identities_differ(first: &Option<Word<'_>>, second: &Option<Word<'_>>) -> bool
    ensures { result ≡ differ attributes.same_name first.now second.now }
{
    match (first, second) {
        (Some(first), Some(second)) => !same_name(first.as_slice(), second.as_slice()),
        _ => false,
    }
}

// Whether there are two precedences, and they differ.
fn precedences_differ(first: Option<u32>, second: Option<u32>) -> bool
    ensures { result ≡ differ nat_eq first second }
{
    match (first, second) {
        (Some(first), Some(second)) => first != second,
        _ => false,
    }
}

// Whether there are two gathers, and they differ.
fn gathers_differ(first: &Option<Seq<Word<'_>>>, second: &Option<Seq<Word<'_>>>) -> bool
    ensures { result ≡ differ same_texts first.now second.now }
{
    match (first, second) {
        (Some(first), Some(second)) => !same_marks(first.as_slice(), second.as_slice()),
        _ => false,
    }
}

// Whether they say two different identities, precedences or gathers.
fn disagree(first: &Attributes<'_>, second: &Attributes<'_>) -> bool
    ensures { result ≡ attributes.disagree (seen_attributes first.now) (seen_attributes second.now) }
{
    identities_differ(&first.identity, &second.identity)
        || precedences_differ(first.precedence, second.precedence)
        || gathers_differ(&first.gather, &second.gather)
}

// The first identity, or the second where there is none.
fn add_identity<'s>(
    alloc: Global,
    first: &mut Option<Word<'s>>,
    second: &Option<Word<'s>>,
) -> Result<(), AllocError>
    ensures { OnOk result (first.new ≡ option_or first.old second.now) }
{
    if first.is_none()
        && let Some(word) = second
    {
        *first = Some(word.again(alloc)?);
    }
    Ok(())
}

// The first gather, or the second where there is none.
fn add_gather<'s>(
    alloc: Global,
    first: &mut Option<Seq<Word<'s>>>,
    second: &Option<Seq<Word<'s>>>,
) -> Result<(), AllocError>
    ensures { OnOk result (first.new ≡ option_or first.old second.now) }
{
    if first.is_none()
        && let Some(marks) = second
    {
        *first = Some(words_again(alloc, marks.as_slice())?);
    }
    Ok(())
}

impl<'s> Attributes<'s> {
    /// No attributes.
    pub fn none(alloc: Global) -> Attributes<'s>
        ensures { seen_attributes result ≡ no_attributes }
    {
        Attributes {
            assoc: false,
            comm: false,
            identity: None,
            precedence: None,
            gather: None,
            config: false,
            all_frozen: false,
            frozen: Vec::new(alloc),
            clash: false,
        }
    }

    // What is said of yes or no, and precedences.
    fn add_plain(&mut self, other: &Attributes<'s>)
        ensures { let says = seen_attributes other.now in
            seen_attributes self.new ≡ attributes.joined_plainly (seen_attributes self.old) says }
    {
        self.clash = self.clash | other.clash | disagree(self, other);
        self.assoc |= other.assoc;
        self.comm |= other.comm;
        self.precedence = self.precedence.or(other.precedence);
        self.config |= other.config;
        self.all_frozen |= other.all_frozen;
    }

    /// Adds what others say: of two values that differ the first stays, and they clash.
    pub fn add(&mut self, alloc: Global, other: &Attributes<'s>) -> Result<(), AllocError>
        ensures { let says = seen_attributes other.now in
            OnOk result (seen_attributes self.new ≡ attributes.joined (seen_attributes self.old) says) }
    {
        self.add_plain(other);
        add_identity(alloc, &mut self.identity, &other.identity)?;
        add_gather(alloc, &mut self.gather, &other.gather)?;
        add_again(alloc, &mut self.frozen, other.frozen.as_slice())
    }

    /// The same again.
    pub fn again(&self, alloc: Global) -> Result<Attributes<'s>, AllocError>
        ensures { IfOk result (λ a. seen_attributes a ≡ seen_attributes self.now) }
    {
        let mut again = Attributes::none(alloc);
        again.add(alloc, self)?;
        Ok(again)
    }
}

fn is_digit(byte: u8) -> bool
    ensures { result ≡ is_ascii_digit byte }
{
    byte.is_ascii_digit()
}

// A precedence: a number from 0 to 127.
fn precedence_of(text: &[u8]) -> Option<u32>
    ensures { result ≡ attributes.precedence_of text.now }
{
    let number = match text {
        [a] if is_digit(*a) => (*a - b'0') as u32,
        [a, b] if is_digit(*a) && is_digit(*b) && *a != b'0' => {
            10 * (*a - b'0') as u32 + (*b - b'0') as u32
        }
        [a, b, c] if is_digit(*a) && is_digit(*b) && is_digit(*c) && *a != b'0' => {
            100 * (*a - b'0') as u32 + 10 * (*b - b'0') as u32 + (*c - b'0') as u32
        }
        _ => return None,
    };
    if number < 128 { Some(number) } else { None }
}

/// Whether the text is a precedence.
pub fn is_precedence(text: &[u8]) -> bool
    ensures { result ≡ attributes.is_precedence text.now }
{
    precedence_of(text).is_some()
}

// Whether this is a mark of a gather.
fn is_mark(token: &Token) -> bool
    ensures { result ≡ attributes.is_mark token.now }
{
    is_word(token, b"e") || is_word(token, b"E") || is_word(token, b"&")
}

/// Whether these are marks of a gather.
pub fn are_marks(tokens: &[Token]) -> bool
    ensures { result ≡ list_all attributes.is_mark tokens.now }
{
    tokens.iter().all(is_mark)
}

// The precedence that a token is.
fn precedence_in(tokens: &[Token]) -> Option<u32>
    ensures { result ≡ attributes.precedence_in tokens.now }
{
    match tokens {
        [number, ..] => precedence_of(number.text.as_slice()),
        [] => None,
    }
}

// What stands behind the word `frozen` and says which arguments: numbers in parentheses, or nothing, which says all.
fn frozen_by<'s>(alloc: Global, behind: &'s [Token]) -> Result<Attributes<'s>, AllocError>
    ensures { IfOk result (λ a. seen_attributes a ≡ attributes.frozen_by behind.now) }
{
    let mut says = Attributes::none(alloc);
    match behind {
        [open, rest @ ..] if is_word(open, b"(") => {
            let numbers = &rest[..count_before(rest, b")")];
            add_words(&mut says.frozen, numbers)?;
        }
        _ => says.all_frozen = true,
    }
    Ok(says)
}

// What one attribute says, with what stands behind it.
fn said_as<'s>(
    alloc: Global,
    role: Role,
    tokens: &'s [Token],
    behind: &'s [Token],
) -> Result<Attributes<'s>, AllocError>
    ensures { IfOk result (λ a. seen_attributes a ≡ attributes.said_as role tokens.now behind.now) }
{
    if matches!(role, Role::Frozen) {
        return frozen_by(alloc, behind);
    }
    let mut says = Attributes::none(alloc);
    match role {
        Role::Assoc => says.assoc = true,
        Role::Comm => says.comm = true,
        Role::Identity => says.identity = first_word(tokens),
        Role::Config => says.config = true,
        Role::Precedence => says.precedence = precedence_in(tokens),
        Role::Gather => says.gather = Some(words_of(alloc, tokens)?),
        Role::Frozen | Role::Words | Role::Sort(_) | Role::Silent | Role::Nonexec | Role::Owise =>
            {}
    }
    Ok(says)
}

// Adds what the attribute says that a part is.
fn add_part<'s>(
    alloc: Global,
    said: &mut Attributes<'s>,
    tokens: &'s [Token],
    part: Part,
) -> Result<(), AllocError>
    ensures { OnOk result (seen_attributes said.new
        ≡ attributes.joined (seen_attributes said.old) (said_by tokens.now part)) }
{
    let says = said_as(
        alloc,
        part.role,
        part_tokens(tokens, part),
        behind_part(tokens, part),
    )?;
    said.add(alloc, &says)
}

/// What attributes say together.
pub fn said<'s>(
    alloc: Global,
    tokens: &'s [Token],
    parts: &[Part],
) -> Result<Attributes<'s>, AllocError>
    ensures { IfOk result (λ a. seen_attributes a ≡ said_from tokens.now no_attributes parts.now) }
{
    let mut said = Attributes::none(alloc);
    for part in parts {
        add_part(alloc, &mut said, tokens, *part)?;
    }
    Ok(said)
}
