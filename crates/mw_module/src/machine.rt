// Statements, and pieces of statements, by the table.
ghost use Rattle.std.specs.Prelude.{◌≡◌, ◌<◌, ◌≤◌, ◌+◌, drop, map, length, option_map, IfOk, OnOk};
ghost use Rattle.mw_module.specs.Rows.{seen_row};
ghost use Rattle.mw_module.specs.Rows as spec;
ghost use Rattle.mw_module.specs.Words.{seen_lists, seen_halves};
ghost use Rattle.mw_module.specs.Parts.{PartsAscend};
ghost use Rattle.mw_module.specs.Reading as reading;

use crate::attribute::{are_marks, is_precedence};
use crate::operator_names::is_name;
use crate::table::{Act, End, Place, Read, Role, Row, Test, Want, Wrong, entry_of};
use crate::words::{are_digits, is_punctuation, is_quoted, is_whole_string};
use mw_lex::Token;
use std::alloc::{AllocError, Global};

/// The tokens from one place up to another, by what they are.
#[derive(Clone, Copy)]
pub struct Part {
    pub role: Role,
    pub from: usize,
    pub to: usize,
}

/// Where the reading stands: the place, how many levels are open, what the open part is and where it begins, and the
/// parts that are closed.
#[derive(Drop)]
pub struct State {
    pub place: Place,
    pub depth: usize,
    pub role: Role,
    pub from: usize,
    pub parts: Vec<Part>,
}

/// The tokens of a part.
#[tactic(auto, using(crate::proofs::Slices::part_read))]
pub fn part_tokens(tokens: &[Token], part: Part) -> &[Token]
    ensures { result.now ≡ reading.tokens_of tokens.now part }
{
    let (_, behind) = tokens.split_at(part.from.min(tokens.len()));
    let (inside, _) = behind.split_at(part.to.saturating_sub(part.from).min(behind.len()));
    inside
}

/// What stands behind a part.
#[tactic(auto, using(crate::proofs::Slices::drop_within))]
pub fn behind_part(tokens: &[Token], part: Part) -> &[Token]
    ensures { result.now ≡ drop part.to tokens.now }
{
    let (_, behind) = tokens.split_at(part.to.min(tokens.len()));
    behind
}

fn passes(test: Test, depth: usize, text: &[u8]) -> bool
    ensures { result ≡ reading.passes test depth text.now }
{
    match test {
        Test::Any => true,
        Test::Outside => depth == 0,
        Test::Plain => !is_punctuation(text),
        Test::Run => !is_punctuation(text) && !is_quoted(text),
        Test::Precedence => is_precedence(text),
        Test::Text => is_whole_string(text),
        Test::Digits => are_digits(text),
    }
}

fn meets(depth: usize, text: &[u8], row: &Row) -> bool
    ensures { result ≡ reading.meets depth text.now (seen_row row.now) }
{
    (row.word.is_empty() || text == row.word) && passes(row.test, depth, text)
}

// The first row that a token with this text meets.
fn row_for(depth: usize, text: &[u8], rows: &[Row]) -> Option<Row>
    ensures { option_map seen_row result ≡ reading.row_for depth text.now (map seen_row rows.now) }
{
    let mut rest = rows;
    while let [row, after @ ..] = rest {
        if meets(depth, text, row) {
            return Some(*row);
        }
        rest = after;
    }
    None
}

// Whether the tokens may be a part.
fn is_fine(want: Want, role: Role, tokens: &[Token]) -> bool
    ensures { result ≡ reading.is_fine want role tokens.now }
{
    match want {
        Want::Nothing => true,
        Want::Names => is_name(tokens),
        Want::Marks(arity) => !is_gather(role) || has_marks(arity, tokens),
    }
}

fn is_gather(role: Role) -> bool
    ensures { result ≡ reading.is_gather role }
{
    match role {
        Role::Gather => true,
        Role::Words
        | Role::Sort(_)
        | Role::Silent
        | Role::Config
        | Role::Precedence
        | Role::Assoc
        | Role::Comm
        | Role::Identity
        | Role::Frozen
        | Role::Nonexec
        | Role::Owise => false,
    }
}

fn has_marks(arity: usize, tokens: &[Token]) -> bool
    ensures { result ≡ reading.has_marks arity tokens.now }
{
    arity != 0 && tokens.len() == arity && are_marks(tokens)
}

impl State {
    // Closes a part.
    fn close(&mut self, tokens: &[Token], want: Want, part: Part) -> Read<()>
        ensures state { IfOk result (λ r.
            reading.seen_outcome r self.new ≡ reading.closed tokens.now want part (reading.seen_state self.old)) }
        ensures depth { OnOk result (self.new.depth ≡ self.old.depth) }
    {
        if !is_fine(want, part.role, part_tokens(tokens, part)) {
            return Ok(Err(Wrong::Bad));
        }
        self.parts.push(part)?;
        self.from = part.to;
        Ok(Ok(()))
    }

    // Closes the open part in front of the token at number i.
    fn close_open(&mut self, tokens: &[Token], want: Want, i: usize) -> Read<()>
        ensures state { IfOk result (λ r.
            reading.seen_outcome r self.new ≡ reading.closed_open tokens.now want i (reading.seen_state self.old)) }
        ensures depth { OnOk result (self.new.depth ≡ self.old.depth) }
    {
        let part = Part {
            role: self.role,
            from: self.from,
            to: i,
        };
        self.close(tokens, want, part)
    }

    // Opens a part behind the token at number i.
    fn begin(&mut self, role: Role, i: usize, tokens: &[Token])
        requires { i < length tokens.now }
        ensures { reading.seen_state self.new ≡ reading.opened role i (reading.seen_state self.old) }
    {
        self.role = role;
        self.from = i + 1;
    }

    // Takes the token at number i.
    fn take(&mut self, tokens: &[Token], want: Want, act: Act, i: usize) -> Read<()>
        requires number { i < length tokens.now }
        requires levels { self.old.depth ≤ i }
        ensures state { IfOk result (λ r.
            reading.seen_outcome r self.new ≡ reading.taken tokens.now want act i (reading.seen_state self.old)) }
        ensures depth { OnOk result (self.new.depth ≤ self.old.depth + 1) }
    {
        match act {
            Act::Skip => Ok(Ok(())),
            Act::Deeper => {
                self.depth += 1;
                Ok(Ok(()))
            }
            Act::Shallower => {
                self.depth = self.depth.saturating_sub(1);
                Ok(Ok(()))
            }
            Act::Close => self.close_open(tokens, want, i),
            Act::After(role) => {
                self.begin(role, i, tokens);
                Ok(Ok(()))
            }
            Act::Next(role) => {
                let closed = self.close_open(tokens, want, i)?;
                self.begin(role, i, tokens);
                Ok(closed)
            }
            Act::One(role) => {
                let part = Part {
                    role,
                    from: i,
                    to: i + 1,
                };
                self.close(tokens, want, part)
            }
        }
    }

    // Goes on by the row of the token at number i.
    fn step(&mut self, tokens: &[Token], want: Want, i: usize, token: &Token) -> Read<()>
        requires number { i < length tokens.now }
        requires levels { self.old.depth ≤ i }
        ensures state { IfOk result (λ r.
            reading.seen_outcome r self.new
            ≡ reading.stepped tokens.now want i token.now (reading.seen_state self.old)) }
        ensures depth { OnOk result (self.new.depth ≤ self.old.depth + 1) }
    {
        let Some(row) = row_for(self.depth, token.text.as_slice(), entry_of(self.place).rows) else {
            return Ok(Err(Wrong::Bad));
        };
        if let Err(wrong) = self.take(tokens, want, row.act, i)? {
            return Ok(Err(wrong));
        }
        match row.next {
            Ok(place) => {
                self.place = place;
                Ok(Ok(()))
            }
            Err(wrong) => Ok(Err(wrong)),
        }
    }

    // Ends behind the last token.
    fn end(&mut self, tokens: &[Token], want: Want) -> Read<()>
        ensures { IfOk result (λ r.
            reading.seen_ended r self.new
            ≡ reading.ended tokens.now want (spec.entry self.old.place).end (reading.seen_state self.old)) }
    {
        match entry_of(self.place).end {
            End::Never => Ok(Err(Wrong::Bad)),
            End::Free => Ok(Ok(())),
            End::Closes => self.close_open(tokens, want, tokens.len()),
        }
    }
}

/// The parts of a piece that begins at this place, where a part of this role is open, or what is wrong.
pub fn read(
    alloc: Global,
    place: Place,
    role: Role,
    want: Want,
    tokens: &[Token],
) -> Read<Vec<Part>>
    ensures { IfOk result (λ r. reading.seen_parts r ≡ reading.read_at place role want tokens.now) }
{
    let mut state = State {
        place,
        depth: 0,
        role,
        from: 0,
        parts: Vec::new(alloc),
    };
    let mut rest = tokens;
    let mut i = 0;
    while let [token, after @ ..] = rest {
        if let Err(wrong) = state.step(tokens, want, i, token)? {
            return Ok(Err(wrong));
        }
        i += 1;
        rest = after;
    }
    match state.end(tokens, want)? {
        Ok(()) => Ok(Ok(state.parts)),
        Err(wrong) => Ok(Err(wrong)),
    }
}

/// The tokens of each part.
pub fn lists_of<'s>(
    alloc: Global,
    tokens: &'s [Token],
    parts: &[Part],
) -> Result<Vec<&'s [Token]>, AllocError>
    ensures { IfOk result (λ v. seen_lists v.items ≡ reading.lists_of tokens.now parts.now) }
{
    let mut lists = Vec::new(alloc);
    let mut rest = parts;
    while let [part, after @ ..] = rest {
        lists.push(part_tokens(tokens, *part))?;
        rest = after;
    }
    Ok(lists)
}

// The tokens of the first two parts.
fn halves<'s>(tokens: &'s [Token], parts: &[Part]) -> Option<(&'s [Token], &'s [Token])>
    ensures { option_map seen_halves result ≡ reading.halves tokens.now parts.now }
{
    match parts {
        [first, second, ..] => Some((part_tokens(tokens, *first), part_tokens(tokens, *second))),
        _ => None,
    }
}

/// The two parts of a piece that begins at this place, or none where it isn't of the form.
pub fn divided_at<'s>(
    alloc: Global,
    place: Place,
    tokens: &'s [Token],
) -> Result<Option<(&'s [Token], &'s [Token])>, AllocError>
    ensures { IfOk result (λ o. option_map seen_halves o ≡ reading.divided_at place tokens.now) }
{
    match read(alloc, place, Role::Words, Want::Nothing, tokens)? {
        Ok(parts) => Ok(halves(tokens, parts.as_slice())),
        Err(_) => Ok(None),
    }
}

/// The first token of the first part.
pub fn first_token<'s>(tokens: &'s [Token], parts: &[Part]) -> Option<&'s Token>
    ensures { option_map (λ t. t.now) result ≡ reading.first_token tokens.now parts.now }
{
    match parts {
        [part, ..] => part_tokens(tokens, *part).first(),
        [] => None,
    }
}

/// The law that parts stand one after the other, and are such as is wanted.
pub fn parts_ascend()
    ensures { PartsAscend }
{}
