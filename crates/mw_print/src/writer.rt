// A text to which tokens are written one after another.
ghost use Rattle.std.specs.Prelude.{◌≡◌, ◌∷◌, ◌++◌, List, [], codes, decimal, if◌then◌else◌, OnOk};
ghost use Rattle.mw_print.specs.Tokens as tokens;
ghost use Rattle.mw_print.specs.Tokens.{Token, opening, comma, spaced};
ghost use Rattle.mw_print.specs.declared.writer.End.TheVariants.{Apart, Plain};
ghost use Rattle.mw_print.specs.Writing as writing;
ghost use Rattle.mw_print.specs.Writing.{written, Writes};

use std::alloc::{AllocError, Global};

/// How a text ends, as it matters to the token behind it.
#[derive(Clone, Copy)]
pub enum End {
    /// It has no token.
    Empty,
    /// In `(`, `[` or `{`.
    Opened,
    /// In a token behind which a space always stands.
    Apart,
    Plain,
}

/// A text, to which tokens are written.
#[derive(Drop)]
pub struct Writer {
    text: Vec<u8>,
    end: End,
}

fn opens(token: &[u8]) -> bool
    ensures { result ≡ tokens.opens token.now }
{
    match token {
        [byte] => *byte == b'(' || *byte == b'[' || *byte == b'{',
        _ => false,
    }
}

fn closes(token: &[u8]) -> bool
    ensures { result ≡ tokens.closes token.now }
{
    match token {
        [byte] => *byte == b',' || *byte == b')' || *byte == b']' || *byte == b'}',
        _ => false,
    }
}

pub fn ends_in_backquote(token: &[u8]) -> bool
    ensures { result ≡ tokens.ends_in_backquote token.now }
{
    match token {
        [.., last] => *last == b'`',
        [] => false,
    }
}

/// How a text ends whose last token this is.
fn end_of(token: &[u8]) -> End
    ensures { result ≡ writing.end_of (tokens.token token.now) }
{
    if ends_in_backquote(token) {
        End::Apart
    } else if opens(token) {
        End::Opened
    } else {
        End::Plain
    }
}

/// How a text ends whose last token is longer than a byte and ends in this name.
fn end_of_name(name: &[u8]) -> End
    ensures { result ≡ (if tokens.ends_in_backquote name.now then Apart else Plain) }
{
    if ends_in_backquote(name) {
        End::Apart
    } else {
        End::Plain
    }
}

/// Writes a number in decimal behind a text.
pub fn push_decimal(number: u128, text: &mut Vec<u8>) -> Result<(), AllocError>
    ensures { OnOk result (text.new.items ≡ text.old.items ++ decimal number) }
{
    if number < 10 {
        text.push(b'0' + number as u8)?;
        return Ok(());
    }
    push_decimal(number / 10, text)?;
    text.push(b'0' + (number % 10) as u8)?;
    Ok(())
}

impl Writer {
    /// A text without tokens.
    pub fn new(alloc: Global) -> Writer
        ensures { (ts : List Token) → written result ts ≡ spaced ts }
    {
        Writer {
            text: Vec::new(alloc),
            end: End::Empty,
        }
    }

    /// A text, behind which tokens are to stand as in one that has none.
    pub fn behind(text: Vec<u8>) -> Writer
        ensures { (ts : List Token) → written result ts ≡ text.items ++ spaced ts }
    {
        Writer {
            text,
            end: End::Empty,
        }
    }

    /// Writes the space before a token, where there is one; `near` tells whether it may stand right behind the one
    /// before it.
    fn space(&mut self, near: bool) -> Result<(), AllocError>
        ensures { OnOk result (self.new.text.items ≡ self.old.text.items ++ writing.space self.old.end near) }
    {
        match self.end {
            End::Empty | End::Opened => Ok(()),
            End::Plain if near => Ok(()),
            _ => {
                self.text.push(b' ')?;
                Ok(())
            }
        }
    }

    /// Writes a token.
    pub fn token(&mut self, token: &[u8]) -> Result<(), AllocError>
        ensures { OnOk result (Writes self.old self.new (tokens.token token.now ∷ [])) }
    {
        self.space(closes(token))?;
        self.text.extend_from_slice(token)?;
        self.end = end_of(token);
        Ok(())
    }

    /// Writes a number in decimal.
    pub fn numeral(&mut self, number: u128) -> Result<(), AllocError>
        ensures { OnOk result (Writes self.old self.new (tokens.token (decimal number) ∷ [])) }
    {
        self.space(false)?;
        push_decimal(number, &mut self.text)?;
        self.end = End::Plain;
        Ok(())
    }

    /// Writes a number in decimal, `@` and a name, as one token.
    pub fn numbered(&mut self, number: u32, name: &[u8]) -> Result<(), AllocError>
        ensures { OnOk result
            (Writes self.old self.new (tokens.token (decimal number ++ codes "@" ++ name.now) ∷ [])) }
    {
        self.space(false)?;
        push_decimal(number as u128, &mut self.text)?;
        self.text.push(b'@')?;
        self.text.extend_from_slice(name)?;
        self.end = end_of_name(name);
        Ok(())
    }

    /// Writes the parenthesis of a prefix form.
    pub fn open(&mut self) -> Result<(), AllocError>
        ensures { OnOk result (Writes self.old self.new (opening ∷ [])) }
    {
        self.space(true)?;
        self.text.push(b'(')?;
        self.end = End::Opened;
        Ok(())
    }

    /// Writes the comma between two arguments of a prefix form.
    pub fn comma(&mut self) -> Result<(), AllocError>
        ensures { OnOk result (Writes self.old self.new (comma ∷ [])) }
    {
        self.space(true)?;
        self.text.push(b',')?;
        self.end = End::Apart;
        Ok(())
    }

    /// The text. It takes no memory.
    pub fn into_text(self) -> Vec<u8>
        ensures { result.items ≡ written self [] }
    {
        let Writer { text, end: _ } = self;
        text
    }
}
