// The words of records: single spaces stand between them, and each record has a line of its own.
use mw_print::push_decimal;
use mw_term::{OpId, Raw, Signature, Sorted, Statement, VarId, number_at, numbered};
use std::alloc::{AllocError, Global};

/// Records of a module with this signature, behind a text.
#[derive(Drop)]
pub struct Records<'m> {
    pub signature: &'m Signature,
    text: Vec<u8>,
}

/// The spelling of the operator of a number.
fn spelling(signature: &Signature, number: OpId) -> &[u8] {
    match numbered(signature.operators.as_slice(), number) {
        Some(operator) => operator.spelling.as_slice(),
        None => &[],
    }
}

impl<'m> Records<'m> {
    pub fn behind(text: Vec<u8>, signature: &'m Signature) -> Records<'m> {
        Records { signature, text }
    }

    pub fn into_text(self) -> Vec<u8> {
        let Records { signature: _, text } = self;
        text
    }

    /// Begins a record, in a line of its own.
    pub fn begin(&mut self, word: &str) -> Result<(), AllocError> {
        if !self.text.is_empty() {
            self.text.push(b'\n')?;
        }
        self.text.extend_from_slice(word.as_bytes())
    }

    /// Begins one that belongs to the operator or the statement above it.
    pub fn begin_below(&mut self, word: &str) -> Result<(), AllocError> {
        self.begin("  ")?;
        self.text.extend_from_slice(word.as_bytes())
    }

    pub fn word(&mut self, word: &[u8]) -> Result<(), AllocError> {
        self.text.push(b' ')?;
        self.text.extend_from_slice(word)
    }

    /// Writes the name of a variable. Of one that a completed rule has a blank stands in it, and none is written.
    pub fn name(&mut self, name: &[u8]) -> Result<(), AllocError> {
        for byte in name {
            if *byte != b' ' {
                self.text.push(*byte)?;
            }
        }
        Ok(())
    }

    pub fn number(&mut self, number: u32) -> Result<(), AllocError> {
        self.numeral(u128::from(number))
    }

    /// Writes the number of what stands at an index.
    pub fn place(&mut self, index: usize) -> Result<(), AllocError> {
        self.number(number_at(index)?)
    }

    /// Writes the number of a sort, 0 for a kind.
    pub fn sorted(&mut self, sorted: Sorted) -> Result<(), AllocError> {
        match sorted {
            Sorted::Sort(sort) => self.number(sort),
            Sorted::Kind(_) => self.number(0),
        }
    }

    pub fn numeral(&mut self, number: u128) -> Result<(), AllocError> {
        self.text.push(b' ')?;
        push_decimal(number, &mut self.text)
    }

    pub fn constant(&mut self, constant: OpId) -> Result<(), AllocError> {
        self.text.push(b' ')?;
        self.operator(constant)
    }

    /// Writes a term of a statement, as it was read.
    pub fn term(&mut self, statement: &Statement, term: &Raw) -> Result<(), AllocError> {
        self.text.push(b' ')?;
        self.form(statement, term)
    }

    /// Writes an operator's number, `@` and its spelling.
    fn operator(&mut self, number: OpId) -> Result<(), AllocError> {
        push_decimal(u128::from(number), &mut self.text)?;
        self.text.push(b'@')?;
        self.text
            .extend_from_slice(spelling(self.signature, number))
    }

    /// Writes a variable's number in its statement, a colon and its name.
    fn variable(&mut self, statement: &Statement, variable: &VarId) -> Result<(), AllocError> {
        let name = variable.name.as_slice();
        for (index, other) in statement.variables.as_slice().iter().enumerate() {
            if other.name.as_slice() == name && other.sort == variable.sort {
                push_decimal(u128::from(number_at(index)?), &mut self.text)?;
                self.text.push(b':')?;
                return self.name(name);
            }
        }
        Ok(())
    }

    /// Writes a mark, and a space before it behind a backquote, with which it would be one token.
    fn mark(&mut self, mark: &str) -> Result<(), AllocError> {
        if let Some(b'`') = self.text.last() {
            self.text.push(b' ')?;
        }
        self.text.extend_from_slice(mark.as_bytes())
    }

    /// Writes the numbered prefix form of a term of a statement.
    fn form(&mut self, statement: &Statement, term: &Raw) -> Result<(), AllocError> {
        match term {
            Raw::Nat(number) => push_decimal(*number, &mut self.text),
            Raw::Qid(name) => self.text.extend_from_slice(name.as_slice()),
            Raw::Var(variable) => self.variable(statement, variable),
            Raw::Op(operator, args) => {
                self.operator(*operator)?;
                let mut rest = args.as_slice();
                if !rest.is_empty() {
                    self.mark("(")?;
                }
                while let [arg, after @ ..] = rest {
                    self.form(statement, arg)?;
                    self.mark(if after.is_empty() { ")" } else { ", " })?;
                    rest = after;
                }
                Ok(())
            }
        }
    }
}
