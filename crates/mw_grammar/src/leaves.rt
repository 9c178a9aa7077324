// Tokens that are terms by themselves.
ghost use Rattle.std.specs.Prelude.{◌≡◌, ◌<◌, List, length, ◌↔◌, IfOk, OnOk, IsTrue};
ghost use Rattle.mw_logic.specs.Term.{Variable};
ghost use Rattle.mw_logic.specs.Signature.{Signature as SignatureOf};
ghost use Rattle.mw_text.specs.Mixfix.{IsVariableName, IsIdentifier};
ghost use Rattle.mw_grammar.specs.Readable.{kind_in};
ghost use Rattle.mw_grammar.specs.Compiled.{Extends};
ghost use Rattle.mw_grammar.specs.AloneTerms.{alone_term};
ghost use Rattle.mw_grammar.specs.Leaves.{IsWithSort, IsDivided, IsOfOne, IsLeaf};
ghost use Rattle.mw_grammar.specs.Leaves.{IsNumeralLeaf, IsIdentifierLeaf, IsVariableLeaf};
ghost use Rattle.mw_grammar.specs.Listing.{IsListed};
ghost use Rattle.mw_grammar.specs.Worded.{IsWord, AllDiffer, Adds};
ghost use Rattle.mw_grammar.specs.Grammars.{IsGrammarOf};

use crate::alone::{Alone, Leaves};
use crate::grammar::Grammar;
use crate::listing::list_of;
use mw_chart::{Leaf, Terminal};
use mw_lex::is_punctuation;
use mw_term::{KindId, SortId};
use mw_text::number;
use std::alloc::{AllocError, Global};

/// Whether it may be the name of a variable with its sort.
fn is_name(name: &[u8]) -> bool
    ensures { IsTrue result ↔ IsVariableName name.now }
{
    match name {
        [] => false,
        [byte] => !is_punctuation(*byte) && *byte != b'"',
        [byte, ..] => *byte != b'"',
    }
}

/// Whether it is a quoted identifier.
fn is_identifier(token: &[u8]) -> bool
    ensures { IsTrue result ↔ IsIdentifier token.now }
{
    match token {
        [byte, _, ..] => *byte == b'\'',
        _ => false,
    }
}

/// A leaf more, for a term of this kind.
fn push_leaf(
    leaves: &mut Leaves,
    found: &mut Vec<Leaf>,
    term: Alone,
    kind: KindId,
) -> Result<(), AllocError>
    ensures { OnOk result (Adds leaves.old leaves.new found.old.items found.new.items (IsLeaf (alone_term term) kind)) }
{
    let value = leaves.meet(term)?;
    let state = kind as usize;
    found.push(Leaf { state, value })?;
    Ok(())
}

impl Grammar {
    /// The numeral.
    fn push_number(
        &self,
        leaves: &mut Leaves,
        found: &mut Vec<Leaf>,
        token: &[u8],
    ) -> Result<(), AllocError>
        ensures { OnOk result (Adds leaves.old leaves.new found.old.items found.new.items
            (IsNumeralLeaf self.now.numbers token.now)) }
    {
        let Some(kind) = self.numbers else {
            return Ok(());
        };
        if let Some(number) = number(token) {
            push_leaf(leaves, found, Alone::Number(number), kind)?;
        }
        Ok(())
    }

    /// The quoted identifier.
    fn push_identifier(
        &self,
        alloc: Global,
        leaves: &mut Leaves,
        found: &mut Vec<Leaf>,
        token: &[u8],
    ) -> Result<(), AllocError>
        ensures { OnOk result (Adds leaves.old leaves.new found.old.items found.new.items
            (IsIdentifierLeaf self.now.identifiers token.now)) }
    {
        let Some(kind) = self.identifiers else {
            return Ok(());
        };
        if !is_identifier(token) {
            return Ok(());
        }
        let token = token.to_vec(alloc)?;
        push_leaf(leaves, found, Alone::Identifier(token), kind)?;
        Ok(())
    }

    /// The variable of this name and this sort.
    fn push_variable(
        &self,
        alloc: Global,
        leaves: &mut Leaves,
        found: &mut Vec<Leaf>,
        name: &[u8],
        sort: SortId,
    ) -> Result<(), AllocError>
        ensures { OnOk result (Adds leaves.old leaves.new found.old.items found.new.items
            (IsVariableLeaf (kind_in self.now.kinds) (λ x. x ≡ record { name = name.now; sort = sort }))) }
    {
        let name = name.to_vec(alloc)?;
        let kind = self.kind_of(sort);
        push_leaf(leaves, found, Alone::Variable { name, sort }, kind)?;
        Ok(())
    }

    /// The variables of this name, and of these sorts.
    fn push_sorts(
        &self,
        alloc: Global,
        sorts: &[SortId],
        leaves: &mut Leaves,
        found: &mut Vec<Leaf>,
        name: &[u8],
    ) -> Result<(), AllocError>
        ensures { OnOk result (Adds leaves.old leaves.new found.old.items found.new.items
            (IsVariableLeaf (kind_in self.now.kinds) (IsOfOne sorts.now name.now))) }
    {
        for sort in sorts {
            self.push_variable(alloc, leaves, found, name, *sort)?;
        }
        Ok(())
    }

    /// The variables with their sorts, where the colon stands at a place.
    fn push_divided(
        &self,
        alloc: Global,
        leaves: &mut Leaves,
        found: &mut Vec<Leaf>,
        token: &[u8],
        colon: usize,
    ) -> Result<(), AllocError>
        requires { colon < length token.now }
        ensures { OnOk result (Adds leaves.old leaves.new found.old.items found.new.items (IsVariableLeaf
            (kind_in self.now.kinds) (IsDivided (IsListed self.now.names self.now.named.items) token.now colon))) }
    {
        let name = &token[..colon];
        if token[colon] == b':' && is_name(name) {
            let number = self.names.number(&token[colon + 1..])?;
            self.push_sorts(alloc, list_of(&self.named, number), leaves, found, name)?;
        }
        Ok(())
    }

    /// The variables with their sorts.
    fn push_with_sorts(
        &self,
        alloc: Global,
        leaves: &mut Leaves,
        found: &mut Vec<Leaf>,
        token: &[u8],
    ) -> Result<(), AllocError>
        ensures { OnOk result (Adds leaves.old leaves.new found.old.items found.new.items (IsVariableLeaf
            (kind_in self.now.kinds) (IsWithSort (IsListed self.now.names self.now.named.items) token.now))) }
    {
        for colon in 0..token.len() {
            self.push_divided(alloc, leaves, found, token, colon)?;
        }
        Ok(())
    }

    /// The word of a token.
    pub(crate) fn word(
        &self,
        alloc: Global,
        leaves: &mut Leaves,
        token: &[u8],
    ) -> Result<Terminal, AllocError>
        ensures leaves { OnOk result (Extends leaves.old leaves.new) }
        ensures differ { OnOk result (AllDiffer leaves.old → AllDiffer leaves.new) }
        ensures word { (sig : SignatureOf) (variables : List Variable) → IsGrammarOf sig variables self.now
            → IfOk result (IsWord sig variables (kind_in self.now.kinds) self.now.names leaves.new token.now) }
    {
        let number = self.names.number(token)?;
        let mut found = Vec::new(alloc);
        self.push_number(leaves, &mut found, token)?;
        self.push_identifier(alloc, leaves, &mut found, token)?;
        let sorts = list_of(&self.declared, number);
        self.push_sorts(alloc, sorts, leaves, &mut found, token)?;
        self.push_with_sorts(alloc, leaves, &mut found, token)?;
        Ok(Terminal {
            token: number,
            leaves: found,
        })
    }
}
