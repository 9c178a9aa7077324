// The grammar of a signature, and the words of tokens.
ghost use Rattle.std.specs.Prelude.{◌≡◌, ℕ, List, IfOk, MatchOption};
ghost use Rattle.mw_chart.specs.Spelling.{IsTable};
ghost use Rattle.mw_logic.specs.Term.{Variable};
ghost use Rattle.mw_logic.specs.Signature.{Signature as SignatureOf, IsSortNamed};
ghost use Rattle.mw_poset.specs.SortOrder.{order_of};
ghost use Rattle.mw_grammar.specs.Readable.{kind_in, IsReadable, AreVariables};
ghost use Rattle.mw_grammar.specs.Grammars.{IsGrammarOf, IsReading, IsWordsOf, texts};
ghost use Rattle.mw_grammar.specs.Exact.{AreExact};

use crate::alone::Leaves;
use crate::compile::compile;
use crate::kinds::{kind_named, kind_of, kinds_of};
use crate::listing::{list_of, sorts_by_name, variables_by_name};
use mw_chart::{Table, Terminal};
use mw_lex::Token;
use mw_poset::Poset;
use mw_term::{KindId, Seq, Signature, SortId, VarId};
use mw_text::Names;
use std::alloc::{AllocError, Global};

/// The grammar of a signature, in which some variables are declared.
#[derive(Drop)]
pub struct Grammar {
    pub(crate) table: Table,
    pub(crate) kinds: Seq<KindId>,
    /// The texts of tokens, the names of variables, and those of sorts.
    pub(crate) names: Names,
    /// For the number of a name the sorts of the variables that are declared with it.
    pub(crate) declared: Vec<Vec<SortId>>,
    /// For the number of a name the sorts of this name.
    pub(crate) named: Vec<Vec<SortId>>,
    /// The kinds of numerals and of quoted identifiers, where there are any.
    pub(crate) numbers: Option<KindId>,
    pub(crate) identifiers: Option<KindId>,
}

/// The words of tokens, and the terms that their leaves are.
#[derive(Drop)]
pub struct Words {
    pub words: Vec<Terminal>,
    pub leaves: Leaves,
}

impl Grammar {
    /// The grammar of a signature, whose sorts have this order.
    pub fn of(
        alloc: Global,
        signature: &Signature,
        order: &Poset,
        variables: &[VarId],
    ) -> Result<Box<Grammar>, AllocError>
        requires order { order.now ≡ order_of signature.now }
        requires readable { IsReadable signature.now }
        requires variables { AreVariables signature.now variables.now }
        ensures grammar { IfOk result (λ g. IsGrammarOf signature.now variables.now g.value) }
        ensures reading { IfOk result (λ g. IsReading g.value) }
    {
        let kinds = kinds_of(alloc, signature, order)?;
        let mut names = Names::new(alloc)?;
        let named = sorts_by_name(alloc, &mut names, signature.sorts.as_slice())?;
        let (nat, qid) = (signature.nat, signature.qid);
        let numbers = kind_named(&names, &named, kinds.as_slice(), b"Nat", nat)?;
        let identifiers = kind_named(&names, &named, kinds.as_slice(), b"Qid", qid)?;
        let declared = variables_by_name(alloc, &mut names, variables)?;
        let table = compile(alloc, &mut names, signature, kinds.as_slice())?;
        let grammar = Grammar {
            table,
            kinds: Seq::of(kinds),
            names,
            declared,
            named,
            numbers,
            identifiers,
        };
        Ok(Box::new(alloc, grammar)?)
    }

    /// The table by which the chart reads.
    pub fn table(&self) -> &Table
        ensures { result.now ≡ self.now.table }
    {
        &self.table
    }

    /// The kind of a sort; the number itself, where it is no sort's.
    pub fn kind_of(&self, sort: SortId) -> KindId
        ensures { result ≡ kind_in self.now.kinds sort }
    {
        kind_of(self.kinds.as_slice(), sort)
    }

    /// A sort of this name, where there is one.
    pub fn sort_named(&self, name: &[u8]) -> Result<Option<SortId>, AllocError>
        ensures { (sig : SignatureOf) (variables : List Variable) → IsGrammarOf sig variables self.now → IfOk result
            (λ o. MatchOption o ((S : ℕ) → ¬ IsSortNamed sig S name.now) (λ S. IsSortNamed sig S name.now)) }
    {
        let number = self.names.number(name)?;
        match list_of(&self.named, number) {
            [sort, ..] => Ok(Some(*sort)),
            [] => Ok(None),
        }
    }

    /// The words of tokens.
    pub fn words(&self, alloc: Global, tokens: &[Token]) -> Result<Words, AllocError>
        ensures { (sig : SignatureOf) (variables : List Variable) → IsGrammarOf sig variables self.now
            → IfOk result (IsWordsOf sig variables self.now tokens.now) }
    {
        let mut leaves = Leaves::new(alloc)?;
        let mut words = Vec::new(alloc);
        for token in tokens {
            words.push(self.word(alloc, &mut leaves, token.text.as_slice())?)?;
        }
        Ok(Words { words, leaves })
    }
}

/// The trees over a grammar's table, of words that it gave, are the terms that the tokens spell.
pub fn trees_are_terms(
    signature: &Signature,
    variables: &[VarId],
    grammar: &Grammar,
    tokens: &[Token],
    words: &Words,
)
    requires grammar { IsGrammarOf signature.now variables.now grammar.now }
    requires words { IsWordsOf signature.now variables.now grammar.now tokens.now words.now }
    ensures { AreExact signature.now variables.now (kind_in grammar.now.kinds) grammar.now.table words.now.leaves (texts tokens.now) words.now.words.items }
{}
