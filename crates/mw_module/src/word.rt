// The words that a statement names.
ghost use Rattle.std.specs.Prelude.{◌≡◌, ◌++◌, map, IfOk, OnOk};
ghost use Rattle.mw_module.specs.Words.{texts, first_text, seen_lists};

use mw_lex::Token;
use mw_term::Seq;
use std::alloc::{AllocError, Global};
use std::marker::Model;

/// How the bytes of a word are held.
#[derive(Drop)]
enum HeldWord<'s> {
    Lent(&'s [u8]),
    Made(Vec<u8>),
}

/// A word: lent by a source, or by the program itself, or made. Contracts see its bytes.
#[derive(Drop)]
pub struct Word<'s> {
    held: HeldWord<'s>,
}

impl<'s> Model for Word<'s> {
    ghost use Rattle.std.specs.Prelude.{List, ℕ};
    ghost use Rattle.mw_module.specs.Held.{held_bytes};

    ghost Value = { List ℕ };

    ghost view = { λ w. held_bytes w.held };
}

impl<'s> Word<'s> {
    /// The word of these bytes, which stay where they are.
    pub fn lent(bytes: &'s [u8]) -> Word<'s>
        ensures { result ≡ bytes.entry.now }
    {
        let held = HeldWord::Lent(bytes);
        Word { held }
    }

    /// The word of these bytes, which it holds.
    pub fn made(bytes: Vec<u8>) -> Word<'s>
        ensures { result ≡ bytes.items }
    {
        let held = HeldWord::Made(bytes);
        Word { held }
    }

    /// Its bytes.
    pub fn as_slice(&self) -> &[u8]
        ensures { result.now ≡ self.now }
    {
        match &self.held {
            HeldWord::Lent(bytes) => bytes,
            HeldWord::Made(bytes) => bytes.as_slice(),
        }
    }

    /// The same word again: lent where this one is.
    pub fn again(&self, alloc: Global) -> Result<Word<'s>, AllocError>
        ensures { IfOk result (λ w. w ≡ self.now) }
    {
        match &self.held {
            HeldWord::Lent(bytes) => Ok(Word::lent(bytes)),
            HeldWord::Made(bytes) => Ok(Word::made(bytes.as_slice().to_vec(alloc)?)),
        }
    }
}

/// Adds the words that tokens are behind others.
pub fn add_words<'s>(words: &mut Vec<Word<'s>>, tokens: &'s [Token]) -> Result<(), AllocError>
    ensures { OnOk result (words.new.items ≡ words.old.items ++ texts tokens.now) }
{
    for token in tokens {
        words.push(Word::lent(token.text.as_slice()))?;
    }
    Ok(())
}

/// The words that tokens are.
pub fn words_of<'s>(alloc: Global, tokens: &'s [Token]) -> Result<Seq<Word<'s>>, AllocError>
    ensures { IfOk result (λ words. words ≡ texts tokens.now) }
{
    let mut words = Vec::with_capacity(alloc, tokens.len())?;
    add_words(&mut words, tokens)?;
    Ok(Seq::of(words))
}

/// The words of each of these lists of tokens.
pub fn lists_of_words<'s>(
    alloc: Global,
    lists: &[&'s [Token]],
) -> Result<Seq<Seq<Word<'s>>>, AllocError>
    ensures { IfOk result (λ words. words ≡ map texts (seen_lists lists.now)) }
{
    let mut words = Vec::with_capacity(alloc, lists.len())?;
    for tokens in lists {
        words.push(words_of(alloc, tokens)?)?;
    }
    Ok(Seq::of(words))
}

/// The word that the first token is.
pub fn first_word<'s>(tokens: &'s [Token]) -> Option<Word<'s>>
    ensures { result ≡ first_text tokens.now }
{
    match tokens {
        [token, ..] => Some(Word::lent(token.text.as_slice())),
        [] => None,
    }
}

/// Adds words once more behind others.
pub fn add_again<'s>(
    alloc: Global,
    words: &mut Vec<Word<'s>>,
    others: &[Word<'s>],
) -> Result<(), AllocError>
    ensures { OnOk result (words.new.items ≡ words.old.items ++ others.now) }
{
    for word in others {
        words.push(word.again(alloc)?)?;
    }
    Ok(())
}

/// The words once more.
pub fn words_again<'s>(alloc: Global, words: &[Word<'s>]) -> Result<Seq<Word<'s>>, AllocError>
    ensures { IfOk result (λ again. again ≡ words.now) }
{
    let mut again = Vec::with_capacity(alloc, words.len())?;
    add_again(alloc, &mut again, words)?;
    Ok(Seq::of(again))
}
