// A text under way, move by move.
ghost use Rattle.std.specs.Prelude.{◌≡◌, ◌++◌, ◌≤◌, ℕ, suc, List, [], ◌∷◌, Bool, false, IfOk, OnOk, length, reverse};
ghost use Rattle.mw_logic.specs.Accepted.{IsAccepted};
ghost use Rattle.mw_logic.specs.Module.{Module};
ghost use Rattle.mw_logic.specs.Substitution.{Substitution};
ghost use Rattle.mw_logic.proofs.Canonical.{IsCanonical};
ghost use Rattle.mw_deduction.specs.Replay.{Stand, applies, meets, begun, into_argument, into_several, going_out};
ghost use Rattle.mw_deduction.specs.Replay.{showing, play, MayGoIn, MayGoAmong, MayApply, MayMeet, MayEnd, IsMove};
ghost use Rattle.mw_deduction.specs.Standing.{Open};
ghost use Rattle.mw_deduction.specs.Stands.{IsStanding, AreStanding};
ghost use Rattle.mw_trail.specs.Tracks.{move_of, needs, counts};
ghost use Rattle.mw_prooftext.specs.Told.{item_start, item_end};
ghost use Rattle.mw_prooftext.specs.Chains.{IsChain, AreChains, Goes, MayMove};
ghost use Rattle.mw_prooftext.specs.Chains.{moved, IsMadeSomewhere, IsAppliedSomewhere};

use crate::lines::{write_built, write_step};
use crate::values::right_side;
use mw_canon::Facts;
use mw_least::Ctx;
use mw_spot::Walk;
use mw_term::{Term, copy, numbered};
use mw_trail::Item;
use std::alloc::{AllocError, Global};

/// What stands before an item, on a line or in braces.
fn begin_item(outer: bool, text: &mut Vec<u8>) -> Result<(), AllocError>
    ensures { OnOk result (text.new.items ≡ text.old.items ++ item_start outer) }
{
    if outer {
        return Ok(());
    }
    text.push(b' ')?;
    Ok(())
}

/// What stands behind one: the groups that waited for it, and the line's end.
fn end_item(outer: bool, groups: &mut Vec<u8>, text: &mut Vec<u8>) -> Result<(), AllocError>
    ensures text { OnOk result (text.new.items ≡ text.old.items ++ item_end outer groups.old.items) }
    ensures groups { OnOk result (groups.new.items ≡ []) }
{
    if !groups.is_empty() {
        text.extend_from_slice(b" where")?;
        text.append(groups)?;
    }
    if outer {
        text.push(b'\n')?;
    }
    Ok(())
}

/// A proof under way, as it is told.
#[derive(Drop)]
pub struct Chain {
    /// Where it stands.
    walk: Walk,
    /// It is no side of a condition: each item is a line.
    outer: bool,
    /// What stands before its items, and these.
    text: Vec<u8>,
    /// The groups of the sides that wait for their statement.
    groups: Vec<u8>,
}

impl Chain {
    /// One that begins at this term, behind a text: the whole proof, or the side of a condition.
    pub fn new(alloc: Global, outer: bool, text: Vec<u8>, from: Term) -> Chain
        ensures outer { result.outer ≡ outer }
        ensures chain { (M : Module) (n : ℕ) → IsCanonical M.signature from
            → IsChain M text.items result (begun n from) }
    {
        Chain {
            walk: Walk::new(alloc, from),
            outer,
            text,
            groups: Vec::new(alloc),
        }
    }

    /// The text.
    pub fn into_text(self) -> Vec<u8>
        ensures { result ≡ self.text }
    {
        let Chain { text, .. } = self;
        text
    }

    /// Into an argument.
    fn enter(self, alloc: Global, number: u32) -> Result<Chain, AllocError>
        ensures { (M : Module) (S : Stand) → IsAccepted M.signature → IsStanding M S → MayGoIn M.signature number S.hand
            → IfOk result (Goes M S (into_argument M.signature number S.hand S) self) }
    {
        let mut chain = self;
        chain.walk.enter(alloc, number)?;
        Ok(chain)
    }

    /// Into several.
    fn among(self, alloc: Global, numbers: &[u32]) -> Result<Chain, AllocError>
        ensures { (M : Module) (S : Stand) → IsAccepted M.signature → IsStanding M S
            → MayGoAmong M.signature numbers.now S.hand
            → IfOk result (Goes M S (into_several M.signature numbers.now S.hand S) self) }
    {
        let mut chain = self;
        chain.walk.among(alloc, numbers)?;
        Ok(chain)
    }

    /// Out again.
    fn leave(self, alloc: Global, facts: &Facts) -> Result<Chain, AllocError>
        ensures { (M : Module) (S : Stand) (o : Open) (os : List Open) → M.signature ≡ facts.now → IsStanding M S
            → S.opens ≡ o ∷ os → IfOk result (Goes M S (going_out M.signature S.opens S) self) }
    {
        let mut chain = self;
        chain.walk.leave(alloc, facts)?;
        Ok(chain)
    }

    /// The statement of this number is applied to what is in hand, by these values.
    fn step(
        self,
        alloc: Global,
        context: &Ctx,
        number: u32,
        values: &[Term],
    ) -> Result<Chain, AllocError>
        requires { IsAppliedSomewhere context.now number values.now }
        ensures { (S : Stand) (r : Bool) (s : Substitution) → IsStanding context.now S
            → MayApply context.now number r s values.now S
            → IfOk result (Goes context.now S (moved context.now (applies number r s values.now) S) self) }
    {
        context.shows();
        let Some(statement) = numbered(context.statements(), number) else {
            return Ok(self);
        };
        let mut chain = self;
        let (signature, owise) = (context.signature(), statement.owise);
        let place = chain.walk.spot(alloc, context.facts())?;
        let term = right_side(alloc, context, statement, values)?;
        begin_item(chain.outer, &mut chain.text)?;
        write_step(
            alloc,
            signature,
            owise,
            number,
            &place,
            values,
            &mut chain.text,
        )?;
        end_item(chain.outer, &mut chain.groups, &mut chain.text)?;
        chain.walk.put(term);
        Ok(chain)
    }

    /// A row of the schemata is met by what is in hand, and this term comes of it.
    fn row(self, alloc: Global, context: &Ctx, term: &Term) -> Result<Chain, AllocError>
        ensures { (S : Stand) → IsStanding context.now S → MayMeet context.now term.now S
            → IfOk result (Goes context.now S (moved context.now (meets term.now) S) self) }
    {
        context.shows();
        let mut chain = self;
        let place = chain.walk.spot(alloc, context.facts())?;
        begin_item(chain.outer, &mut chain.text)?;
        write_built(&place, &mut chain.text)?;
        end_item(chain.outer, &mut chain.groups, &mut chain.text)?;
        chain.walk.put(copy(term)?);
        Ok(chain)
    }

    /// The side of a condition was told.
    fn with_side(self, side: Chain) -> Result<Chain, AllocError>
        ensures { (M : Module) (S Q : Stand) → MayEnd S → Q.rank ≡ suc S.rank → side.outer ≡ false
            → IsChain M [] side S
            → IfOk result (Goes M Q (showing M.signature S Q) self) }
    {
        let mut chain = self;
        let mut text = side.into_text();
        chain.groups.extend_from_slice(b" {")?;
        chain.groups.append(&mut text)?;
        chain.groups.extend_from_slice(b" }")?;
        Ok(chain)
    }
}

/// A move that doesn't go into a side of a condition or out of one.
fn tell_inside(
    alloc: Global,
    context: &Ctx,
    item: Item,
    values: &[Term],
    numbers: &[u32],
    chain: Chain,
) -> Result<Chain, AllocError>
    requires values { needs item ≤ length values.now }
    requires numbers { counts item ≤ length numbers.now }
    requires may { IsMadeSomewhere context.now (move_of context.now item values.now numbers.now) }
    ensures { (S : Stand) → IsStanding context.now S
        → MayMove context.now (move_of context.now item values.now numbers.now) S
        → IfOk result (Goes context.now S
        (moved context.now (move_of context.now item values.now numbers.now) S) chain) }
{
    context.shows();
    match item {
        Item::Into(number) => chain.enter(alloc, number),
        Item::Among(count) => chain.among(alloc, &numbers[..count as usize]),
        Item::Out => chain.leave(alloc, context.facts()),
        Item::Apply(count, number) => chain.step(alloc, context, number, &values[..count as usize]),
        Item::Row => chain.row(alloc, context, &values[0]),
        Item::Begin(_) | Item::End => Ok(chain),
    }
}

/// One more move is told, by the terms and numbers from its own on. The innermost chain stands last.
pub(crate) fn tell(
    alloc: Global,
    context: &Ctx,
    item: Item,
    values: &[Term],
    numbers: &[u32],
    chains: &mut Vec<Chain>,
) -> Result<(), AllocError>
    requires values { needs item ≤ length values.now }
    requires numbers { counts item ≤ length numbers.now }
    requires may { IsMadeSomewhere context.now (move_of context.now item values.now numbers.now) }
    ensures { (head : List ℕ) (B : List Stand) → AreStanding context.now B
        → IsMove context.now (move_of context.now item values.now numbers.now) B
        → AreChains context.now head (reverse chains.old.items) B
        → OnOk result (AreChains context.now head (reverse chains.new.items)
        (play context.now (move_of context.now item values.now numbers.now) B)) }
{
    let Some(chain) = chains.pop() else {
        return Ok(());
    };
    match item {
        Item::Begin(count) => {
            let from = copy(&values[count as usize])?;
            let side = Chain::new(alloc, false, Vec::new(alloc), from);
            chains.push(chain)?;
            chains.push(side)?;
        }
        Item::End => {
            let Some(below) = chains.pop() else {
                return Ok(());
            };
            let below = below.with_side(chain)?;
            chains.push(below)?;
        }
        Item::Into(_) | Item::Among(_) | Item::Out | Item::Apply(_, _) | Item::Row => {
            let chain = tell_inside(alloc, context, item, values, numbers, chain)?;
            chains.push(chain)?;
        }
    }
    Ok(())
}
