// A search with the match at hand.
ghost use Rattle.std.specs.Prelude.{◌≡◌, ◌∷◌, [], false, true, map, flat_map, option_to_list, IfOk, OnOk, OnErr, MatchOption, ⊤};
ghost use Rattle.mw_search.specs.Lacking.{Skips};
ghost use Rattle.mw_search.specs.Searches.{FitsSorts as FitsBySearch};
ghost use Rattle.mw_match.specs.Solutions.{PassesTo, LacksBySearch, candidate, matches_of};
ghost use Rattle.mw_match.specs.Parts.{entries_at, entries_of, searches_behind};
ghost use Rattle.mw_match.specs.Hands.{IsKept, IsNext, HasBegun, ComesTo, coming_of};

use crate::parts::{Parts, Place};
use crate::solutions::Solution;
use mw_search::Search;
use mw_term::{Seq, Term};
use std::alloc::AllocError;

/// A search at a place, and the match that it has found. It stays until it is handed out, so for want of memory it
/// comes again.
#[derive(Drop)]
pub struct Hand<'c> {
    pub place: Place,
    pub search: Search<'c>,
    pub found: Option<Seq<Term>>,
}

/// Has a match at hand, if there is one.
pub fn find(search: &mut Search<'_>, found: &mut Option<Seq<Term>>) -> Result<(), AllocError>
    requires { MatchOption found.old ⊤ (FitsBySearch search.old) }
    ensures skips { Skips (LacksBySearch search.old) (matches_of found.old search.old.coming)
        (matches_of found.new search.new.coming) }
    ensures sorted { MatchOption found.new ⊤ (FitsBySearch search.old) }
    ensures none { OnOk result (MatchOption found.new (search.new.coming ≡ []) (λ _. ⊤)) }
    ensures same { search.new ≡ record search.old { coming = search.new.coming } }
{
    if found.is_none() {
        if let Some(values) = search.next()? {
            *found = Some(Seq::of(values));
        }
    }
    Ok(())
}

impl<'c> Hand<'c> {
    /// Hands out the solution that the match at hand is, if it is one.
    fn hand_out(&mut self, parts: &Parts<'c>) -> Result<Option<Solution>, AllocError>
        ensures solution { IfOk result (λ o. option_to_list o ≡ map (candidate parts.now.compiled.now.variables)
            (flat_map (entries_at parts.now self.old.place) (option_to_list self.old.found))) }
        ensures ok { OnOk result (self.new ≡ record self.old { found = None }) }
        ensures err { OnErr result (self.new ≡ self.old) }
    {
        let Some(values) = &self.found else {
            return Ok(None);
        };
        let made = parts.solution(self.place, values.as_slice())?;
        self.found = None;
        Ok(made)
    }

    /// Goes on with the next search, if there is one that may have matches.
    fn turn(&mut self, parts: &Parts<'c>) -> Result<bool, AllocError>
        ensures more { let behind = searches_behind parts.now in
            IfOk result (λ b. b ≡ true
            → ComesTo parts.now (behind self.old.place) ((self.new.place, self.new.search.coming) ∷ behind self.new.place)
            × HasBegun parts.now self.new.place self.new.search × (self.new.found ≡ self.old.found)) }
        ensures none { IfOk result (λ b. b ≡ false
            → (entries_of parts.now (searches_behind parts.now self.old.place) ≡ []) × (self.new ≡ self.old)) }
        ensures err { OnErr result (self.new ≡ self.old) }
    {
        let Some((place, search)) = parts.next_search(self.place)? else {
            return Ok(false);
        };
        self.place = place;
        self.search = search;
        Ok(true)
    }

    /// The next solution; none where there is none, and for ever after. Candidates that aren't solutions are passed
    /// over.
    pub fn next(&mut self, parts: &Parts<'c>) -> Result<Option<Solution>, AllocError>
        requires { IsKept parts.now self.old }
        ensures ok { IfOk result (IsNext (coming_of parts.now self.old) (coming_of parts.now self.new)) }
        ensures err { OnErr result (PassesTo (coming_of parts.now self.old) (coming_of parts.now self.new).candidates) }
        ensures same { coming_of parts.now self.new ≡
            record (coming_of parts.now self.old) { candidates = (coming_of parts.now self.new).candidates } }
        ensures kept { IsKept parts.now self.new }
    {
        loop {
            find(&mut self.search, &mut self.found)?;
            if self.found.is_some() {
                let made = self.hand_out(parts)?;
                if made.is_some() {
                    return Ok(made);
                }
            } else if !self.turn(parts)? {
                return Ok(None);
            }
        }
    }
}
