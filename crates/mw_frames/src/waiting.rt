// Jobs that wait for a frame.
ghost use Rattle.std.specs.Prelude.{◌≡◌, ◌+◌, ◌≤◌, ℕ, List, take, drop, length, true, false};
ghost use Rattle.std.specs.Prelude.{IsTrue, IsFalse, MatchOption, OnOk};
ghost use Rattle.mw_logic.specs.Term.{RawTerm, nil, cons};
ghost use Rattle.mw_logic.specs.Terms.{terms_of};
ghost use Rattle.mw_logic.specs.Signature.{Signature};
ghost use Rattle.mw_logic.specs.TermOrder.{stands_after, sorted_terms};
ghost use Rattle.mw_logic.proofs.Canonical.{Each};
ghost use Rattle.mw_frames.specs.Jobs.{term_of, rest, sizes, weight, weights};
ghost use Rattle.mw_frames.specs.State.{IsJob, IsAtHand, AreAtHand};
ghost use Rattle.mw_frames.specs.Arrivals.{Joins};

use crate::job::Job;
use mw_term::{Term, compare, copy};
use std::alloc::AllocError;

/// The term of a job, where it is at hand.
#[inline]
pub(crate) fn term_at<'t>(job: &'t Job<'_>) -> Option<&'t Term>
    ensures { MatchOption result (IsAtHand job.now → ⊥) (λ t. (sig : Signature) (vs : List RawTerm)
        → t.now ≡ term_of sig vs job.now) }
{
    match job {
        Job::Walk(term) | Job::Try(term) | Job::Normal(term) | Job::Built(term, _, _, _) => Some(
            term,
        ),
        Job::Made(_, _, _) => None,
    }
}

/// Whether a job's term, which is at hand, doesn't come behind another's.
fn stands_before(job: &Job<'_>, other: &Job<'_>) -> bool
    ensures before { IsTrue result → (sig : Signature) (vs : List RawTerm)
        → stands_after (term_of sig vs job.now) (term_of sig vs other.now) ≡ false }
    ensures behind { IsFalse result → IsAtHand job.now → IsAtHand other.now
        → (sig : Signature) (vs : List RawTerm)
        → stands_after (term_of sig vs job.now) (term_of sig vs other.now) ≡ true }
{
    match (term_at(job), term_at(other)) {
        (Some(own), Some(term)) => !compare(own, term).is_gt(),
        _ => false,
    }
}

/// Where a job belongs among those that wait from a place on, which are in order, the least last.
fn place_of_job(jobs: &[Job<'_>], waits: usize, job: &Job<'_>) -> usize
    ensures bound { result ≤ length jobs.now }
    ensures within { waits ≤ length jobs.now → waits ≤ result }
    ensures before { (sig : Signature) (vs : List RawTerm)
        → Each (λ u. stands_after u (term_of sig vs job.now) ≡ false) (rest sig vs (drop result jobs.now)) }
    ensures behind { (sig : Signature) (vs : List RawTerm)
        → AreAtHand (drop waits jobs.now) → IsAtHand job.now
        → sorted_terms (rest sig vs (drop waits jobs.now)) ≡ rest sig vs (drop waits jobs.now)
        → Each (λ u. stands_after u (term_of sig vs job.now) ≡ true)
        (rest sig vs (drop waits (take result jobs.now))) }
{
    let mut at = jobs.len();
    while at > waits {
        if !stands_before(&jobs[at - 1], job) {
            return at;
        }
        at -= 1;
    }
    at
}

/// A job comes to those that wait from a place on: in order among them, where they are kept in order, else in front of
/// them.
pub(crate) fn wait_job<'m>(
    comm: bool,
    jobs: &mut Vec<Job<'m>>,
    waits: usize,
    job: Job<'m>,
) -> Result<(), AllocError>
    ensures joins { (sig : Signature) (vs : List RawTerm)
        → IsAtHand job.entry
        → OnOk result (Joins sig vs comm waits (cons (term_of sig vs job.entry) nil)
        (λ M n. IsJob M n vs job.entry) jobs.old.items jobs.new.items) }
    ensures weight { (sig : Signature) (vs : List RawTerm)
        → OnOk result (weights sig vs jobs.new.items ≡ weights sig vs jobs.old.items + weight sig vs job.entry) }
{
    if comm {
        let at = place_of_job(jobs.as_slice(), waits, &job);
        jobs.insert(at, job)?;
        return Ok(());
    }
    jobs.push(job)?;
    Ok(())
}

/// Terms of which nothing is known come to those that wait, in order among them or in front of them.
pub(crate) fn wait_terms<'m>(
    comm: bool,
    jobs: &mut Vec<Job<'m>>,
    waits: usize,
    terms: &[Term],
) -> Result<(), AllocError>
    ensures joins { (sig : Signature) (vs : List RawTerm)
        → OnOk result (Joins sig vs comm waits (terms_of terms.now) (λ M n. Unit {0}) jobs.old.items jobs.new.items) }
    ensures weight { (sig : Signature) (vs : List RawTerm)
        → OnOk result (weights sig vs jobs.new.items ≡ weights sig vs jobs.old.items + sizes (terms_of terms.now)) }
{
    let mut left = terms.len();
    while left > 0 {
        left -= 1;
        let term = copy(&terms[left])?;
        wait_job(comm, jobs, waits, Job::Walk(term))?;
    }
    Ok(())
}
