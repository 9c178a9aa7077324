// Laws of surveys, which contracts above can name.
ghost use Rattle.std.specs.Prelude.{◌≡◌, ◌<◌, ◌++◌, ℕ, List, length, IsPermutation};
ghost use Rattle.mw_logic.specs.Term.{RawTerm};
ghost use Rattle.mw_logic.specs.Signature.{Member};
ghost use Rattle.mw_logic.specs.Module.{Module};
ghost use Rattle.mw_least.specs.Workable.{IsWorkable};
ghost use Rattle.mw_index.specs.declared.index.Rule.{Rule as RuleOf};
ghost use Rattle.mw_world.specs.World.{Claim, Try, World, IsClaim};
ghost use Rattle.mw_world.specs.Events.{Claims};
ghost use Rattle.mw_multiset.specs.Together.{IsOfMultisets};
ghost use Rattle.mw_survey.specs.Surveys.{IsExhausted};
ghost use Rattle.mw_survey.specs.Runs.{Survey as SurveyOf, begun, Steps, IsOf, IsUsedUp, IsGood};
ghost use Rattle.mw_survey.specs.Asked.{IsSurveyOf};
ghost use Rattle.mw_survey.specs.Takings.{IsTakenBy, IsClaimOf};
ghost use Rattle.mw_survey.specs.declared.survey.Survey.{Survey as SurveyHeld};
ghost use Rattle.mw_survey.specs.declared.taking.Taken.{Taken as TakenHeld};

/// A survey that began at some state, and is used up at a later one while no element came, leaves nothing to claim,
/// whatever claims, receipts and releases there were between.
pub fn nothing_left()
    ensures { (w v : World) (r : SurveyOf) → IsGood w → Steps w (begun w.free) v r → IsUsedUp r → IsExhausted v.over v.operator v.tries v.free }
{}

/// A claim keeps what a survey says of its pool.
pub fn claims_keep()
    ensures { (w v : World) (c : Claim) (s : SurveyOf) → Claims w v c → IsOf s w → IsOf s v }
{}

/// The same of a survey as it is held: elements go, and tries come.
pub fn survey_kept()
    ensures { (M : Module) (f : ℕ) (rules : List RuleOf) (tries more_tries : List Try) (free taken less : List RawTerm) → ((t : Try) → Member t tries → Member t more_tries) → IsPermutation free (taken ++ less)
        → (s : SurveyHeld) → IsSurveyOf M f rules tries free s → IsSurveyOf M f rules more_tries less s }
{}

/// One as it is held that is used up leaves nothing to claim.
pub fn survey_exhausted()
    ensures { (M : Module) → IsWorkable M → (f : ℕ) → IsOfMultisets M f → (rules : List RuleOf) (tries : List Try) (free : List RawTerm) (s : SurveyHeld)
        → IsSurveyOf M f rules tries free s → length s.all.items < s.at → IsExhausted M f tries free }
{}

/// What a survey lets be taken is a claim of the pool.
pub fn is_claim()
    ensures { (w : World) → IsWorkable w.over → (s : SurveyHeld) (t : TakenHeld) → IsTakenBy w.over w.operator s t
        → (c : Claim) → IsClaimOf w t c → IsClaim w c }
{}

/// Where a claim is made, something was left to claim.
pub fn not_nothing()
    ensures { (w v : World) (c : Claim) → IsGood w → Claims w v c → IsExhausted w.over w.operator w.tries w.free → ⊥ }
{}
