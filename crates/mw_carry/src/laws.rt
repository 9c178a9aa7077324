// What holds of carried terms.
ghost use Rattle.mw_carry.specs.Laws.{CarriedTermsStay, CarriedOnce};

/// The law that carried terms are raw terms of the same kinds.
pub fn carried_terms_stay()
    ensures { CarriedTermsStay }
{}

/// The law that no two terms stand for one.
pub fn carried_once()
    ensures { CarriedOnce }
{}
