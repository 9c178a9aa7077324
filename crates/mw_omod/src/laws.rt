// What completion keeps of a statement.
ghost use Rattle.mw_omod.specs.Laws.{CompletedOnce, IdentifiersStay, OnlyAdded, SidesStay, VariablesStayBound};

/// The law that the sides of a completed statement are terms of the signature of one kind, with sorts that are there.
pub fn sides_stay()
    ensures { SidesStay }
{}

/// The law that the variables of a statement stay bound where it is completed.
pub fn variables_stay_bound()
    ensures { VariablesStayBound }
{}

/// The law that a statement has one completion.
pub fn completed_once()
    ensures { CompletedOnce }
{}

/// The law that a completed statement has no variables but those of the statement and such as no text names.
pub fn only_added()
    ensures { OnlyAdded }
{}

/// The law that the quoted identifiers of a statement that is completed are tokens where they were.
pub fn identifiers_stay()
    ensures { IdentifiersStay }
{}
