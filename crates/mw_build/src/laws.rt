// What is printed of accepted modules reads back, and contexts hold them.
ghost use Rattle.mw_build.specs.Printing.{SpellingsAreWhole, StatementsArePrintable, TextsReadBack};
ghost use Rattle.mw_build.specs.Working.{AcceptedAreWorkable};

/// The law that the text of a raw term of an accepted module, cut into tokens, spells the term.
pub fn texts_read_back()
    ensures { TextsReadBack }
{}

/// The law that what a unit is accepted as is workable.
pub fn accepted_are_workable()
    ensures { AcceptedAreWorkable }
{}

/// The law that each operator of an accepted module is spelled as one token.
pub fn spellings_are_whole()
    ensures { SpellingsAreWhole }
{}

/// The law that the variables of an accepted module's statements can be printed.
pub fn statements_are_printable()
    ensures { StatementsArePrintable }
{}
