// What is printed can be read.
ghost use Rattle.mw_print.specs.Laws.{PrintedReadsBack};
ghost use Rattle.mw_print.specs.PrefixLaws as prefix_laws;

/// The law that the text of a raw term, cut into tokens, spells the term.
pub fn printed_reads_back()
    ensures { PrintedReadsBack }
{}

/// The law that a name of tokens has a spelling that is one token with a number and `@` before it, where its pieces are
/// proper.
pub fn names_are_whole()
    ensures { prefix_laws.NamesAreWhole }
{}

/// The law that the text of a numbered prefix form is cut into the form's tokens, alone and before other bytes.
pub fn prefix_lexes()
    ensures alone { prefix_laws.PrefixLexes }
    ensures before { prefix_laws.PrefixLexesBefore }
{}

/// The law that the tokens of a numbered prefix form, and its text, are those of one term alone.
pub fn prefix_tells()
    ensures tokens { prefix_laws.PrefixTells }
    ensures text { prefix_laws.PrefixTextTells }
{}

/// The law that a numbered prefix form has one parenthesis fewer open at once than the term is deep.
pub fn prefix_is_shallow()
    ensures { prefix_laws.PrefixIsShallow }
{}

/// The law that canonical terms have numbered prefix forms that tell them.
pub fn canonical_is_told()
    ensures { prefix_laws.CanonicalIsTold }
{}
