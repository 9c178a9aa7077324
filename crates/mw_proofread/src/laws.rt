// Where tokens are no proof text, how numbers are spelled, and that what is written is read.
ghost use Rattle.mw_proofread.specs.Kept.{WrittenAreTexts};
ghost use Rattle.mw_proofread.specs.Lexing.{TextLexes};
ghost use Rattle.mw_proofread.specs.Numbers.{NumbersAreDecimal};
ghost use Rattle.mw_proofread.specs.Outside.{OutsideIsNoText, OutsideIsOne, TextsTell};

/// The law that tokens that leave the form in some part are no proof text.
pub fn outside_is_no_text()
    ensures { OutsideIsNoText }
{}

/// The law that they leave it in one part alone.
pub fn outside_is_one()
    ensures { OutsideIsOne }
{}

/// The law that tokens are the text of one list of items alone.
pub fn texts_tell()
    ensures { TextsTell }
{}

/// The law that what is written of items is cut into their tokens.
pub fn text_lexes()
    ensures { TextLexes }
{}

/// The law that numbers stand in a text as they are printed, as far as printing goes: up to 64 digits.
pub fn numbers_are_decimal()
    ensures { NumbersAreDecimal }
{}

/// The law that what is written of a kept deduction is a proof text.
pub fn written_are_texts()
    ensures { WrittenAreTexts }
{}
