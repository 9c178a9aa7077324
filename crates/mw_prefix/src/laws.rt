// What forms tell.
ghost use Rattle.mw_prefix.specs.Forms.{FormsTell, CanonicalHasForm};

/// The law that tokens are the numbered prefix form of one term alone.
pub fn forms_tell()
    ensures { FormsTell }
{}

/// The law that what is written of a canonical ground term is the form of that term.
pub fn canonical_has_form()
    ensures { CanonicalHasForm }
{}
