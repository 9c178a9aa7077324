// Terms that are asked about.
ghost use Rattle.std.specs.Prelude.{◌≡◌, IfOk};
ghost use Rattle.mw_logic.specs.Terms.{args_of, terms_of};
ghost use Rattle.mw_index.specs.Index.{operator_of};
ghost use Rattle.mw_index.specs.Choices.{subject_of};

use mw_match::copied;
use mw_term::{OpId, Term, View, copy};
use std::alloc::{AllocError, Global};

/// A canonical term, whole or as its operator with the arguments.
#[derive(Clone, Copy)]
pub enum Subject<'t> {
    Op(OpId, &'t [Term]),
    Term(&'t Term),
}

impl<'t> Subject<'t> {
    /// The operator on top, where there is one.
    #[inline(always)]
    pub fn operator(self) -> Option<OpId>
        ensures { result ≡ operator_of (subject_of self.entry) }
    {
        match self {
            Subject::Op(operator, _) => Some(operator),
            Subject::Term(term) => match term.view() {
                View::Op(operator, _) => Some(operator),
                _ => None,
            },
        }
    }

    /// Its arguments, none without an operator.
    #[inline(always)]
    pub fn args(self) -> &'t [Term]
        ensures { terms_of result.now ≡ args_of (subject_of self.entry) }
    {
        match self {
            Subject::Op(_, args) => args,
            Subject::Term(term) => match term.view() {
                View::Op(_, args) => args,
                _ => &[],
            },
        }
    }

    /// The whole term.
    pub fn term(self, alloc: Global) -> Result<Term, AllocError>
        ensures { IfOk result (λ t. t ≡ subject_of self.entry) }
    {
        match self {
            Subject::Op(operator, args) => {
                let args = copied(alloc, args)?;
                Term::apply(alloc, operator, args)
            }
            Subject::Term(term) => copy(term),
        }
    }
}
