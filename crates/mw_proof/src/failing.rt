// Statements whose conditions fail.
ghost use Rattle.std.specs.Prelude.{◌≡◌};
ghost use Rattle.mw_proof.specs.Failures.{IsFailure};

use mw_least::Ctx;
use mw_term::Subst;
use std::marker::Model;

/// A statement, by its number, with values of its variables for which its condition fails. Its type keeps that it does.
#[derive(Drop)]
pub struct Failing<'m> {
    context: &'m Ctx,
    statement: usize,
    subst: Subst,
}

impl<'m> Model for Failing<'m> {
    ghost use Rattle.std.specs.Coded.{codes};
    ghost use Rattle.mw_logic.specs.TermCode.{coded_term, coded_variable};
    ghost use Rattle.mw_proof.specs.Failures.{Failure, IsFailure};

    ghost Value = { Failure };

    ghost coded = { Prim.hlevel (codes, coded_term, coded_variable) };

    ghost view = { λ f. record { over = f.context.now; statement = f.statement; subst = f.subst } };

    ghost invariant = { λ f. IsFailure (record { over = f.context.now; statement = f.statement; subst = f.subst }) };
}

impl<'m> Failing<'m> {
    pub fn of(context: &'m Ctx, statement: usize, subst: Subst) -> Failing<'m>
        requires { IsFailure (record { over = context.now; statement = statement; subst = subst }) }
        ensures { result ≡ record { over = context.now; statement = statement; subst = subst } }
    {
        Failing {
            context,
            statement,
            subst,
        }
    }

    /// The condition fails.
    pub fn shows(&self)
        ensures { IsFailure self.now }
    {
        let _ = &self.statement;
    }

    pub fn context(&self) -> &'m Ctx
        ensures { result.now ≡ self.now.over }
    {
        self.context
    }

    pub fn statement(&self) -> usize
        ensures { result ≡ self.now.statement }
    {
        self.statement
    }

    pub fn subst(&self) -> &Subst
        ensures { result.now ≡ self.now.subst }
    {
        &self.subst
    }
}
