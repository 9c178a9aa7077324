// The operators of a module.
ghost use Rattle.std.specs.Prelude.{◌≡◌, ◌∷◌, List, [], map, length, Option, All, IfOk, IfErr, OnOk, Some, None, option_map};
ghost use Rattle.mw_logic.specs.Signature.{Identity as IdentityOf};
ghost use Rattle.mw_term.specs.Signatures.{sorted_of, identity_of};
ghost use Rattle.mw_module.specs.Attributes.{seen_attributes};
ghost use Rattle.mw_module.specs.Units.{seen_all};
ghost use Rattle.mw_module.specs.Causes.{HasCause};
ghost use Rattle.mw_declare.specs.Hierarchy.{Hierarchy as HierarchyOf};
ghost use Rattle.mw_declare.specs.Operators.{profile_of as profile_with, with_operator, with_named, operators_from};
ghost use Rattle.mw_declare.specs.Operators.{operator_number, identity_in, operator_with, IsOfLeastKinds, IsNumbered};
ghost use Rattle.mw_declare.specs.Operators.{choice_of, test_of, built_for, with_singles, with_kinds, with_built};
ghost use Rattle.mw_declare.specs.Operators.{identity_at as identity_with};
ghost use Rattle.mw_declare.specs.Built.{kinds_from};
ghost use Rattle.mw_declare.specs.Operators.{operator_of as operator_among};
ghost use Rattle.mw_declare.specs.Faults.{unknown_from, operator_fault, told_at};
ghost use Rattle.mw_declare.specs.Seen.{seen_rank, seen_profile, seen_operator, seen_said, said_again, said_once};

use crate::built::{Built, Truth};
use crate::each_kind::{
    choice_declaration, choice_profile, is_built, said_precedence, test_declaration, test_profile,
};
use crate::freezing::{counted, frozen_arguments};
use crate::grouping::{gather, precedence};
use crate::hierarchy::{Hierarchy, Rank};
use crate::judging::fault;
use crate::spelling::{spelling_of, spelling_of_text};
use indexmap::IndexMap;
use mw_module::{Attributes, Fault, Form, Stated, UnitError, Word};
use mw_term::{Declaration, Identity, KindId, Name, OpId, Operator, Seq, Sorted};
use mw_text::number;
use std::alloc::{AllocError, Global};
use std::marker::Model;

/// A name, by its prefix spelling, with the kinds of its arguments and of its result.
#[derive(PartialEq, Eq, Hash, Drop)]
pub struct Profile {
    pub spelling: Vec<u8>,
    pub args: Vec<KindId>,
    pub result: KindId,
}

/// The declarations of an operator, and what they say of it.
#[derive(Drop)]
pub struct Said<'s> {
    pub declarations: Vec<Declaration>,
    pub attributes: Attributes<'s>,
}

/// Adds a declaration to an operator's.
fn declare_again<'s>(
    alloc: Global,
    known: &mut Said<'s>,
    declaration: Declaration,
    attributes: &Attributes<'s>,
) -> Result<(), AllocError>
    ensures { OnOk result (seen_said known.new ≡ said_again (seen_said known.old) declaration (seen_attributes attributes.now)) }
{
    known.declarations.push(declaration)?;
    known.attributes.add(alloc, attributes)
}

/// The one declaration of an operator.
fn declared_once<'s>(
    alloc: Global,
    declaration: Declaration,
    attributes: &Attributes<'s>,
) -> Result<Said<'s>, AllocError>
    ensures { IfOk result (λ s. seen_said s ≡ said_once declaration (seen_attributes attributes.now)) }
{
    let declarations = vec![in alloc; declaration]?;
    let attributes = attributes.again(alloc)?;
    Ok(Said {
        declarations,
        attributes,
    })
}

/// The profile of the name of these words.
fn profile_of(alloc: Global, name: &[Word<'_>], rank: &Rank) -> Result<Profile, AllocError>
    ensures { IfOk result (λ p. seen_profile p ≡ profile_with name.now (seen_rank rank.now)) }
{
    Ok(Profile {
        spelling: spelling_of(alloc, name)?,
        args: rank.kinds.as_slice().to_vec(alloc)?,
        result: rank.kind,
    })
}

/// The declaration of these sorts.
fn declaration_of(alloc: Global, rank: &Rank) -> Result<Declaration, AllocError>
    ensures { IfOk result (λ d. d ≡ (seen_rank rank.now).declaration) }
{
    Ok(Declaration {
        args: Seq::of(rank.args.as_slice().to_vec(alloc)?),
        result: rank.result,
    })
}

/// Operators, each once with its declarations and what they say of it, in order of first mention.
#[derive(Drop)]
pub struct DeclaredOperators<'u> {
    table: Box<IndexMap<Profile, Said<'u>>>,
}

impl<'u> Model for DeclaredOperators<'u> {
    ghost use Rattle.std.specs.Prelude.{List, map};
    ghost use Rattle.mw_declare.specs.Operators.{Declared};

    ghost Value = { List Declared };

    ghost use Rattle.mw_declare.specs.Seen.{seen_operator};

    ghost view = { λ m. map seen_operator m.table.value.entries };
}

impl<'u> DeclaredOperators<'u> {
    fn new(alloc: Global) -> Result<DeclaredOperators<'u>, AllocError>
        ensures { IfOk result (λ operators. operators ≡ []) }
    {
        let table = Box::new(alloc, IndexMap::new(alloc))?;
        Ok(DeclaredOperators { table })
    }

    /// Adds an operator behind the others; if it is there, it is declared again.
    fn add(
        &mut self,
        alloc: Global,
        profile: Profile,
        declaration: Declaration,
        attributes: &Attributes<'u>,
    ) -> Result<(), AllocError>
        ensures { let said = seen_attributes attributes.now in
            OnOk result (self.new ≡ with_operator self.old (seen_profile profile) declaration said) }
    {
        let table = &mut *self.table;
        if let Some(known) = table.get_mut(&profile) {
            declare_again(alloc, known, declaration, attributes)?;
            return Ok(());
        }
        let said = declared_once(alloc, declaration, attributes)?;
        table.insert(profile, said)?;
        Ok(())
    }

    /// Adds an operator for each of these names.
    fn add_all(
        &mut self,
        alloc: Global,
        names: &[Seq<Word<'_>>],
        rank: &Rank,
        attributes: &Attributes<'u>,
    ) -> Result<(), AllocError>
        ensures { let said = seen_attributes attributes.now in
            OnOk result (self.new ≡ with_named self.old names.now (seen_rank rank.now) said) }
    {
        for name in names {
            let profile = profile_of(alloc, name.as_slice(), rank)?;
            let declaration = declaration_of(alloc, rank)?;
            self.add(alloc, profile, declaration, attributes)?;
        }
        Ok(())
    }

    /// Adds the choice between two terms of a kind.
    fn add_choice(&mut self, alloc: Global, truth: Truth, kind: KindId) -> Result<(), AllocError>
        ensures { let g = choice_of truth kind in
            OnOk result (self.new ≡ with_operator self.old g.profile g.declaration g.attributes) }
    {
        let profile = choice_profile(alloc, truth, kind)?;
        let declaration = choice_declaration(alloc, truth, kind)?;
        let said = said_precedence(alloc, 0);
        self.add(alloc, profile, declaration, &said)?;
        Ok(())
    }

    /// Adds the test of this name on two terms of a kind.
    fn add_test(
        &mut self,
        alloc: Global,
        truth: Truth,
        name: &[u8],
        kind: KindId,
    ) -> Result<(), AllocError>
        ensures { let g = test_of truth name.now kind in
            OnOk result (self.new ≡ with_operator self.old g.profile g.declaration g.attributes) }
    {
        let profile = test_profile(alloc, truth, name, kind)?;
        let declaration = test_declaration(alloc, truth, kind)?;
        let said = said_precedence(alloc, 51);
        self.add(alloc, profile, declaration, &said)?;
        Ok(())
    }

    /// Adds the operators that a kind has from the start.
    fn add_built(&mut self, alloc: Global, truth: Truth, kind: KindId) -> Result<(), AllocError>
        ensures { OnOk result (self.new ≡ with_singles self.old (built_for truth kind)) }
    {
        self.add_choice(alloc, truth, kind)?;
        self.add_test(alloc, truth, b"_==_", kind)?;
        self.add_test(alloc, truth, b"_=/=_", kind)?;
        Ok(())
    }

    /// Adds those of all kinds, kind by kind in the order of their least sorts.
    fn add_all_built(
        &mut self,
        alloc: Global,
        hierarchy: &Hierarchy,
        truth: Truth,
    ) -> Result<(), AllocError>
        ensures { let h = hierarchy.now in
            OnOk result (self.new ≡ with_kinds truth self.old (kinds_from h (length h.names) 1)) }
    {
        for place in 0..hierarchy.names.count()? {
            if hierarchy.names_kind(place + 1) {
                self.add_built(alloc, truth, place + 1)?;
            }
        }
        Ok(())
    }

    /// The number of an operator, from 1, or 0 where it isn't there. More operators than numbers can tell count as
    /// want of memory.
    fn number(&self, profile: &Profile) -> Result<OpId, AllocError>
        ensures { IfOk result (λ n. n ≡ operator_number self.now (seen_profile profile.now)) }
    {
        match self.table.get_index_of(profile) {
            None => Ok(0),
            Some(place) if place < u32::MAX as usize => Ok(place as u32 + 1),
            Some(_) => Err(AllocError),
        }
    }

    /// The identity of an operator.
    fn identity(
        &self,
        alloc: Global,
        built: Built,
        profile: &Profile,
        said: &Said<'_>,
    ) -> Result<Option<Identity>, AllocError>
        ensures { let o = seen_operator (profile.now, said.now) in
            IfOk result (λ i. option_map identity_of i ≡ identity_in built self.now o) }
    {
        let Some(word) = &said.attributes.identity else {
            return Ok(None);
        };
        let constant = Profile {
            spelling: spelling_of_text(alloc, word.as_slice())?,
            args: Vec::new(alloc),
            result: profile.result,
        };
        let number = self.number(&constant)?;
        Ok(Some(identity_at(number, built.nat, word.as_slice())))
    }

    /// The identities of the operators, where nothing is wrong with any; or else what is wrong with the first with
    /// which something is, at a line.
    pub fn identities(
        &self,
        alloc: Global,
        line: u32,
        built: Built,
    ) -> Result<Vec<Option<Identity>>, UnitError>
        ensures fine { (h : HierarchyOf) → IsNumbered h built → All (IsOfLeastKinds h) self.now
            → OnOk result (operator_fault built h self.now ≡ None) }
        ensures identities { IfOk result
            (λ v. map (option_map identity_of) v.items ≡ map (identity_in built self.now) self.now) }
        ensures fault { (h : HierarchyOf) → IsNumbered h built → All (IsOfLeastKinds h) self.now
            → IfErr result (HasCause (λ fault. told_at line (operator_fault built h self.now) ≡ Some fault)) }
    {
        let mut identities = Vec::new(alloc);
        for (profile, said) in self.table.iter() {
            let identity = self.identity(alloc, built, profile, said)?;
            if let Some(kind) = fault(alloc, built, profile, said, identity)? {
                return Err(UnitError::Fault(Fault { line, kind }));
            }
            identities.push(identity)?;
        }
        Ok(identities)
    }

    /// The operators in order, with these identities.
    pub fn list(
        self,
        alloc: Global,
        built: Built,
        identities: &[Option<Identity>],
    ) -> Result<Seq<Operator>, AllocError>
        requires { map (option_map identity_of) identities.now ≡ map (identity_in built self) self }
        ensures { IfOk result (λ os. os ≡ map (operator_among built self.entry) self.entry) }
    {
        let mut operators = Vec::new(alloc);
        let mut rest = identities;
        for (profile, said) in Box::into_inner(self.table) {
            let (identity, others) = first_of(rest);
            operators.push(operator_of(alloc, built.truth, profile, said, identity)?)?;
            rest = others;
        }
        Ok(Seq::of(operators))
    }
}

/// The operators that statements declare which mention no other sorts.
fn stated_operators<'s>(
    alloc: Global,
    hierarchy: &Hierarchy,
    statements: &[Stated<'_, 's>],
) -> Result<DeclaredOperators<'s>, AllocError>
    requires { unknown_from hierarchy.now.names (seen_all statements.now) ≡ None }
    ensures { IfOk result (λ os. os ≡ operators_from hierarchy.now [] (seen_all statements.now)) }
{
    let mut operators = DeclaredOperators::new(alloc)?;
    for statement in statements {
        if let Form::Operators {
            names,
            args,
            result: value,
            attributes,
        } = statement.form
        {
            let rank = hierarchy.rank(alloc, args.as_slice(), value)?;
            operators.add_all(alloc, names.as_slice(), &rank, attributes)?;
        }
    }
    Ok(operators)
}

/// The same, and those that each kind has where there are truth values.
pub fn all_operators<'s>(
    alloc: Global,
    hierarchy: &Hierarchy,
    truth: Option<Truth>,
    statements: &[Stated<'_, 's>],
) -> Result<DeclaredOperators<'s>, AllocError>
    requires { unknown_from hierarchy.now.names (seen_all statements.now) ≡ None }
    ensures { let h = hierarchy.now in
        IfOk result (λ os. os ≡ with_built truth h (operators_from h [] (seen_all statements.now))) }
{
    let mut operators = stated_operators(alloc, hierarchy, statements)?;
    if let Some(truth) = truth {
        operators.add_all_built(alloc, hierarchy, truth)?;
    }
    Ok(operators)
}

/// The constant of this number; where it is 0 and there are numbers, the numeral that the text is, if it is one.
fn identity_at(constant: OpId, nat: Option<KindId>, text: &[u8]) -> Identity
    ensures { identity_of result ≡ identity_with constant nat text.now }
{
    if constant == 0 && nat.is_some() {
        if let Some(numeral) = number(text) {
            return Identity::Nat(numeral);
        }
    }
    Identity::Constant(constant)
}

/// The first of these identities, and the others.
fn first_of(identities: &[Option<Identity>]) -> (Option<Identity>, &[Option<Identity>])
    ensures { (i : Option IdentityOf) (more : List (Option IdentityOf))
        → map (option_map identity_of) identities.now ≡ i ∷ more
        → (option_map identity_of result.0 ≡ i) × (map (option_map identity_of) result.1.now ≡ more) }
{
    match identities {
        [first, others @ ..] => (*first, others),
        [] => (None, identities),
    }
}

/// The operator of a profile of which this is said, with this identity, where these truth values are there.
fn operator_of(
    alloc: Global,
    truth: Option<Truth>,
    profile: Profile,
    said: Said<'_>,
    identity: Option<Identity>,
) -> Result<Operator, AllocError>
    ensures { let o = seen_operator (profile, said.entry) in
        IfOk result (λ p. p ≡ operator_with truth (option_map identity_of identity) o) }
{
    let built = is_built(truth, &profile);
    let spelling = profile.spelling.as_slice();
    let prec = precedence(said.attributes.precedence, spelling);
    let gather = gather(
        alloc,
        &said.attributes.gather,
        said.attributes.assoc,
        spelling,
    )?;
    let frozen = frozen_arguments(alloc, counted(profile.args.as_slice())?, &said.attributes)?;
    Ok(Operator {
        spelling: Name::of(profile.spelling),
        args: Seq::of(profile.args),
        result: profile.result,
        declarations: Seq::of(said.declarations),
        assoc: said.attributes.assoc,
        comm: said.attributes.comm,
        identity,
        prec,
        gather,
        config: said.attributes.config,
        frozen,
        built,
    })
}
