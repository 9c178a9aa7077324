// The texts of the modules of the prelude.
ghost use Rattle.std.specs.Prelude.{◌≡◌};
ghost use Rattle.mw_prelude.specs.Modules.{name_of, text_of};
ghost use Rattle.mw_prelude.specs.declared.modules.Predefined.TheVariants as module_of;

/// A module of the prelude.
#[derive(Clone, Copy)]
pub enum Predefined {
    /// BOOL: truth values, which every other module imports.
    Bool,
    /// NAT: natural numbers.
    Nat,
    /// QID: quoted identifiers.
    Qid,
    /// CONFIGURATION: objects, messages, and multisets of them.
    Configuration,
}

/// The text of BOOL.
fn bool_text() -> &'static [u8]
    ensures { result.now ≡ text_of module_of.Bool }
{
    b"fmod BOOL is
  sort Bool .
  ops true false : -> Bool [ctor] .
  op not_ : Bool -> Bool [prec 53] .
  op _and_ : Bool Bool -> Bool [assoc comm prec 55] .
  op _or_ : Bool Bool -> Bool [assoc comm prec 59] .
  op _xor_ : Bool Bool -> Bool [assoc comm prec 57] .
  op _implies_ : Bool Bool -> Bool [prec 61 gather (e E)] .
  vars A B : Bool .
  eq true and A = A . eq false and A = false . eq A and A = A .
  eq true or A = true . eq false or A = A . eq A or A = A .
  eq not true = false . eq not false = true .
  eq false xor A = A . eq A xor A = false .
  eq A implies B = not A or B .
endfm
"
}

/// The text of NAT.
fn nat_text() -> &'static [u8]
    ensures { result.now ≡ text_of module_of.Nat }
{
    b"fmod NAT is
  sorts Zero NzNat Nat .
  subsorts Zero NzNat < Nat .
  op s_ : Nat -> NzNat [ctor] .
  op _+_ : NzNat Nat -> NzNat [assoc comm prec 33] .
  op _+_ : Nat Nat -> Nat [ditto] .
  op _*_ : NzNat NzNat -> NzNat [assoc comm prec 31] .
  op _*_ : Nat Nat -> Nat [ditto] .
  op sd : Nat Nat -> Nat [comm] .
  ops _quo_ _rem_ : Nat NzNat -> Nat [prec 31 gather (E e)] .
  op min : NzNat NzNat -> NzNat [assoc comm] .
  op min : Nat Nat -> Nat [ditto] .
  op max : NzNat Nat -> NzNat [assoc comm] .
  op max : Nat Nat -> Nat [ditto] .
  ops _<_ _<=_ _>_ _>=_ : Nat Nat -> Bool [prec 37] .
endfm
"
}

/// The text of QID.
fn qid_text() -> &'static [u8]
    ensures { result.now ≡ text_of module_of.Qid }
{
    b"fmod QID is
  sort Qid .
endfm
"
}

/// The text of CONFIGURATION.
fn configuration_text() -> &'static [u8]
    ensures { result.now ≡ text_of module_of.Configuration }
{
    b"mod CONFIGURATION is
  sorts Attribute AttributeSet Oid Cid Object Msg Configuration .
  subsort Attribute < AttributeSet .
  subsorts Object Msg < Configuration .
  op none : -> AttributeSet [ctor] .
  op _,_ : AttributeSet AttributeSet -> AttributeSet [ctor assoc comm id: none] .
  op <_:_|_> : Oid Cid AttributeSet -> Object [ctor object] .
  op none : -> Configuration [ctor] .
  op __ : Configuration Configuration -> Configuration [ctor config assoc comm id: none] .
endm
"
}

impl Predefined {
    /// The module's name.
    pub fn name(self) -> &'static [u8]
        ensures { result.now ≡ name_of self }
    {
        match self {
            Predefined::Bool => b"BOOL",
            Predefined::Nat => b"NAT",
            Predefined::Qid => b"QID",
            Predefined::Configuration => b"CONFIGURATION",
        }
    }

    /// The module's text, which ends with a line feed.
    pub fn text(self) -> &'static [u8]
        ensures { result.now ≡ text_of self }
    {
        match self {
            Predefined::Bool => bool_text(),
            Predefined::Nat => nat_text(),
            Predefined::Qid => qid_text(),
            Predefined::Configuration => configuration_text(),
        }
    }
}
