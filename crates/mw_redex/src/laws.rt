// Laws of places, which contracts above can name.
ghost use Rattle.std.specs.Prelude.{◌≡◌, ℕ, List, Bool, Option, IsSome};
ghost use Rattle.mw_logic.specs.Term.{RawTerm};
ghost use Rattle.mw_logic.specs.Signature.{Signature};
ghost use Rattle.mw_logic.specs.Accepted.{IsAccepted};
ghost use Rattle.mw_logic.specs.Parts.{nested};
ghost use Rattle.mw_logic.specs.NormalForm.{normal_form};
ghost use Rattle.mw_logic.specs.CanonicalPart.{IsPartOf, ReplacesIn};
ghost use Rattle.mw_split.specs.Lists.{AllOnce};
ghost use Rattle.mw_redex.specs.Paths.{at_path, paths, Lengthen};
ghost use Rattle.mw_redex.specs.Replaced.{IsPartAt, IsOpenWay, way_of_place, ReplacesAt};

/// The paths of a term are those at which something stands, each once.
pub fn each_path_once()
    ensures { (t : RawTerm) → AllOnce (λ path. IsSome (at_path t path)) (paths t) }
{}

/// No path is shorter than one before it.
pub fn paths_lengthen()
    ensures { (t : RawTerm) → Lengthen 0 (paths t) }
{}

/// A replacement at a place of a canonical term is one in the term.
pub fn place_replaces()
    ensures { (sig : Signature) → IsAccepted sig → (by_rule : Bool) (w x v y : RawTerm) (path : List ℕ) (take : Option (List ℕ)) → normal_form sig (nested sig v) ≡ v
        → ReplacesAt sig by_rule w x path take v y → ReplacesIn sig by_rule w x v y }
{}

/// Each replacement in a canonical term is one at some place.
pub fn replacement_has_place()
    ensures { (sig : Signature) → IsAccepted sig → (by_rule : Bool) (w x v y : RawTerm) → normal_form sig (nested sig v) ≡ v
        → ReplacesIn sig by_rule w x v y → (path : List ℕ) × (take : Option (List ℕ)) × ReplacesAt sig by_rule w x path take v y }
{}

/// Each part of a canonical term stands at some place.
pub fn part_has_place()
    ensures { (sig : Signature) → IsAccepted sig → (by_rule : Bool) (v w : RawTerm) → normal_form sig (nested sig v) ≡ v
        → IsPartOf sig by_rule v w → (path : List ℕ) × (take : Option (List ℕ)) × IsPartAt sig path take v w × IsOpenWay sig by_rule (way_of_place path take) v }
{}

/// At a place stands one part, and one term comes of a replacement there.
pub fn one_replacement()
    ensures { (sig : Signature) (by_rule : Bool) (w u x v y z : RawTerm) (path : List ℕ) (take : Option (List ℕ))
        → ReplacesAt sig by_rule w x path take v y → ReplacesAt sig by_rule u x path take v z → (w ≡ u) × (y ≡ z) }
{}
