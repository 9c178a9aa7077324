// What is counted of a trail, once.
ghost use Rattle.std.specs.Prelude.{◌≡◌, ◌<◌, ◌^◌, ◌+◌, ◌==◌, ◌&&◌, if◌then◌else◌, ◌∷◌, List};
ghost use Rattle.mw_trail.specs.Tracks.{is_rule};
ghost use Rattle.mw_trail.specs.declared.trail.Item.{Item as ItemOf};
ghost use Rattle.mw_proof.specs.Counting.{AreCounts, AreCapped, capped, counted_to, depth_after};

use mw_least::Ctx;
use mw_trail::{Item, Trail};

/// How many replacements a proof has, those in evidence included; how many outside evidence; and how many of these are
/// by rules. Each is 2^64 - 1 where there are more.
#[derive(Clone, Copy)]
pub struct Counts {
    pub count: u64,
    pub steps: u64,
    pub rules: u64,
}

impl Counts {
    /// Both together.
    pub(crate) fn plus(self, others: Counts) -> Counts
        ensures count { result.count ≡ capped (self.count + others.count) }
        ensures steps { result.steps ≡ capped (self.steps + others.steps) }
        ensures rules { result.rules ≡ capped (self.rules + others.rules) }
    {
        Counts {
            count: self.count.saturating_add(others.count),
            steps: self.steps.saturating_add(others.steps),
            rules: self.rules.saturating_add(others.rules),
        }
    }
}

/// Whether the statement of this number is a rule.
fn by_rule(context: &Ctx, number: u32) -> bool
    ensures { result ≡ is_rule context.now number }
{
    let Some(index) = (number as usize).checked_sub(1) else {
        return false;
    };
    match context.statements().get(index) {
        Some(statement) => statement.rule,
        None => false,
    }
}

/// One replacement more, so many sides in.
fn one_more(counts: Counts, depth: usize, rule: bool) -> Counts
    ensures count { result.count ≡ capped (counts.count + 1) }
    ensures steps { result.steps ≡ capped (counts.steps + (if depth == 0 then 1 else 0)) }
    ensures rules { result.rules ≡ capped (counts.rules + (if rule && (depth == 0) then 1 else 0)) }
{
    let outer = if depth == 0 { 1 } else { 0 };
    let by_rules = if rule && depth == 0 { 1 } else { 0 };
    Counts {
        count: counts.count.saturating_add(1),
        steps: counts.steps.saturating_add(outer),
        rules: counts.rules.saturating_add(by_rules),
    }
}

/// What is counted with this item, so many sides in.
fn count_one(context: &Ctx, counts: Counts, depth: usize, item: Item) -> Counts
    ensures fit { AreCapped result }
    ensures counted { (xs : List ItemOf) → counted_to context.now (depth_after depth item) result xs
        ≡ counted_to context.now depth counts (item ∷ xs) }
{
    match item {
        Item::Apply(_, number) => one_more(counts, depth, by_rule(context, number)),
        Item::Row => one_more(counts, depth, false),
        Item::Into(_) | Item::Among(_) | Item::Out | Item::Begin(_) | Item::End => counts,
    }
}

/// How many sides in the next item stands.
fn next_depth(depth: usize, item: Item) -> usize
    requires { depth + 1 < 2 ^ 64 }
    ensures { result ≡ depth_after depth item }
{
    match item {
        Item::Begin(_) => depth + 1,
        Item::End => depth.saturating_sub(1),
        _ => depth,
    }
}

/// What a trail counts.
pub(crate) fn count_all(context: &Ctx, trail: &Trail) -> Counts
    ensures { AreCounts context.now trail.now result }
{
    let mut counts = Counts {
        count: 0,
        steps: 0,
        rules: 0,
    };
    let mut depth = 0;
    for item in trail.items() {
        counts = count_one(context, counts, depth, *item);
        depth = next_depth(depth, *item);
    }
    counts
}
