// The rules of the pass: the outcome of a look at a record, by the kinds and sizes around it.
//
// In order: the outcomes; a kind and a size; the rules after a new record; the rules at two matches; all five rules.
// Not here: the list that the looks go over, and what an outcome does to it.
#![tactic(auto)]

ghost use Rattle.std.specs.Prelude.{◌≡◌, ◌+◌, ◌≤◌, cond};
ghost use Rattle.format.specs.Limits.{version_most};
ghost use Rattle.price.specs.Price.{RatesFit};
ghost use Rattle.rules.specs.declared.Merge.TheVariants.{Pair};
ghost use Rattle.rules.specs.declared.Outcome.TheVariants.{Advance, Merged};
ghost use Rattle.rules.specs.Rules.{Item, new, match, tests_of, outcome_at, cell_item};

use price::{Cost, Rates};

// A merge, by what becomes one with p, and the bytes fused: the size of the record made.
#[derive(Clone, Copy, Debug, PartialEq, Eq)]
pub enum Merge {
    Both(u32),
    Before(u32),
    After(u32),
    Pair(u32),
}

// How a look ends.
// It has Option's shape, and is an enum of its own because clause 13.6 names it.
#[derive(Clone, Copy, Debug, PartialEq, Eq)]
pub enum Outcome {
    Advance,
    Merged(Merge),
}

// The kind of a record on the list. A held match and the two marks are of neither kind.
#[derive(Clone, Copy, Debug, PartialEq, Eq)]
pub enum Kind {
    New,
    Match,
    Neither,
}

// A kind and a size.
#[derive(Clone, Copy, Debug, PartialEq, Eq)]
pub struct Cell {
    pub kind: Kind,
    pub size: u32,
}

// Rules 1, 2 and 5 for a match of `size` bytes that stands after a new record of `before` bytes.
fn after_new(rates: Rates, before: u32, size: u32, after: Cell) -> Outcome
    requires { (RatesFit rates) × (before + size + after.size ≤ version_most) }
    ensures { (second : Item) → result ≡ outcome_at (tests_of rates) (new before) (match size) (cell_item after) second }
{
    let bytes = price::storing(rates, size);
    let both = Cost(rates.kept.0 + rates.fresh.0);
    match after.kind {
        Kind::New if bytes.0 < both.0 => Outcome::Merged(Merge::Both(before + size + after.size)),
        Kind::Match | Kind::Neither if bytes.0 < rates.kept.0 => Outcome::Merged(Merge::Before(
            before + size,
        )),
        _ => Outcome::Advance,
    }
}

// Rules 4 and 5 for two matches that cover `size` bytes together, between records that are not new.
fn of_pair(rates: Rates, size: u32) -> Outcome
    requires { RatesFit rates }
    ensures { result ≡ cond ((tests_of rates).pair size) (Merged (Pair size)) Advance }
{
    let bytes = price::storing(rates, size);
    if bytes.0 + rates.fresh.0 < 2 * rates.kept.0 {
        return Outcome::Merged(Merge::Pair(size));
    }
    Outcome::Advance
}

// Costs are compared by their numbers, as merge 4 compares a sum with twice a cost.
// The first of the five rules that applies to p, with the one before it, the one after it and the second after it.
pub fn outcome_at(rates: Rates, before: Cell, p: Cell, after: Cell, second: Cell) -> Outcome
    requires { (RatesFit rates) × (before.size + p.size + after.size ≤ version_most) }
    ensures { result ≡ outcome_at (tests_of rates) (cell_item before) (cell_item p) (cell_item after) (cell_item second) }
{
    if p.kind != Kind::Match {
        return Outcome::Advance;
    }
    if before.kind == Kind::New {
        return after_new(rates, before.size, p.size, after);
    }
    match after.kind {
        Kind::New if price::storing(rates, p.size).0 < rates.kept.0 => Outcome::Merged(Merge::After(
            p.size + after.size,
        )),
        Kind::Match if second.kind != Kind::New => of_pair(rates, p.size + after.size),
        _ => Outcome::Advance,
    }
}
