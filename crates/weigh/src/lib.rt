// The better way with one record, keeping or storing it, after the one before it and before what follows.
//
// Not here: what a record adds to a cost (crate `choice`); the sweeps over a list (crate `sweep`).
#![tactic(auto)]

ghost use Rattle.std.specs.Prelude.{◌≡◌, ◌≤◌};
ghost use Rattle.price.specs.Price.{RatesFit};
ghost use Rattle.choice.specs.Choice.{store};
ghost use Rattle.choice.specs.Path.{path_most};
ghost use Rattle.weigh.specs.Weigh.{Better, left_by, Turned};

use format::Record;
use join::Open;
use price::{Cost, Rates};

// The better way with a record: the least cost from it on, and its bit: a number, as two of them make a hint.
#[derive(Clone, Copy, Debug, PartialEq, Eq)]
pub struct Way {
    pub cost: Cost,
    pub bit: u8,
}

// What a record comes to: the least costs from it on, after a kept and after a stored record, and its two bits as one number, which goes into the lent choice area.
#[derive(Clone, Copy, Debug, PartialEq, Eq)]
pub struct Turn {
    pub kept: Cost,
    pub stored: Cost,
    pub hint: u8,
}

// The better way with a record after the one before it: `kept` and `stored` are the least costs of what follows it, after it is kept and after it is
// stored. A new record is stored, and a held match is kept, whatever they come to. By the record's kind first, as that asks least of the processor.
fn better(rates: Rates, before: Open, record: Record, kept: Cost, stored: Cost) -> Way
    requires { (RatesFit rates) × (kept.0 ≤ path_most) × (stored.0 ≤ path_most) }
    ensures { Better rates before «record» kept.0 stored.0 result }
{
    match record {
        Record::New(_) => Way {
            cost: Cost(choice::added(rates, before, record).0 + stored.0),
            bit: 1,
        },
        Record::Match(size, source) => {
            let keep = Cost(choice::added(rates, before, record).0 + kept.0);
            let store = Cost(choice::added(rates, before, Record::New(size)).0 + stored.0);
            if source.held {
                return Way { cost: keep, bit: 0 };
            }
            if store < keep {
                return Way {
                    cost: store,
                    bit: 1,
                };
            }
            Way { cost: keep, bit: 0 }
        }
    }
}

// The record before, stored.
fn stored_before(before: Open) -> Open
    ensures { result ≡ left_by before store }
{
    before.map(|record| choice::chosen(record, 1))
}

// One record from the rear, after the one before it, kept or stored.
pub fn weigh(rates: Rates, before: Open, record: Record, kept: Cost, stored: Cost) -> Turn
    requires { (RatesFit rates) × (kept.0 ≤ path_most) × (stored.0 ≤ path_most) }
    ensures { Turned rates before «record» kept.0 stored.0 result }
{
    let k = better(rates, before, record, kept, stored);
    let s = better(rates, stored_before(before), record, kept, stored);
    Turn {
        kept: k.cost,
        stored: s.cost,
        hint: k.bit + 2 * s.bit,
    }
}
