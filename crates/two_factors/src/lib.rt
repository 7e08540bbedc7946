// Partition at two factors as one function: it makes both calls on lent areas and returns their answers as they are. Its contract says that each is that
// call, and what is so of them where the second factor is no less than the first.
#![tactic(auto)]

ghost use Rattle.price.specs.Price.{price_at};
ghost use Rattle.area.specs.Area.{areas};
ghost use Rattle.call_partition.specs.Partition.{Partitioned};
ghost use Rattle.demand.specs.Factor.{DearerIndex, call_of};

use demand::AtTwoFactors;
use price::Price;

// Partition of one list, version and store at the factor f, in the areas 1, and at the factor g, in the areas 2.
pub fn at_two_factors(
    en: u32,
    em: u32,
    f: u32,
    g: u32,
    list: &[u8],
    version: &[u8],
    store: &[u8],
    choice1: &mut [u8],
    list1: &mut [u8],
    block1: &mut [u8],
    choice2: &mut [u8],
    list2: &mut [u8],
    block2: &mut [u8],
) -> AtTwoFactors
    ensures first { Partitioned (price_at en em f) list.now version.now store.now (areas choice1.old list1.old block1.old) result.first (areas choice1.new list1.new block1.new) }
    ensures second { Partitioned (price_at en em g) list.now version.now store.now (areas choice2.old list2.old block2.old) result.second (areas choice2.new list2.new block2.new) }
    ensures dearer_index { DearerIndex en em f g list.now
        (call_of (areas choice1.old list1.old block1.old) result.first (areas choice1.new list1.new block1.new))
        (call_of (areas choice2.old list2.old block2.old) result.second (areas choice2.new list2.new block2.new)) }
{
    let first = call_partition::partition(
        Price { en, em, f },
        list,
        version,
        store,
        choice1,
        list1,
        block1,
    );
    let second = call_partition::partition(
        Price { en, em, f: g },
        list,
        version,
        store,
        choice2,
        list2,
        block2,
    );
    AtTwoFactors { first, second }
}
