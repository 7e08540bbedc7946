// What partition wrote, handed on: to rebuild, with the stored block, and to partition again, with the version.
#![tactic(auto)]

ghost use Rattle.area.specs.Area.{areas};
ghost use Rattle.rebuild.specs.Rebuild.{Rebuilt};
ghost use Rattle.call_partition.specs.Partition.{Partitioned};

use format::Answer;
use price::Price;

// What rebuild and partition answered. Not a pair, as `demonstrate` names each by its call.
#[derive(Clone, Copy, Debug, PartialEq, Eq)]
pub struct Both {
    pub rebuilt: Answer,
    pub again: Answer,
}

// Rebuild and partition, each given the list that was written, and what else it needs.
pub fn hand_on(
    price: Price,
    list: &[u8],
    block: &[u8],
    version: &[u8],
    store: &[u8],
    out: &mut [u8],
    choice2: &mut [u8],
    list2: &mut [u8],
    block2: &mut [u8],
) -> Both
    ensures rebuilt { Rebuilt list.now block.now store.now out.old result.rebuilt out.new }
    ensures again { Partitioned price list.now version.now store.now (areas choice2.old list2.old block2.old) result.again (areas choice2.new list2.new block2.new) }
{
    let rebuilt = rebuild::rebuild(list, block, store, out);
    let again = call_partition::partition(price, list, version, store, choice2, list2, block2);
    Both { rebuilt, again }
}
