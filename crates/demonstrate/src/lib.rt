// The laws of section 8.1 as one function: it makes partition, rebuild, partition again and pass on lent areas, and returns their answers as
// they are. Its contract says that each is that call, and that the statement holds of them.
#![tactic(auto)]

ghost use Rattle.area.specs.Area.{areas};
ghost use Rattle.rebuild.specs.Rebuild.{Rebuilt};
ghost use Rattle.call_partition.specs.Partition.{Partitioned};
ghost use Rattle.call_pass.specs.Pass.{PassMade};
ghost use Rattle.demand.specs.Demand.{list_written, block_written, calls_of, Holds};

use demand::Answers;
use price::Price;

// The four calls, one after the other: areas 1 are lent to the first partition, 2 to the second, 3 to the pass. What a refused partition wrote
// is an empty list with an empty block.
pub fn demonstrate(
    price: Price,
    list: &[u8],
    version: &[u8],
    store: &[u8],
    choice1: &mut [u8],
    list1: &mut [u8],
    block1: &mut [u8],
    out: &mut [u8],
    choice2: &mut [u8],
    list2: &mut [u8],
    block2: &mut [u8],
    choice3: &mut [u8],
    list3: &mut [u8],
    block3: &mut [u8],
) -> Answers
    ensures first { Partitioned price list.now version.now store.now (areas choice1.old list1.old block1.old) result.first (areas choice1.new list1.new block1.new) }
    ensures rebuilt { Rebuilt (list_written result.first list1.new) (block_written result.first block1.new) store.now out.old result.rebuilt out.new }
    ensures again { Partitioned price (list_written result.first list1.new) version.now store.now (areas choice2.old list2.old block2.old) result.again (areas choice2.new list2.new block2.new) }
    ensures passed { PassMade price list.now version.now store.now (areas choice3.old list3.old block3.old) result.passed (areas choice3.new list3.new block3.new) }
    ensures holds { Holds price list.now version.now store.now
        (calls_of result (areas choice1.old list1.old block1.old) (areas choice1.new list1.new block1.new)
        out.old out.new
        (areas choice2.old list2.old block2.old) (areas choice2.new list2.new block2.new)
        (areas choice3.old list3.old block3.old) (areas choice3.new list3.new block3.new)) }
{
    let first = call_partition::partition(price, list, version, store, choice1, list1, block1);
    let figures = first.unwrap_or_default();
    let n = 12 * figures.entries as usize;
    let m = figures.stored as usize;
    let both = handed_on::hand_on(
        price,
        &list1[..n],
        &block1[..m],
        version,
        store,
        out,
        choice2,
        list2,
        block2,
    );
    let passed = call_pass::pass(price, list, version, store, choice3, list3, block3);
    Answers {
        first,
        rebuilt: both.rebuilt,
        again: both.again,
        passed,
    }
}
