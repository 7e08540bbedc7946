// The call partition: of all choices for a list, the one whose list costs least, with its list and its stored block.
#![tactic(auto)]

ghost use Rattle.std.specs.Prelude.{◌≡◌};
ghost use Rattle.area.specs.Area.{areas};
ghost use Rattle.call_partition.specs.Partition.{partition_answer, partition_areas};

use admit::Rooms;
use format::Answer;
use price::Price;

// Partition: the least choice, its list and its stored block, each over the front of its area; nothing is written where it refuses.
// Its lines are pass's but for the choosing (`call_pass`).
pub fn partition(
    price: Price,
    list: &[u8],
    version: &[u8],
    store: &[u8],
    choice: &mut [u8],
    list_area: &mut [u8],
    block_area: &mut [u8],
) -> Answer
    ensures answered { result ≡ partition_answer price list.now version.now store.now (areas choice.old list_area.old block_area.old) }
    ensures areas_after { areas choice.new list_area.new block_area.new ≡ partition_areas price list.now version.now store.now (areas choice.old list_area.old block_area.old) }
{
    let rooms = Rooms {
        choice: choice.len(),
        list: list_area.len(),
        block: block_area.len(),
    };
    let w = admit::admit(price, list, version, store, rooms);
    let Ok(_totals) = w else {
        return Err(w.unwrap_err());
    };
    let rates = price::rates_of(price);
    sweep::least_choice(rates, list, choice);
    writer::finish(rates, list, choice, version, list_area, block_area, 0)
}
