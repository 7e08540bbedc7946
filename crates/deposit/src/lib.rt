// A deposit into a volume as one function: it rebuilds the volume into an area, partitions a version against what then stands there, and returns the answers
// as they are. Its contract says that each is that call, and that the version comes back as the next chunk, as do all before it.
#![tactic(auto)]

ghost use Rattle.area.specs.Area.{areas};
ghost use Rattle.demand.specs.Volumes.{kept, Deposits};

use demand::Deposited;
use price::Price;

// Rebuild_volume and, where that is accepted, partition of a version's list against the volume that it wrote.
pub fn deposit(
    price: Price,
    index: &[u8],
    lists: &[u8],
    blocks: &[u8],
    area: &mut [u8],
    list: &[u8],
    version: &[u8],
    choice: &mut [u8],
    list_area: &mut [u8],
    block_area: &mut [u8],
) -> Deposited
    ensures deposits { Deposits price (kept index.now lists.now blocks.now) list.now version.now
        area.old (areas choice.old list_area.old block_area.old) result
        area.new (areas choice.new list_area.new block_area.new) }
{
    let rebuilt = rebuild_volume::rebuild_volume(index, lists, blocks, area);
    let Ok(figures) = rebuilt else {
        return Deposited {
            rebuilt,
            deposited: rebuilt,
        };
    };
    let n = figures.whole as usize;
    let deposited = call_partition::partition(
        price,
        list,
        version,
        &area[..n],
        choice,
        list_area,
        block_area,
    );
    Deposited { rebuilt, deposited }
}
