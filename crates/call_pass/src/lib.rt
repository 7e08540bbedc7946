// The call pass: the published linear method, with the list and the stored block of the choice that it leaves.
#![tactic(auto)]

ghost use Rattle.std.specs.Prelude.{◌≡◌, ◌≤◌};
ghost use Rattle.format.specs.Refusal.{figures_in};
ghost use Rattle.area.specs.Area.{areas};
ghost use Rattle.call_pass.specs.Pass.{pass_answer, pass_areas, looks_most};

use admit::Rooms;
use format::Answer;
use price::Price;

// Pass: the choice of the machine's last list, its list and its stored block, each over the front of its area, and the looks it took; nothing is
// written where it refuses. Partition's lines but for the choosing: with that as a closure, its clause would have to say of any choice what `decided` says.
pub fn pass(
    price: Price,
    list: &[u8],
    version: &[u8],
    store: &[u8],
    choice: &mut [u8],
    list_area: &mut [u8],
    block_area: &mut [u8],
) -> Answer
    ensures answered { result ≡ pass_answer price list.now version.now store.now (areas choice.old list_area.old block_area.old) }
    ensures areas_after { areas choice.new list_area.new block_area.new ≡ pass_areas price list.now version.now store.now (areas choice.old list_area.old block_area.old) }
    ensures few_looks { (figures_in result).looks ≤ looks_most list.now }
{
    let rooms = Rooms {
        choice: choice.len(),
        list: list_area.len(),
        block: block_area.len(),
    };
    let w = admit::admit(price, list, version, store, rooms);
    let Ok(_totals) = w else {
        return Err(w.unwrap_err());
    };
    let rates = price::rates_of(price);
    let looks = linear::pass_choice(rates, list, choice);
    writer::finish(rates, list, choice, version, list_area, block_area, looks)
}
