// The call estimate: what partition would come to, and its choice, before an area is taken for list and stored block.
//
// The least choice comes from the sweeps. Its list is not written: its entries and stored bytes are counted, record by record beside the one before.
#![tactic(auto)]

ghost use Rattle.std.specs.Prelude.{◌≡◌, [], ◌∷◌};
ghost use Rattle.format.specs.Meaning.{stored};
ghost use Rattle.estimate.specs.Estimate.{estimate_answer, estimate_area};
ghost use Rattle.estimate.specs.Count.{CountReady, CountsOf};

use admit::Rooms;
use format::{Answer, Figures, Record};
use price::Price;

// The entries of a list, and its stored bytes.
#[derive(Clone, Copy, Debug, PartialEq, Eq)]
pub struct Counts {
    pub entries: u32,
    pub stored: u32,
}

// The entries and the stored bytes of the choice's list.
fn count(list: &[u8], choice: &[u8]) -> Counts
    requires { CountReady list.now choice.now }
    ensures { CountsOf list.now choice.now result }
{
    let mut last = None;
    let mut entries: u32 = 0;
    let mut stored: u32 = 0;
    for i in 0..list.len() / 12 {
        let record = choice::chosen(format::record_at(list, i), choice[i]);
        entries += join::entries_in(last, record);
        stored += format::stored_in(record);
        last = Some(record);
    }
    Counts { entries, stored }
}

// Estimate: the least choice over the front of its area, and the cost, entries and stored bytes of its list; nothing is written where it refuses.
pub fn estimate(
    price: Price,
    list: &[u8],
    version: &[u8],
    store: &[u8],
    choice: &mut [u8],
) -> Answer
    ensures answered { result ≡ estimate_answer price list.now version.now store.now choice.old }
    ensures choice_after { choice.new ≡ estimate_area price list.now version.now store.now choice.old }
{
    let rooms = Rooms {
        choice: choice.len(),
        list: list.len(),
        block: version.len(),
    };
    let w = admit::admit(price, list, version, store, rooms);
    let Ok(_totals) = w else {
        return Err(w.unwrap_err());
    };
    let cost = sweep::least_choice(price::rates_of(price), list, choice);
    let counts = count(list, choice);
    Ok(Figures {
        cost: cost.0,
        entries: counts.entries,
        stored: counts.stored,
        ..Figures::default()
    })
}
