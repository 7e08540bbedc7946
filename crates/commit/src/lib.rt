// The call commit: the list and the stored block of a choice that is handed in, least or not.
#![tactic(auto)]

ghost use Rattle.std.specs.Prelude.{◌≡◌, ◌≤◌, length};
ghost use Rattle.format.specs.Limits.{list_most};
ghost use Rattle.commit.specs.Commit.{may_have, choice_ruling, commit_answer, commit_list, commit_block};

use admit::Rooms;
use format::{Answer, Fault, Record, Ruling, need, need_at};
use price::Price;

// Whether a record may have a choice byte, as it is handed in: 1 for a new one, 0 for a held match, 0 or 1 for another.
fn may_have(record: Record, byte: u8) -> bool
    ensures { result ≡ may_have «record» byte }
{
    match record {
        Record::New(_) => byte == 1,
        Record::Match(_, source) if source.held => byte == 0,
        Record::Match(_, _) => byte <= 1,
    }
}

// Check 12: a byte for each record, no more and no fewer; then each a byte that its record may have.
fn check_choice(list: &[u8], choice: &[u8]) -> Ruling
    requires { length list.now ≤ list_most }
    ensures { result ≡ choice_ruling list.now choice.now }
{
    let n = list.len() / 12;
    need(choice.len() == n, Fault::Choice)?;
    for i in 0..n {
        need_at(
            may_have(format::record_at(list, i), choice[i]),
            Fault::Choice,
            i as u32,
        )?;
    }
    Ok(())
}

// Commit: the list and the stored block of the choice, each over the front of its area, and their figures; nothing is written where it refuses.
pub fn commit(
    price: Price,
    list: &[u8],
    version: &[u8],
    store: &[u8],
    choice: &[u8],
    list_area: &mut [u8],
    block_area: &mut [u8],
) -> Answer
    ensures answered { result ≡ commit_answer price list.now version.now store.now choice.now list_area.old block_area.old }
    ensures list_after { list_area.new ≡ commit_list price list.now version.now store.now choice.now list_area.old block_area.old }
    ensures block_after { block_area.new ≡ commit_block price list.now version.now store.now choice.now list_area.old block_area.old }
{
    let rooms = Rooms {
        choice: list.len() / 12,
        list: list_area.len(),
        block: block_area.len(),
    };
    let w = admit::admit(price, list, version, store, rooms);
    let Ok(_totals) = w else {
        return Err(w.unwrap_err());
    };
    check_choice(list, choice)?;
    let rates = price::rates_of(price);
    writer::finish(rates, list, choice, version, list_area, block_area, 0)
}
