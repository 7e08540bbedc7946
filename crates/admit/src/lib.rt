// The checks that partition, pass, estimate and commit make of their inputs and areas, in their order.
//
// Three parts: price and lengths; the rooms; the list beside version and store. Pool makes the last part of each of its two lists.
#![tactic(auto)]

ghost use Rattle.std.specs.Prelude.{◌≡◌};
ghost use Rattle.format.specs.Record.{records_of};
ghost use Rattle.walk.specs.Walked.{Lengths, walked};
ghost use Rattle.admit.specs.Admit.{lengths_fit, areas_fit, first_ruling, cover_ruling, admit_ruling};

use format::{Fault, Ruling, need, need_at};
use price::Price;
use walk::{Scope, Walked};

// Check 2: whether version and store are short enough.
pub fn lengths_fit(version: &[u8], store: &[u8]) -> bool
    ensures { result ≡ lengths_fit version.now store.now }
{
    version.len() <= format::VERSION_MOST && store.len() <= format::STORE_MOST
}

// The lengths of the rooms that are lent for choice, list and stored block.
#[derive(Clone, Copy, Debug, PartialEq, Eq)]
pub struct Rooms {
    pub choice: usize,
    pub list: usize,
    pub block: usize,
}

// Whether the rooms are long enough for choice, list and stored block.
pub fn areas_fit(list: &[u8], version: &[u8], rooms: Rooms) -> bool
    ensures { result ≡ areas_fit list.now version.now rooms.choice rooms.list rooms.block }
{
    list.len() / 12 <= rooms.choice && list.len() <= rooms.list && version.len() <= rooms.block
}

// Checks 1, 2 and 3.
pub fn first_checks(price: Price, list: &[u8], version: &[u8], store: &[u8]) -> Ruling
    ensures { result ≡ first_ruling price list.now version.now store.now }
{
    need(price::in_range(price), Fault::Price)?;
    need(lengths_fit(version, store), Fault::TooLong)?;
    need(checks::list_fits(list), Fault::ListLength)
}

// Record by record 4 to 8, or those that the scope asks for; then the short end.
pub fn cover(list: &[u8], version: &[u8], store: &[u8], scope: Scope) -> Walked
    requires { Lengths list.now version.now }
    ensures { result ≡ walked (cover_ruling scope list.now version.now store.now) (records_of list.now) }
{
    let t = walk::walk(list, version, store, scope)?;
    need_at(t.whole as usize == version.len(), Fault::Sizes, t.entries)?;
    Ok(t)
}

// Price, list, version and store stand by themselves, as they are handed in by the C calls.
// All checks of a call to which these rooms are lent: the first three, check 9 of the rooms, the list beside version and store.
pub fn admit(price: Price, list: &[u8], version: &[u8], store: &[u8], rooms: Rooms) -> Walked
    ensures { result ≡ walked (admit_ruling price list.now version.now store.now rooms.choice rooms.list rooms.block) (records_of list.now) }
{
    first_checks(price, list, version, store)?;
    need(areas_fit(list, version, rooms), Fault::AreaTooShort)?;
    cover(list, version, store, Scope::Version)
}
