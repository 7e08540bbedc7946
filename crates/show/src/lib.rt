// The calls that look at one record of a list: check and show; and the checks that every reader of a list with its stored block makes.
//
// In order: the checks of a list with its block (`read`), of list, block and store (`accept`), and of the place; check; the part that a record stands for;
// show.
#![tactic(auto)]

ghost use Rattle.std.specs.Prelude.{◌≡◌, ◌+◌, ◌≤◌, ◌<◌, [], ◌∷◌, length, take};
ghost use Rattle.format.specs.Limits.{version_most};
ghost use Rattle.format.specs.Meaning.{stored, part_of};
ghost use Rattle.format.specs.Record.{records_of};
ghost use Rattle.walk.specs.Walked.{walked};
ghost use Rattle.show.specs.Check.{read_ruling, inputs_ruling, check_ruling, checked};
ghost use Rattle.show.specs.Show.{where_of, lent, Lies, shown};

use format::{Answer, Fault, Record, need};
use walk::{Scope, Walked};

// Check 3 of a list, those of its records as far as the scope goes, and 10 of its stored block.
pub fn read(list: &[u8], block: &[u8], store: &[u8], scope: Scope) -> Walked
    ensures { result ≡ walked (read_ruling scope list.now block.now store.now) (records_of list.now) }
{
    need(checks::list_fits(list), Fault::ListLength)?;
    let t = walk::walk(list, &[], store, scope)?;
    need(block.len() == t.stored as usize, Fault::BlockLength)?;
    Ok(t)
}

// Checks 2, 3, 4 to 7 and 10 of list, stored block and store.
pub fn accept(list: &[u8], block: &[u8], store: &[u8]) -> Walked
    ensures { result ≡ walked (inputs_ruling list.now block.now store.now) (records_of list.now) }
{
    need(store.len() <= format::STORE_MOST, Fault::TooLong)?;
    read(list, block, store, Scope::Store)
}

// The same and then 11: whether there is a record k.
fn accept_place(list: &[u8], block: &[u8], store: &[u8], k: u32) -> Walked
    ensures { result ≡ walked (check_ruling list.now block.now store.now k) (records_of list.now) }
{
    let t = accept(list, block, store)?;
    need(k < t.entries, Fault::NoSuchRecord)?;
    Ok(t)
}

// Check: accepted where list, block and store have no fault and there is a record k.
pub fn check(list: &[u8], block: &[u8], store: &[u8], k: u32) -> Answer
    ensures answered { result ≡ checked list.now block.now store.now k }
{
    let w = accept_place(list, block, store, k);
    let Ok(_totals) = w else {
        return Err(w.unwrap_err());
    };
    format::length_only(0)
}

// The part that a record stands for, where so many stored bytes come before it.
pub fn part_of<'a>(record: Record, before: usize, block: &'a [u8], store: &'a [u8]) -> &'a [u8]
    requires { Lies (part_of before «record») block.now store.now }
    ensures { where_of result ≡ lent block.entry store.entry (part_of before «record») }
{
    match record {
        Record::New(size) => {
            let to = before + size as usize;
            &block[before..to]
        }
        Record::Match(size, source) => {
            let from = source.address as usize;
            let to = from + size as usize;
            &store[from..to]
        }
    }
}

// The stored bytes up to the end of a record, where so many come before it.
pub fn stored_after(record: Record, before: usize) -> usize
    requires { before + stored («record» ∷ []) < 18446744073709551616 }
    ensures { result ≡ before + stored («record» ∷ []) }
{
    before + format::stored_in(record) as usize
}

// The stored bytes before record k.
fn stored_before(list: &[u8], k: usize) -> usize
    requires { (k ≤ length (records_of list.now)) × (stored (records_of list.now) ≤ version_most) }
    ensures { result ≡ stored (take k (records_of list.now)) }
{
    let mut sum = 0;
    for i in 0..k {
        sum = stored_after(format::record_at(list, i), sum);
    }
    sum
}

// Show: the part of the stored block, or of the store, that record k stands for; the block's first 0 bytes where check refuses.
pub fn show<'a>(list: &[u8], block: &'a [u8], store: &'a [u8], k: u32) -> &'a [u8]
    ensures part_lent { where_of result ≡ shown list.now block.entry store.entry k }
{
    let Ok(_totals) = accept_place(list, block, store, k) else {
        return &block[..0];
    };
    let i = k as usize;
    let record = format::record_at(list, i);
    part_of(record, stored_before(list, i), block, store)
}
