// The call pool: two lists of one version, pooled byte by byte: as the first list says if that is a match, else as the second says.
//
// In order: which of two pieces; the records of the pooled list counted; the pooled list written; the checks of one list; the call. The code goes by stretches, the
// shorter of the two current ones at a time; one step of the two cursors serves the count and the writing.
#![tactic(auto)]

ghost use Rattle.std.specs.Prelude.{◌≡◌, ◌≤◌, length};
ghost use Rattle.format.specs.Limits.{version_most};
ghost use Rattle.format.specs.Record.{records_of, encode};
ghost use Rattle.area.specs.Area.{over};
ghost use Rattle.walk.specs.Walked.{walked};
ghost use Rattle.pool.specs.Pool.{pooled_list, list_ruling, pool_answer, pool_area};
ghost use Rattle.pool.specs.Pooling.{preferred, Alongside, PoolReady};

use cursors::Pair;
use emit::Emitter;
use format::{Answer, Fault, Record, need};
use walk::{Scope, Walked};

// Of two pieces of one size: the first if it is a match, else the second.
fn preferred(one: Record, two: Record) -> Record
    ensures { result ≡ preferred one two }
{
    match one {
        Record::New(_) => two,
        Record::Match(_, _) => one,
    }
}

// The number of records of the pooled list.
fn count_pooled(first: &[u8], second: &[u8]) -> u32
    requires { Alongside first.now second.now }
    ensures { result ≡ length (pooled_list first.now second.now) }
{
    let n = first.len() / 12;
    let mut at = Pair::default();
    let mut last = None;
    let mut entries: u32 = 0;
    while at.first.place < n {
        let (one, two) = at.step(first, second);
        let piece = preferred(one, two);
        entries += join::entries_in(last, piece);
        last = Some(piece);
    }
    entries
}

// The pooled list, over the front of the area. Its loop is that of `count_pooled`, which does something else with each piece: as one function of a closure
// they would be no shorter.
fn write_pooled(first: &[u8], second: &[u8], area: &mut [u8])
    requires { PoolReady first.now second.now area.old }
    ensures { area.new ≡ over (encode (pooled_list first.now second.now)) area.old }
{
    let n = first.len() / 12;
    let mut at = Pair::default();
    let mut written = Emitter::new(area);
    while at.first.place < n {
        let (one, two) = at.step(first, second);
        written.emit(preferred(one, two));
    }
    written.flush();
}

// Of one of the two lists check 3, then record by record 4, 6, 7 and 8, then the short end.
fn accept(list: &[u8], version: &[u8], store: &[u8]) -> Walked
    requires { length version.now ≤ version_most }
    ensures { result ≡ walked (list_ruling list.now version.now store.now) (records_of list.now) }
{
    need(checks::list_fits(list), Fault::ListLength)?;
    admit::cover(list, version, store, Scope::LooseVersion)
}

// Pool: the pooled list over the front of its area, and the number of its records; nothing is written where it refuses.
pub fn pool(
    first: &[u8],
    second: &[u8],
    version: &[u8],
    store: &[u8],
    list_area: &mut [u8],
) -> Answer
    ensures answered { result ≡ pool_answer first.now second.now version.now store.now list_area.old }
    ensures list_after { list_area.new ≡ pool_area first.now second.now version.now store.now list_area.old }
{
    need(admit::lengths_fit(version, store), Fault::TooLong)?;
    let v = accept(first, version, store);
    let Ok(_first) = v else {
        return Err(v.unwrap_err());
    };
    let w = accept(second, version, store);
    let Ok(_second) = w else {
        return Err(w.unwrap_err());
    };
    let entries = count_pooled(first, second);
    let bytes = 12 * entries as usize;
    need(entries <= format::RECORDS_MOST, Fault::TooManyRecords)?;
    need(bytes <= list_area.len(), Fault::AreaTooShort)?;
    write_pooled(first, second, list_area);
    format::entries_only(entries)
}
