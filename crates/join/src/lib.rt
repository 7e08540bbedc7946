// Which neighbouring records join, and what they become.
//
// `joins` alone says what joins; what is written, counted and priced follows from it.
#![tactic(auto)]

ghost use Rattle.std.specs.Prelude.{◌≡◌, cond, ◌+◌, ◌≤◌, ◌<◌, Some};
ghost use Rattle.join.specs.Join.{goes_on, joins, grown};
ghost use Rattle.join.specs.Open.{open_size, follows};

use format::{Record, Source};

// A record that is not written yet, as the next may join it.
pub type Open = Option<Record>;

// Where a match ends in the store; in 64 bits, as nothing says here that it lies in the store.
fn end_of(size: u32, address: u32) -> u64
    ensures { result ≡ address + size }
{
    u64::from(address) + u64::from(size)
}

// Whether a match of so many bytes goes on in another, which has the same mark and begins where it ends.
fn goes_on(size: u32, first: Source, second: Source) -> bool
    ensures { result ≡ goes_on size first second }
{
    first.held == second.held && end_of(size, first.address) == u64::from(second.address)
}

// Whether two neighbours join: new records do, and so do matches where the first goes on in the second.
pub fn joins(first: Record, second: Record) -> bool
    ensures { result ≡ joins first second }
{
    match (first, second) {
        (Record::New(_), Record::New(_)) => true,
        (Record::Match(size, source), Record::Match(_, next)) => goes_on(size, source, next),
        (Record::New(_), Record::Match(_, _)) => false,
        (Record::Match(_, _), Record::New(_)) => false,
    }
}

// Whether a record joins the open one, if there is one.
pub fn follows(last: Open, record: Record) -> bool
    ensures { result ≡ follows last «record» }
{
    last.is_some_and(|waiting| joins(waiting, record))
}

// The entries that a record adds after the one before it: none where the two join. A test turned into a number would be no shorter.
pub fn entries_in(before: Open, record: Record) -> u32
    ensures { (result ≡ cond (follows before «record») 0 1) × (result ≤ 1) }
{
    if follows(before, record) { 0 } else { 1 }
}

// A record that another of so many bytes joined.
pub fn grown(record: Record, more: u32) -> Record
    requires { open_size (Some «record») + more < 4294967296 }
    ensures { result ≡ grown «record» more }
{
    match record {
        Record::New(size) => Record::New(size + more),
        Record::Match(size, source) => Record::Match(size + more, source),
    }
}
