// Two lists side by side: the version cut at the borders of both, piece by piece.
//
// In order: a cursor in a list, and two of them; a record cut in two; the cursor some bytes further; one step of two cursors.
#![tactic(auto)]

ghost use Rattle.std.specs.Prelude.{◌≡◌, ◌+◌, ◌*◌, ◌≤◌, ◌<◌, length};
ghost use Rattle.format.specs.Record.{row_at, record_of};
ghost use Rattle.format.specs.Meaning.{size_of};
ghost use Rattle.cursors.specs.Cut.{lead, cut, end_of};
ghost use Rattle.cursors.specs.Cursor.{rest_at, moved, StepReady, Stepped};

use format::{Record, Source};

// A place in a version, by its list: a record, and how many of its bytes are passed. The default is the front of a list.
#[derive(Clone, Copy, Debug, Default, PartialEq, Eq)]
pub struct Cursor {
    pub place: usize,
    pub within: u32,
}

// Two cursors, each in a list of its own. The default is the front of both.
#[derive(Clone, Copy, Debug, Default, PartialEq, Eq)]
pub struct Pair {
    pub first: Cursor,
    pub second: Cursor,
}

// The first n bytes of a record.
fn lead(record: Record, n: u32) -> Record
    ensures { result ≡ lead n «record» }
{
    match record {
        Record::New(_) => Record::New(n),
        Record::Match(_, source) => Record::Match(n, source),
    }
}

// What is left of a record after its first n bytes.
fn cut(record: Record, n: u32) -> Record
    requires { (n ≤ size_of «record») × (end_of «record» < 4294967296) }
    ensures { result ≡ cut n «record» }
{
    match record {
        Record::New(size) => Record::New(size - n),
        Record::Match(size, source) => {
            let on = Source {
                address: source.address + n,
                ..source
            };
            Record::Match(size - n, on)
        }
    }
}

// What is left, at a cursor, of its record.
fn rest_at(list: &[u8], at: Cursor) -> Record
    requires { (12 * at.place + 12 ≤ length list.now) × (at.within ≤ size_of (record_of (row_at list.now at.place))) × (end_of (record_of (row_at list.now at.place)) < 4294967296) }
    ensures { result ≡ rest_at list.now at }
{
    cut(format::record_at(list, at.place), at.within)
}

// The cursor n bytes further, where so much is left of its record.
fn advance(left: Record, at: Cursor, n: u32) -> Cursor
    requires { (at.within + size_of left < 4294967296) × (at.place + 1 < 18446744073709551616) }
    ensures { result ≡ moved left at n }
{
    if n < format::size_of(left) {
        return Cursor {
            place: at.place,
            within: at.within + n,
        };
    }
    Cursor {
        place: at.place + 1,
        within: 0,
    }
}

impl Pair {
    // One step: two pieces of the size of the shorter of the two stretches, and both cursors behind them.
    pub fn step(&mut self, first: &[u8], second: &[u8]) -> (Record, Record)
        requires { StepReady first.now second.now self.old }
        ensures { Stepped first.now second.now self.old result self.new }
    {
        let a = rest_at(first, self.first);
        let b = rest_at(second, self.second);
        let n = format::size_of(a).min(format::size_of(b));
        self.first = advance(a, self.first, n);
        self.second = advance(b, self.second, n);
        (lead(a, n), lead(b, n))
    }
}
