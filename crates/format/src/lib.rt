// The list of a version: 12-byte records, read from bytes; the faults a call can find, and the answer it gives.
//
// In order: the limits; faults and answers; rows and records; checks; a record read from a list's bytes.
// Not here: what a list's length and a row must be by themselves (crate `checks`), and a record beside its neighbours, the version and the store (crate
// `walk`).
#![tactic(auto)]

ghost use Rattle.std.specs.Prelude.{◌≡◌, ◌+◌, ◌*◌, ◌≤◌, ◌<◌, length, [], ◌∷◌, Ok};
ghost use Rattle.format.specs.Refusal.{number, refuse, need, length_only, entries_only};
ghost use Rattle.format.specs.Record.{word_at, row_at, record_of};
ghost use Rattle.format.specs.Meaning.{size_of, stored};

// The limits: the longest version, store, volume, list and index of a volume, in bytes; the most records of a list.
pub const VERSION_MOST: usize = 16777216;

pub const STORE_MOST: usize = 268435456;

pub const VOLUME_MOST: usize = 268435456;

pub const LIST_MOST: usize = 49152;

pub const INDEX_MOST: usize = 8192;

pub const RECORDS_MOST: u32 = 4096;

// What is at fault, in the order of the numbers 1 to 16 (`number`).
#[derive(Clone, Copy, Debug, PartialEq, Eq)]
pub enum Fault {
    Price,
    TooLong,
    ListLength,
    Malformed,
    Adjacent,
    Sizes,
    OutsideStore,
    Mismatch,
    AreaTooShort,
    BlockLength,
    NoSuchRecord,
    Choice,
    TooManyRecords,
    Index,
    OutsideEarlier,
    VolumeTooLong,
}

// The number of a fault.
impl From<Fault> for u32 {
    ghost from_gives = { λ fault n. n ≡ number fault };

    fn from(fault: Fault) -> u32 {
        match fault {
            Fault::Price => 1,
            Fault::TooLong => 2,
            Fault::ListLength => 3,
            Fault::Malformed => 4,
            Fault::Adjacent => 5,
            Fault::Sizes => 6,
            Fault::OutsideStore => 7,
            Fault::Mismatch => 8,
            Fault::AreaTooShort => 9,
            Fault::BlockLength => 10,
            Fault::NoSuchRecord => 11,
            Fault::Choice => 12,
            Fault::TooManyRecords => 13,
            Fault::Index => 14,
            Fault::OutsideEarlier => 15,
            Fault::VolumeTooLong => 16,
        }
    }
}

// A fault, and the record concerned, or the chunk of a volume, counted from 0; 0 where none is concerned.
#[derive(Clone, Copy, Debug, PartialEq, Eq)]
pub struct Refusal {
    pub fault: Fault,
    pub place: u32,
}

// What a check, or several in their order, come to: nothing, or the first refusal.
pub type Ruling = Result<(), Refusal>;

// What an accepted call answers; what it does not give is 0.
#[derive(Clone, Copy, Debug, Default, PartialEq, Eq)]
pub struct Figures {
    pub cost: u64,
    pub entries: u32,
    pub stored: u32,
    pub looks: u32,
    pub whole: u32,
}

// What a call answers: its figures, or why it is refused.
pub type Answer = Result<Figures, Refusal>;

// The fields of a record, as they stand: bytes and not enums, as the C interface hands in any bytes, and check 4 rules on them (`well_formed`).
#[derive(Clone, Copy, Debug, PartialEq, Eq)]
pub struct Row {
    pub kind: u8,
    pub byte1: u8,
    pub byte2: u8,
    pub byte3: u8,
    pub size: u32,
    pub address: u32,
}

// Where a match is drawn from: an address of the store; and whether it is held, so that it must go on being drawn from there.
#[derive(Clone, Copy, Debug, PartialEq, Eq)]
pub struct Source {
    pub address: u32,
    pub held: bool,
}

// A record: a new one of a size, or a match of a size with its source.
#[derive(Clone, Copy, Debug, PartialEq, Eq)]
pub enum Record {
    New(u32),
    Match(u32, Source),
}

// A fault at its place. Not inlined, and cold: checks pass far more often than they fail.
#[cold]
#[inline(never)]
fn refusal_at(fault: Fault, place: u32) -> Refusal
    ensures { result ≡ refuse fault place }
{
    Refusal { fault, place }
}

// A check of a record, or of a chunk: its fault at the place, unless the test holds.
pub fn need_at(holds: bool, fault: Fault, place: u32) -> Ruling
    ensures { result ≡ need holds fault place }
{
    if holds {
        Ok(())
    } else {
        Err(refusal_at(fault, place))
    }
}

// A check where no record is concerned: its fault at place 0, unless the test holds.
pub fn need(holds: bool, fault: Fault) -> Ruling
    ensures { result ≡ need holds fault 0 }
{
    need_at(holds, fault, 0)
}

// The answer of an accepted call that gives a whole length and no other figure; 0 where it gives none.
pub fn length_only(whole: u32) -> Answer
    ensures { result ≡ Ok (length_only whole) }
{
    Ok(Figures {
        whole,
        ..Figures::default()
    })
}

// The answer of an accepted call that gives entries and no other figure.
pub fn entries_only(entries: u32) -> Answer
    ensures { result ≡ Ok (entries_only entries) }
{
    Ok(Figures {
        entries,
        ..Figures::default()
    })
}

// The number in the 4 bytes from `at` on, lowest byte first.
pub fn word_at(list: &[u8], at: usize) -> u32
    requires { at + 4 ≤ length list.now }
    ensures { result ≡ word_at list.now at }
{
    u32::from_le_bytes([list[at], list[at + 1], list[at + 2], list[at + 3]])
}

// Row i of a list: of any bytes that are so long, and not only of a list that check 3 passes, so no type of lists stands for the clause.
pub fn row_at(list: &[u8], i: usize) -> Row
    requires { 12 * i + 12 ≤ length list.now }
    ensures { result ≡ row_at list.now i }
{
    let at = 12 * i;
    Row {
        kind: list[at],
        byte1: list[at + 1],
        byte2: list[at + 2],
        byte3: list[at + 3],
        size: word_at(list, at + 4),
        address: word_at(list, at + 8),
    }
}

// The record that a row stands for.
impl From<Row> for Record {
    ghost from_gives = { λ row entry. entry ≡ record_of row };

    fn from(row: Row) -> Record {
        if row.kind == 0 {
            return Record::New(row.size);
        }
        let source = Source {
            address: row.address,
            held: row.byte1 == 1,
        };
        Record::Match(row.size, source)
    }
}

// Record i of a list.
pub fn record_at(list: &[u8], i: usize) -> Record
    requires { 12 * i + 12 ≤ length list.now }
    ensures { result ≡ record_of (row_at list.now i) }
{
    Record::from(row_at(list, i))
}

// The bytes that a record stores.
pub fn stored_in(record: Record) -> u32
    ensures { result ≡ stored («record» ∷ []) }
{
    match record {
        Record::New(size) => size,
        Record::Match(_, _) => 0,
    }
}

// The bytes that a record covers.
pub fn size_of(record: Record) -> u32
    ensures { result ≡ size_of «record» }
{
    match record {
        Record::New(size) => size,
        Record::Match(size, _) => size,
    }
}
