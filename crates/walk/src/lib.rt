// The walk over a list: checks 4 to 8, and 15 and 16 of a chunk, record by record, in their order. The first that fails is the refusal.
//
// One walk serves every call; its scope says which checks the call has the inputs for, and that a loose list is not asked for check 5. Of a chunk it says
// how many bytes are rebuilt before it.
#![tactic(auto)]

ghost use Rattle.std.specs.Prelude.{◌≡◌, false, ◌&&◌, [], ◌∷◌, ◌+◌, ◌≤◌, ◌<◌, length, take, drop, Ok};
ghost use Rattle.format.specs.Limits.{version_most, records_most};
ghost use Rattle.format.specs.Refusal.{need};
ghost use Rattle.format.specs.Record.{records_of, is_new};
ghost use Rattle.words.specs.Same.{same_bytes};
ghost use Rattle.walk.specs.Checks.{within, seven, eight, limit_of, tight, together, beyond, checks, judged, walk_ruling, next};
ghost use Rattle.walk.specs.Walked.{Lengths, walked};

use format::{Fault, Refusal, Row, Ruling, need_at};

// What the sizes may come to where a call has no version.
const LIMIT: u32 = format::VERSION_MOST as u32;

// By the scope the walk's checks are chosen, in the code as in the definition `checks`.
// What a call has beside the list: nothing; the store; the store, where the list is loose; version and store; both, where the list is loose; of a chunk
// of a volume, how many bytes are rebuilt before it.
#[derive(Clone, Copy, Debug, PartialEq, Eq)]
pub enum Scope {
    Sizes,
    Store,
    Loose,
    Version,
    LooseVersion,
    Chunk(u32),
}

// What was seen before a record: how many records, their sizes together, those of the new ones, and whether the last was new.
#[derive(Clone, Copy, Debug, Default, PartialEq, Eq)]
pub struct Seen {
    pub place: u32,
    pub offset: u32,
    pub stored: u32,
    pub fresh: bool,
}

// Of a list that was walked through: the number of records, the sum of the sizes of new records, the sum of all sizes.
#[derive(Clone, Copy, Debug, PartialEq, Eq)]
pub struct Totals {
    pub entries: u32,
    pub stored: u32,
    pub whole: u32,
}

// What a walk comes to: the totals of a list that it went through, or the refusal at which it stopped. A call takes it apart by `let .. else`, as clause
// 13.4 asks; below the calls it is taken on by `?`.
pub type Walked = Result<Totals, Refusal>;

// Checks 7 and 15: whether a match lies in so many bytes.
fn in_store(row: Row, reach: usize) -> bool
    ensures { result ≡ within row reach }
{
    row.address as usize + row.size as usize <= reach
}

// Check 8: whether a match's bytes in the version, from `at` on, equal those in the store.
fn equal(row: Row, at: usize, version: &[u8], store: &[u8]) -> bool
    requires { (at + row.size ≤ length version.now) × (row.address + row.size ≤ length store.now) }
    ensures { result ≡ same_bytes (take row.size (drop at version.now)) (take row.size (drop row.address store.now)) }
{
    let size = row.size as usize;
    let from = row.address as usize;
    words::same(&version[at..at + size], &store[from..from + size])
}

// Checks 7 and 15 by themselves: a match lies in so many bytes, or this is its fault.
fn judge_reach(row: Row, seen: Seen, reach: usize, fault: Fault) -> Ruling
    ensures { result ≡ need (within row reach) fault seen.place }
{
    need_at(in_store(row, reach), fault, seen.place)
}

// What a call has beside the list: its scope, with version and store, which are empty where it has none. A row and what was seen before it stand by
// themselves, as in the definition `judged`.
#[derive(Clone, Copy)]
struct Beside<'a> {
    scope: Scope,
    version: &'a [u8],
    store: &'a [u8],
}

impl Beside<'_> {
    // What the sizes may come to: the version's length, or the greatest length of one.
    fn limit(&self) -> u32
        requires { length self.now.version.now ≤ version_most }
        ensures { result ≡ limit_of self.now.scope self.now.version.now }
    {
        match self.scope {
            Scope::Version | Scope::LooseVersion => self.version.len() as u32,
            Scope::Sizes | Scope::Store | Scope::Loose | Scope::Chunk(_) => LIMIT,
        }
    }

    // Checks 7 and 8.
    fn judge_version(&self, row: Row, seen: Seen) -> Ruling
        requires { (is_new row ≡ false) × (seen.offset + row.size ≤ length self.now.version.now) }
        ensures { result ≡ judged (seven (length self.now.store.now) ∷ eight self.now.version.now self.now.store.now ∷ []) seen row }
    {
        judge_reach(row, seen, self.store.len(), Fault::OutsideStore)?;
        let at = seen.offset as usize;
        need_at(
            equal(row, at, self.version, self.store),
            Fault::Mismatch,
            seen.place,
        )
    }

    // Checks 7 and 8 of a match, or 15, as far as the scope goes.
    fn judge_match(&self, row: Row, seen: Seen) -> Ruling
        requires { (is_new row ≡ false) × (seen.offset + row.size ≤ limit_of self.now.scope self.now.version.now) × (judged (together self.now.scope) seen row ≡ Ok tt) }
        ensures { result ≡ judged (beyond self.now.scope self.now.version.now self.now.store.now) seen row }
    {
        match self.scope {
            Scope::Sizes => Ok(()),
            Scope::Store | Scope::Loose => judge_reach(
                row,
                seen,
                self.store.len(),
                Fault::OutsideStore,
            ),
            Scope::Version | Scope::LooseVersion => self.judge_version(row, seen),
            Scope::Chunk(before) => judge_reach(row, seen, before as usize, Fault::OutsideEarlier),
        }
    }

    // Check 5: whether a new record stands right after a new one, where that is not allowed: in a loose list it is.
    fn adjacent(&self, row: Row, seen: Seen) -> bool
        ensures { result ≡ (is_new row && seen.fresh) && tight self.now.scope }
    {
        row.kind == 0 && seen.fresh && !matches!(self.scope, Scope::Loose | Scope::LooseVersion)
    }

    // Check 16: whether the volume keeps to its greatest length with a record, where the list is a chunk's.
    fn in_volume(&self, row: Row, seen: Seen) -> bool
        ensures { judged (together self.now.scope) seen row ≡ need result Fault.VolumeTooLong seen.place }
    {
        let Scope::Chunk(before) = self.scope else {
            return true;
        };
        let end = seen.offset as usize + row.size as usize;
        before as usize + end <= format::VOLUME_MOST
    }

    // All checks of one record.
    fn judge(&self, row: Row, seen: Seen, limit: u32) -> Ruling
        requires { (limit ≡ limit_of self.now.scope self.now.version.now) × (seen.offset ≤ limit) }
        ensures { result ≡ judged (checks self.now.scope self.now.version.now self.now.store.now) seen row }
    {
        need_at(checks::well_formed(row), Fault::Malformed, seen.place)?;
        need_at(!self.adjacent(row, seen), Fault::Adjacent, seen.place)?;
        need_at(row.size <= limit - seen.offset, Fault::Sizes, seen.place)?;
        need_at(self.in_volume(row, seen), Fault::VolumeTooLong, seen.place)?;
        if row.kind == 0 {
            return Ok(());
        }
        self.judge_match(row, seen)
    }
}

// What is seen after a record. With one `Seen` for both kinds, measure and check took up to 1.2 times as long.
fn step(seen: Seen, row: Row) -> Seen
    requires { (seen.place < records_most) × (seen.offset + row.size ≤ version_most) × (seen.stored ≤ seen.offset) }
    ensures { result ≡ next seen row }
{
    let place = seen.place + 1;
    let offset = seen.offset + row.size;
    if row.kind == 0 {
        return Seen {
            place,
            offset,
            stored: seen.stored + row.size,
            fresh: true,
        };
    }
    Seen {
        place,
        offset,
        fresh: false,
        ..seen
    }
}

// Walks through a list that is short enough, beside a version and a store that are.
pub fn walk(list: &[u8], version: &[u8], store: &[u8], scope: Scope) -> Walked
    requires { Lengths list.now version.now }
    ensures { result ≡ walked (walk_ruling (checks scope version.now store.now) list.now) (records_of list.now) }
{
    let beside = Beside {
        scope,
        version,
        store,
    };
    let limit = beside.limit();
    let mut seen = Seen::default();
    for i in 0..list.len() / 12 {
        let row = format::row_at(list, i);
        beside.judge(row, seen, limit)?;
        seen = step(seen, row);
    }
    Ok(Totals {
        entries: seen.place,
        stored: seen.stored,
        whole: seen.offset,
    })
}
