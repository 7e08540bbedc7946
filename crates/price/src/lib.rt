// The price, the rates that it comes to, and the cost of a list.
//
// Three units: index bytes, disk bytes, and 256ths of a disk byte, in which every cost is. `index_cost` takes index bytes to it by the factor,
// `disk_cost` takes disk bytes to it by 256.
#![tactic(auto)]

ghost use Rattle.std.specs.Prelude.{◌≡◌, ◌+◌, ◌*◌, ◌-◌, ◌≤◌, ◌<◌, [], ◌∷◌, length};
ghost use Rattle.format.specs.Limits.{records_most, list_most};
ghost use Rattle.format.specs.Record.{records_of};
ghost use Rattle.price.specs.Price.{entry_most, price_fits, rates_of, news, cost, RatesFit, Storing, Tallied, Countable, Counted};

use format::Record;

// Bytes of the index. A struct for each unit, as clause 13.2 asks.
#[derive(Clone, Copy, Debug, PartialEq, Eq)]
pub struct IndexBytes(pub u64);

// Bytes of disk.
#[derive(Clone, Copy, Debug, PartialEq, Eq)]
pub struct DiskBytes(pub u64);

// 256ths of a disk byte, the unit of cost.
#[derive(Clone, Copy, Debug, PartialEq, Eq, PartialOrd, Ord)]
pub struct Cost(pub u64);

// EN and EM, the index bytes of a new entry and of a match, and F, the 256ths of a disk byte that one of them is worth.
#[derive(Clone, Copy, Debug, PartialEq, Eq)]
pub struct Price {
    pub en: u32,
    pub em: u32,
    pub f: u32,
}

// What a list costs by its parts: a new entry, a kept match, and a stored byte. `RatesFit` is a clause and no invariant of the type, as `rates_of`
// answers for each price, in range or not.
#[derive(Clone, Copy, Debug, PartialEq, Eq)]
pub struct Rates {
    pub fresh: Cost,
    pub kept: Cost,
    pub byte: Cost,
}

// What index bytes cost: the factor for each.
pub fn index_cost(index: IndexBytes, factor: u32) -> Cost
    requires { index.0 < 4294967296 }
    ensures { result ≡ record { 0 = factor * index.0 } }
{
    Cost(u64::from(factor) * index.0)
}

// What disk bytes cost: 256 for each.
pub fn disk_cost(disk: DiskBytes) -> Cost
    requires { disk.0 < 4294967296 }
    ensures { result ≡ record { 0 = 256 * disk.0 } }
{
    Cost(256 * disk.0)
}

// Check 1: whether EN, EM and F are in their ranges.
pub fn in_range(price: Price) -> bool
    ensures { result ≡ price_fits price }
{
    matches!(price.en, 1..=255) && matches!(price.em, 1..=255) && matches!(price.f, 1..=65535)
}

// The rates of a price: a new entry costs F × EN, a match F × EM, and a stored byte 256.
pub fn rates_of(price: Price) -> Rates
    ensures { result ≡ rates_of price }
{
    let fresh = index_cost(IndexBytes(u64::from(price.en)), price.f);
    let kept = index_cost(IndexBytes(u64::from(price.em)), price.f);
    let byte = disk_cost(DiskBytes(1));
    Rates { fresh, kept, byte }
}

// What so many stored bytes cost.
pub fn storing(rates: Rates, bytes: u32) -> Cost
    requires { RatesFit rates }
    ensures { Storing rates bytes result }
{
    Cost(rates.byte.0 * u64::from(bytes))
}

// 1 for a new record, 0 for a match: two arms, which a test turned into a number would not shorten.
fn one_if_new(record: Record) -> u64
    ensures { (result ≡ news («record» ∷ [])) × (result ≤ 1) }
{
    match record {
        Record::New(_) => 1,
        Record::Match(_, _) => 0,
    }
}

// The new entries of a list.
fn tally(list: &[u8]) -> u64
    requires { length list.now ≤ list_most }
    ensures { Tallied list.now result }
{
    let mut count: u64 = 0;
    for i in 0..list.len() / 12 {
        count += one_if_new(format::record_at(list, i));
    }
    count
}

// What so many entries of one kind cost.
fn entries_cost(rate: Cost, n: u64) -> Cost
    requires { (rate.0 ≤ entry_most) × (n ≤ records_most) }
    ensures { (result.0 ≡ rate.0 * n) × (result.0 ≤ entry_most * records_most) }
{
    Cost(rate.0 * n)
}

// The cost of so many entries, of which so many are new, and of so many stored bytes.
pub fn cost_by(rates: Rates, entries: u64, fresh: u64, stored: u32) -> Cost
    requires { Counted rates entries fresh }
    ensures { result.0 ≡ rates.fresh.0 * fresh + rates.kept.0 * (entries - fresh) + rates.byte.0 * stored }
{
    let news = entries_cost(rates.fresh, fresh);
    let matches = entries_cost(rates.kept, entries - fresh);
    let bytes = storing(rates, stored);
    Cost(news.0 + matches.0 + bytes.0)
}

// The cost of a list that has so many stored bytes.
pub fn cost_of(rates: Rates, list: &[u8], stored: u32) -> Cost
    requires { Countable rates list.now stored }
    ensures { result.0 ≡ cost rates (records_of list.now) }
{
    let fresh = tally(list);
    cost_by(rates, (list.len() / 12) as u64, fresh, stored)
}
