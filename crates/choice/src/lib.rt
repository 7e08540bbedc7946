// What a choice makes of a record, and what a record adds to the cost of a list.
#![tactic(auto)]

ghost use Rattle.std.specs.Prelude.{◌≡◌, ◌≤◌};
ghost use Rattle.price.specs.Price.{RatesFit, entry_most, storing_most};
ghost use Rattle.choice.specs.Choice.{bit_of, chosen_record};
ghost use Rattle.choice.specs.Path.{entry_of, bytes_in, Adds};

use format::Record;
use join::Open;
use price::{Cost, Rates};

// A record by its choice byte: a stored match becomes a new record. A byte and not an enum, as the C interface hands it in.
pub fn chosen(record: Record, bit: u8) -> Record
    ensures { result ≡ chosen_record (bit_of bit) «record» }
{
    if bit == 0 {
        record
    } else {
        Record::New(format::size_of(record))
    }
}

// What an entry costs, by its kind.
fn entry_of(rates: Rates, record: Record) -> Cost
    requires { RatesFit rates }
    ensures { (result.0 ≡ entry_of rates «record») × (result.0 ≤ entry_most) }
{
    match record {
        Record::New(_) => rates.fresh,
        Record::Match(_, _) => rates.kept,
    }
}

// What the stored bytes of an entry cost.
fn bytes_in(rates: Rates, record: Record) -> Cost
    requires { RatesFit rates }
    ensures { (result.0 ≡ bytes_in rates «record») × (result.0 ≤ storing_most) }
{
    match record {
        Record::New(size) => price::storing(rates, size),
        Record::Match(_, _) => Cost(0),
    }
}

// What a record adds to the cost after the one before it: an entry, unless the two join, and its stored bytes.
pub fn added(rates: Rates, before: Open, record: Record) -> Cost
    requires { RatesFit rates }
    ensures { Adds rates before «record» result }
{
    let bytes = bytes_in(rates, record);
    if join::follows(before, record) {
        return bytes;
    }
    Cost(entry_of(rates, record).0 + bytes.0)
}
