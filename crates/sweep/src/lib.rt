// The least choice of a list, by two sweeps: linear time, and no memory beyond the lent choice area and a few numbers.
//
// From the rear: the least cost of what follows a kept and a stored record, and for each record two bits, what to do after either. A record is priced
// by the one before it, which it may join (crate `choice`); which way is better is said in the crate `weigh`.
// From the front: each pair of bits becomes the choice byte.
#![tactic(auto)]

ghost use Rattle.std.specs.Prelude.{◌≡◌, ◌*◌, ◌/◌, ◌≤◌, length};
ghost use Rattle.sweep.specs.Sweep.{before_at, Room, Back, next_bit, forwards, LeastIn};

use join::Open;
use price::{Cost, Rates};

// The record before record i, if there is one.
fn before_at(list: &[u8], i: usize) -> Open
    requires { 12 * i ≤ length list.now }
    ensures { result ≡ before_at list.now i }
{
    if i == 0 {
        None
    } else {
        Some(format::record_at(list, i - 1))
    }
}

// The sweep from the rear: the two bits of each record, and the least cost of all. n is the number of records, as the lent choice area may be longer.
fn backwards(rates: Rates, list: &[u8], n: usize, choice: &mut [u8]) -> Cost
    requires { Room rates list.now n choice.old }
    ensures { Back rates list.now n choice.old choice.new result.0 }
{
    let mut kept = Cost(0);
    let mut stored = Cost(0);
    for i in (0..n).rev() {
        let t = weigh::weigh(
            rates,
            before_at(list, i),
            format::record_at(list, i),
            kept,
            stored,
        );
        choice[i] = t.hint;
        kept = t.kept;
        stored = t.stored;
    }
    kept
}

// The bit after the bit b, of the two in h: numbers and not enums, as the lent choice area is the only memory for both.
fn next_bit(b: u8, h: u8) -> u8
    ensures { result ≡ next_bit b h }
{
    if b == 0 { h % 2 } else { h / 2 % 2 }
}

// The sweep from the front: of each pair of bits, the one that follows from the bit before.
fn settle(n: usize, choice: &mut [u8])
    requires { n ≤ length choice.old }
    ensures { choice.new ≡ forwards n 0 choice.old }
{
    let mut b: u8 = 0;
    for i in 0..n {
        b = next_bit(b, choice[i]);
        choice[i] = b;
    }
}

// The least choice, one byte for each record, and the cost of its list.
pub fn least_choice(rates: Rates, list: &[u8], choice: &mut [u8]) -> Cost
    requires { Room rates list.now (length list.now / 12) choice.old }
    ensures { LeastIn rates list.now choice.old choice.new result.0 }
{
    let n = list.len() / 12;
    let cost = backwards(rates, list, n, choice);
    settle(n, choice);
    cost
}
