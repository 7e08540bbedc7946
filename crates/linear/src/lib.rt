// The pass: a list goes onto the machine, its runs joined; the looks are made; and the choice that the last list stands for is read off.
//
// In order: a list loaded; a choice read off; the pass.
// Not here: the looks (the crate machine), and what is refused. Callers hand in lists that were accepted.
#![tactic(auto)]

ghost use Rattle.std.specs.Prelude.{◌≡◌, ◌+◌, ◌*◌, ◌≤◌, ◌<◌, length};
ghost use Rattle.format.specs.Limits.{version_most, list_most};
ghost use Rattle.format.specs.Record.{row_at, record_of, records_of, records_from};
ghost use Rattle.format.specs.Meaning.{whole};
ghost use Rattle.join.specs.Join.{joins_first, tidy};
ghost use Rattle.choice.specs.Choice.{bit_byte, bit_bytes};
ghost use Rattle.area.specs.Area.{over};
ghost use Rattle.rules.specs.Rules.{item_of};
ghost use Rattle.machine.specs.Machine.{Loaded};
ghost use Rattle.linear.specs.Pass.{items, bit_for, choice_of, Passable, PassIn};
ghost use Rattle.linear.specs.Carried.{kind_of, end_of, Covering};

use format::Record;
use machine::Machine;
use price::Rates;
use rules::{Cell, Kind};

// The kind of a record: a held match is of neither.
fn kind_of(record: Record) -> Kind
    ensures { result ≡ kind_of «record» }
{
    match record {
        Record::New(_) => Kind::New,
        Record::Match(_, source) if source.held => Kind::Neither,
        Record::Match(_, _) => Kind::Match,
    }
}

// Whether record i of n joins the next one.
#[tactic(auto, using(format::proofs::Rows::records_from_next))]
fn joins_next(list: &[u8], n: usize, i: usize) -> bool
    requires { (i < n) × (12 * n ≤ length list.now) }
    ensures { result ≡ joins_first (record_of (row_at list.now i)) (records_from list.now n (i + 1)) }
{
    i + 1 < n && join::joins(format::record_at(list, i), format::record_at(list, i + 1))
}

// A list before the pass, each run of records that join as one: the front mark at place 0, the records in the last places before the rear mark, p at
// the first of them.
fn load(list: &[u8]) -> Machine
    requires { (length list.now ≤ list_most) × (whole (records_of list.now) ≤ version_most) }
    ensures { Loaded result (items (tidy (records_of list.now))) }
{
    let n = list.len() / 12;
    let mut loaded = Machine {
        kinds: [Kind::Neither; machine::PLACES],
        sizes: [0; machine::PLACES],
        left: 1,
        right: machine::REAR,
    };
    for i in (0..n).rev() {
        let record = format::record_at(list, i);
        let mut size = format::size_of(record);
        if joins_next(list, n, i) {
            size += loaded.cell(loaded.right).size;
        } else {
            loaded.right -= 1;
        }
        let at = loaded.right;
        let kind = kind_of(record);
        loaded.store(at, Cell { kind, size });
    }
    loaded
}

// The choice byte of a record that an item of this kind covers.
fn bit_of(kind: Kind) -> u8
    ensures { result ≡ bit_byte (bit_for (item_of kind 0)) }
{
    u8::from(kind == Kind::New)
}

// Writes one choice byte for each record, in one traversal of the records and of the last list's items, by their sizes.
fn read_off(machine: &Machine, list: &[u8], choice: &mut [u8])
    requires { Covering machine.now list.now choice.old }
    ensures { choice.new ≡ over (bit_bytes (choice_of (records_of list.now) (end_of machine.now))) choice.old }
{
    let n = list.len() / 12;
    let mut at: usize = 1;
    let mut uncovered = machine.cell(1);
    for i in 0..n {
        let size = format::size_of(format::record_at(list, i));
        choice[i] = bit_of(uncovered.kind);
        if size < uncovered.size {
            uncovered.size -= size;
        } else {
            at += 1;
            uncovered = machine.cell(at);
        }
    }
}

// The pass over a list: writes its choice, one byte for each record, and returns the number of looks.
pub fn pass_choice(rates: Rates, list: &[u8], choice: &mut [u8]) -> u32
    requires { Passable rates list.now choice.old }
    ensures { PassIn rates list.now choice.old choice.new result }
{
    let mut machine = load(list);
    let looks = machine.look_through(rates);
    read_off(&machine, list, choice);
    looks
}
