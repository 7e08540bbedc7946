// Writing a list record by record, with one left open, so that the next may join it.
//
// In order: the bytes of a record; the emitter: its start; the next record taken in; the last one written.
#![tactic(auto)]

ghost use Rattle.std.specs.Prelude.{◌≡◌, ◌+◌, ◌≤◌, ◌<◌, length, Some, None};
ghost use Rattle.format.specs.Record.{bytes_of, encode};
ghost use Rattle.area.specs.Area.{pasted};
ghost use Rattle.join.specs.Open.{pending, open_size, flushed};
ghost use Rattle.emit.specs.Emit.{fields, Emits};

use format::Record;
use join::Open;

// The 12 bytes of a record's fields. Kind and mark are bytes, as the C interface has them.
fn record_bytes(kind: u8, mark: u8, size: u32, address: u32) -> [u8; 12]
    ensures { result ≡ fields kind mark size address }
{
    let [s0, s1, s2, s3] = size.to_le_bytes();
    let [a0, a1, a2, a3] = address.to_le_bytes();
    [kind, mark, 0, 0, s0, s1, s2, s3, a0, a1, a2, a3]
}

// The 12 bytes of a record.
fn bytes_of(record: Record) -> [u8; 12]
    ensures { result ≡ bytes_of «record» }
{
    match record {
        Record::New(size) => record_bytes(0, 0, size, 0),
        Record::Match(size, source) => record_bytes(1, u8::from(source.held), size, source.address),
    }
}

// Writes a record over the area from `out` on. In one loop: by blocks, the array's bytes would be stored and then read again as words, for which a
// processor waits.
fn put_record(area: &mut [u8], out: usize, record: Record)
    requires { out + 12 ≤ length area.old }
    ensures { area.new ≡ pasted out (bytes_of «record») area.old }
{
    area::put_plain(area, out, &bytes_of(record));
}

// A list that is being written over a lent area: the area, the place after what is written, and the record that is open. A caller may begin at any
// place and with any record open.
#[derive(Drop)]
pub struct Emitter<'a> {
    pub area: &'a mut [u8],
    pub out: usize,
    pub last: Open,
}

impl<'a> Emitter<'a> {
    // The start of a list.
    pub fn new(area: &'a mut [u8]) -> Emitter<'a>
        ensures same_area { result.area.ghost_name ≡ area.entry.ghost_name }
        ensures as_lent { result.area.now ≡ area.old }
        ensures empty { (result.out ≡ 0) × (result.last ≡ None) }
    {
        Emitter {
            area,
            out: 0,
            last: None,
        }
    }

    // Takes in the next record: it joins the open one, or the open one is written.
    pub fn emit(&mut self, record: Record)
        requires record_in_bounds { self.old.out + length (encode (flushed self.old.last «record»)) ≤ length self.old.area.now }
        requires record_bound { open_size self.old.last + open_size (Some «record») < 4294967296 }
        ensures { Emits self.old «record» self.new }
    {
        let mut open = record;
        if let Some(waiting) = self.last {
            if join::joins(waiting, record) {
                open = join::grown(waiting, format::size_of(record));
            } else {
                put_record(self.area, self.out, waiting);
                self.out += 12;
            }
        }
        self.last = Some(open);
    }

    // Writes the open record, if there is one, and gives the place after it. The emitter is taken apart first: the check does not cover
    // `self.out` where `self.area` is lent out of a value.
    pub fn flush(self) -> usize
        requires { self.out + length (encode (pending self.last)) ≤ length self.area.now }
        ensures { (result ≡ self.entry.out + length (encode (pending self.entry.last))) × (self.exit.0.now ≡ pasted self.entry.out (encode (pending self.entry.last)) self.entry.area.now) }
    {
        let Emitter { area, out, last } = self;
        let Some(waiting) = last else {
            return out;
        };
        put_record(area, out, waiting);
        out + 12
    }
}
