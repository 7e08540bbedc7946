// The text of the program `partition`, made in a lent area: the written records, one line of figures; or a refusal; or the name of a bad file.
#![tactic(auto)]

ghost use Rattle.std.specs.Prelude.{◌≡◌, ◌+◌, ◌*◌, ◌/◌, ◌≤◌, length, take};
ghost use Rattle.format.specs.Record.{records_of};
ghost use Rattle.report.specs.Text.{decimal, field, last_field, record_text, records_text, least_text, pass_text, report_text, refusal_text, bad_file_text, HasRoom, Wrote};

use format::{Figures, Record, Refusal};

// A text at the front of a lent area.
// It has methods of its own, and no `write!`: that answers a `Result`, and promises its text only where this is `Ok`.
#[derive(Drop)]
pub struct Text<'a> {
    area: &'a mut [u8],
    len: usize,
}

impl<'a> Text<'a> {
    // An empty text.
    pub fn new(area: &'a mut [u8]) -> Text<'a>
        ensures same_area { result.area.ghost_name ≡ area.entry.ghost_name }
        ensures as_lent { result.area.now ≡ area.old }
        ensures empty { result.len ≡ 0 }
    {
        Text { area, len: 0 }
    }

    // The bytes of the text.
    pub fn bytes(&self) -> &[u8]
        requires { self.now.len ≤ length self.now.area.now }
        ensures { result.now ≡ take self.now.len self.now.area.now }
    {
        &self.area[..self.len]
    }

    // Puts bytes at the end.
    fn push(&mut self, bytes: &[u8])
        requires { HasRoom self.old bytes.now }
        ensures { Wrote self.old bytes.now self.new }
    {
        area::put(self.area, self.len, bytes);
        self.len += bytes.len();
    }

    // Puts a number in decimal at the end.
    fn push_number(&mut self, n: u64)
        requires { HasRoom self.old (decimal n) }
        ensures { Wrote self.old (decimal n) self.new }
    {
        let mut digits = [0u8; 20];
        let k = io::decimal(n, &mut digits);
        self.push(&digits[..k]);
    }

    // Puts a word and a number after it at the end.
    fn push_field(&mut self, word: &[u8], n: u64)
        requires { HasRoom self.old (field word.now n) }
        ensures { Wrote self.old (field word.now n) self.new }
    {
        self.push(word);
        self.push_number(n);
    }

    // The same at the end of a line.
    fn push_last(&mut self, word: &[u8], n: u32)
        requires { HasRoom self.old (last_field word.now n) }
        ensures { Wrote self.old (last_field word.now n) self.new }
    {
        self.push_field(word, u64::from(n));
        self.push(b"\n");
    }

    // The line of a record.
    fn push_record(&mut self, record: Record)
        requires { HasRoom self.old (record_text «record») }
        ensures { Wrote self.old (record_text «record») self.new }
    {
        match record {
            Record::New(size) => self.push_last(b"N ", size),
            Record::Match(size, source) => {
                self.push_field(b"M ", u64::from(size));
                self.push_last(b" ", source.address);
            }
        }
    }

    // The lines of a list's records.
    fn push_records(&mut self, list: &[u8])
        requires { HasRoom self.old (records_text (records_of list.now)) }
        ensures { Wrote self.old (records_text (records_of list.now)) self.new }
    {
        for i in 0..list.len() / 12 {
            self.push_record(format::record_at(list, i));
        }
    }

    // Partition's part of the line of figures.
    fn push_least(&mut self, x: Figures)
        requires { HasRoom self.old (least_text x) }
        ensures { Wrote self.old (least_text x) self.new }
    {
        self.push_field(b"cost ", x.cost);
        self.push_field(b" entries ", u64::from(x.entries));
        self.push_field(b" bytes ", u64::from(x.stored));
    }

    // The pass's part, which ends the line.
    fn push_pass(&mut self, y: Figures)
        requires { HasRoom self.old (pass_text y) }
        ensures { Wrote self.old (pass_text y) self.new }
    {
        self.push_field(b" pass ", y.cost);
        self.push_last(b" steps ", y.looks);
    }
}

// Each written record, then the line of figures.
pub fn report(text: &mut Text<'_>, list: &[u8], x: Figures, y: Figures)
    requires { text.old.len + 44 * (length list.now / 12) + 160 ≤ length text.old.area.now }
    ensures { Wrote text.old (report_text (records_of list.now) x y) text.new }
{
    text.push_records(list);
    text.push_least(x);
    text.push_pass(y);
}

// A refusal.
pub fn refusal(text: &mut Text<'_>, r: Refusal)
    requires { text.old.len + 160 ≤ length text.old.area.now }
    ensures { Wrote text.old (refusal_text r) text.new }
{
    text.push_field(b"refused ", u64::from(u32::from(r.fault)));
    text.push_last(b" at ", r.place);
}

// The name of a bad file.
pub fn bad_file(text: &mut Text<'_>, name: &[u8])
    requires { text.old.len + length name.now + 160 ≤ length text.old.area.now }
    ensures { Wrote text.old (bad_file_text name.now) text.new }
{
    text.push(b"bad file ");
    text.push(name);
    text.push(b"\n");
}
