// The answer area of a C call: the numbers of an answer, written over its first 32 bytes.
#![tactic(auto)]

ghost use Rattle.std.specs.Prelude.{◌≡◌, ◌+◌, ◌≤◌, length};
ghost use Rattle.format.specs.Record.{word};
ghost use Rattle.area.specs.Area.{pasted};
ghost use Rattle.answer.specs.Layout.{told_of, given};

use format::Answer;

// The bytes of an answer area that an answer takes.
pub const BYTES: usize = 32;

// The numbers of an answer, in the order of the answer area of the C calls.
#[derive(Clone, Copy, Debug, Default, PartialEq, Eq)]
pub struct Told {
    pub number: u32,
    pub place: u32,
    pub cost: u64,
    pub entries: u32,
    pub stored: u32,
    pub looks: u32,
    pub whole: u32,
}

// What is told of an answer: of a call that is accepted its figures as they are, the cost in 256ths of a disk byte.
impl From<Answer> for Told {
    ghost from_gives = { λ answer told. told ≡ told_of answer };

    fn from(a: Answer) -> Told {
        match a {
            Ok(x) => Told {
                number: 0,
                place: 0,
                cost: x.cost,
                entries: x.entries,
                stored: x.stored,
                looks: x.looks,
                whole: x.whole,
            },
            Err(r) => Told {
                number: u32::from(r.fault),
                place: r.place,
                ..Told::default()
            },
        }
    }
}

// Writes a number over the 4 bytes of an area from `at` on, lowest byte first.
fn put_word(area: &mut [u8], at: usize, x: u32)
    requires { at + 4 ≤ length area.old }
    ensures { area.new ≡ pasted at (word x) area.old }
{
    area::put(area, at, &x.to_le_bytes());
}

// Writes an answer over the front of an answer area, and returns its number. The cost is two words, as the definition `layout` has it.
pub fn give(a: Answer, area: &mut [u8]) -> u32
    requires { 32 ≤ length area.old }
    ensures { (result ≡ (told_of a).number) × (area.new ≡ given a area.old) }
{
    let t = Told::from(a);
    put_word(area, 0, t.number);
    put_word(area, 4, t.place);
    put_word(area, 8, (t.cost % 4294967296) as u32);
    put_word(area, 12, (t.cost / 4294967296) as u32);
    put_word(area, 16, t.entries);
    put_word(area, 20, t.stored);
    put_word(area, 24, t.looks);
    put_word(area, 28, t.whole);
    t.number
}
