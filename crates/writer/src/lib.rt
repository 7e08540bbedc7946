// Writing what a choice makes of a list: its list, its stored block, and the figures of both.
#![tactic(auto)]

ghost use Rattle.writer.specs.Write.{RunReady, RunOf, ListReady, ListWritten, BlockReady, BlockWritten};
ghost use Rattle.writer.specs.Decide.{Finishable, Finished};

use emit::Emitter;
use format::{Answer, Figures, Record};
use price::Rates;

// An entry of the choice's list before it joins another, and the record after those that it stands for.
#[derive(Clone, Copy, Debug, PartialEq, Eq)]
pub struct Run {
    pub entry: Record,
    pub next: usize,
}

// What becomes of record i: it is kept, or one new record stands for it and for all that are stored after it.
fn run_at(list: &[u8], choice: &[u8], n: usize, i: usize) -> Run
    requires { RunReady list.now choice.now n i }
    ensures { RunOf list.now choice.now n i result }
{
    let first = format::record_at(list, i);
    if choice[i] == 0 {
        return Run {
            entry: first,
            next: i + 1,
        };
    }
    let mut size = format::size_of(first);
    for k in i + 1..n {
        if choice[k] == 0 {
            return Run {
                entry: Record::New(size),
                next: k,
            };
        }
        size += format::size_of(format::record_at(list, k));
    }
    Run {
        entry: Record::New(size),
        next: n,
    }
}

// The list of the choice, over the front of the area; gives its length in bytes. It goes from run to run, and these are of any length, so no `for` fits.
fn write_list(list: &[u8], choice: &[u8], list_area: &mut [u8]) -> usize
    requires { ListReady list.now choice.now list_area.old }
    ensures { ListWritten list.now choice.now list_area.old list_area.new result }
{
    let n = list.len() / 12;
    let mut written = Emitter::new(list_area);
    let mut i = 0;
    while i < n {
        let r = run_at(list, choice, n, i);
        written.emit(r.entry);
        i = r.next;
    }
    written.flush()
}

// The length of a stored block, and the new entries of its list.
#[derive(Clone, Copy, Debug, PartialEq, Eq)]
pub struct Stored {
    pub bytes: usize,
    pub fresh: u64,
}

// The stored block of a list, over the front of the area. Of the list that was written, as that has fewer records: what joins is copied at once.
fn write_block(list: &[u8], version: &[u8], block_area: &mut [u8]) -> Stored
    requires { BlockReady list.now version.now block_area.old }
    ensures { BlockWritten list.now version.now block_area.old block_area.new result }
{
    let mut at = 0;
    let mut out = 0;
    let mut fresh: u64 = 0;
    for i in 0..list.len() / 12 {
        let record = format::record_at(list, i);
        let from = at;
        at += format::size_of(record) as usize;
        if let Record::New(_) = record {
            let part = &version[from..at];
            area::put(block_area, out, part);
            out += part.len();
            fresh += 1;
        }
    }
    Stored { bytes: out, fresh }
}

// The end of a call: the list and the stored block of the choice, each over the front of its area, and their figures.
pub fn finish(
    rates: Rates,
    list: &[u8],
    choice: &[u8],
    version: &[u8],
    list_area: &mut [u8],
    block_area: &mut [u8],
    looks: u32,
) -> Answer
    requires { Finishable rates list.now choice.now version.now list_area.old block_area.old }
    ensures { Finished rates list.now choice.now version.now looks list_area.old block_area.old result list_area.new block_area.new }
{
    let n = write_list(list, choice, list_area);
    let block = write_block(&list_area[..n], version, block_area);
    let stored = block.bytes as u32;
    let cost = price::cost_by(rates, (n / 12) as u64, block.fresh, stored);
    Ok(Figures {
        cost: cost.0,
        entries: (n / 12) as u32,
        stored,
        looks,
        ..Figures::default()
    })
}
