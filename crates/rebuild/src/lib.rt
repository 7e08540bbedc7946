// The call rebuild: the version that a list, its stored block and the store stand for.
#![tactic(auto)]

ghost use Rattle.std.specs.Prelude.{◌≡◌};
ghost use Rattle.format.specs.Record.{records_of};
ghost use Rattle.format.specs.Meaning.{whole};
ghost use Rattle.rebuild.specs.Rebuild.{rebuild_answer, rebuild_area, Ready, filled};

use format::{Answer, Fault, need};

// Copies what each record stands for, one after the other; the answer is how many bytes those are.
pub fn fill(list: &[u8], block: &[u8], store: &[u8], area: &mut [u8]) -> usize
    requires { Ready list.now block.now store.now area.old }
    ensures length_is { result ≡ whole (records_of list.now) }
    ensures area_after { area.new ≡ filled list.now block.now store.now area.old }
{
    let mut used = 0;
    let mut out = 0;
    for i in 0..list.len() / 12 {
        let record = format::record_at(list, i);
        let part = show::part_of(record, used, block, store);
        area::put(area, out, part);
        out += part.len();
        used = show::stored_after(record, used);
    }
    out
}

// Rebuild: the version's bytes, from the list, its stored block and the store.
pub fn rebuild(list: &[u8], block: &[u8], store: &[u8], area: &mut [u8]) -> Answer
    ensures answered { result ≡ rebuild_answer list.now block.now store.now area.old }
    ensures area_after { area.new ≡ rebuild_area list.now block.now store.now area.old }
{
    let w = show::accept(list, block, store);
    let Ok(t) = w else {
        return Err(w.unwrap_err());
    };
    need(t.whole as usize <= area.len(), Fault::AreaTooShort)?;
    fill(list, block, store, area);
    format::length_only(t.whole)
}
