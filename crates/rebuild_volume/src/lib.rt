// The call rebuild_volume: the checks of the index, of each chunk and of the area, in their order; then the volume is rebuilt.
#![tactic(auto)]

ghost use Rattle.std.specs.Prelude.{◌≡◌, ◌≤◌, length};
ghost use Rattle.format.specs.Limits.{index_most};
ghost use Rattle.volume.specs.Volume.{chunks_of};
ghost use Rattle.rebuild_volume.specs.RebuildVolume.{index_fits, volume_answer, volume_area, IndexReady, chunks_answer, SumsOf};

use format::{Answer, Fault, Refusal, need};
use walk::Scope;

// The sums of the list lengths and of the stored lengths of an index.
#[derive(Clone, Copy, Debug, PartialEq, Eq)]
pub struct Sums {
    pub lists: usize,
    pub blocks: usize,
}

// The two sums of an index. Each of up to 1,024 lengths is below 2^32, so they need 64 bits.
fn sums_of(index: &[u8]) -> Sums
    requires { length index.now ≤ index_most }
    ensures { SumsOf index.now result.lists result.blocks }
{
    let mut lists = 0;
    let mut blocks = 0;
    for i in 0..index.len() / 8 {
        let row = volume::index_row_at(index, i);
        lists += row.list as usize;
        blocks += row.block as usize;
    }
    Sums { lists, blocks }
}

// Check 14: whether the index is one, and the areas are as long as its sums. The tests of the index are those of `checks::list_fits` with other limits:
// as one function they would be no shorter.
fn index_fits(index: &[u8], lists: &[u8], blocks: &[u8]) -> bool
    ensures { result ≡ index_fits index.now lists.now blocks.now }
{
    if format::INDEX_MOST < index.len() || index.len() % 8 != 0 {
        return false;
    }
    let sums = sums_of(index);
    lists.len() == sums.lists && blocks.len() == sums.blocks
}

// The chunks one after the other: the length that they come to, or the refusal of the first at fault.
fn accept_chunks(index: &[u8], lists: &[u8], blocks: &[u8]) -> Answer
    requires { IndexReady index.now lists.now blocks.now }
    ensures { result ≡ chunks_answer (chunks_of index.now lists.now blocks.now) }
{
    let mut l = 0;
    let mut b = 0;
    let mut at: u32 = 0;
    for i in 0..index.len() / 8 {
        let row = volume::index_row_at(index, i);
        let to = l + row.list as usize;
        let end = b + row.block as usize;
        let w = show::read(&lists[l..to], &blocks[b..end], &[], Scope::Chunk(at));
        let Ok(t) = w else {
            let refusal = w.unwrap_err();
            return Err(Refusal {
                place: i as u32,
                ..refusal
            });
        };
        at += t.whole;
        l = to;
        b = end;
    }
    format::length_only(at)
}

// Rebuild_volume: the bytes of all chunks, one behind the other, from the index, the lists and the stored blocks.
pub fn rebuild_volume(index: &[u8], lists: &[u8], blocks: &[u8], area: &mut [u8]) -> Answer
    ensures answered { result ≡ volume_answer index.now lists.now blocks.now area.old }
    ensures area_after { area.new ≡ volume_area index.now lists.now blocks.now area.old }
{
    need(index_fits(index, lists, blocks), Fault::Index)?;
    let figures = accept_chunks(index, lists, blocks)?;
    need(figures.whole as usize <= area.len(), Fault::AreaTooShort)?;
    volume::fill_volume(index, lists, blocks, area);
    Ok(figures)
}
