// A volume, rebuilt chunk by chunk into one area: the store of a chunk is what stands there before it.
//
// In order: an index record; a chunk; the volume.
// Not here: the checks (crate `rebuild_volume`).
#![tactic(auto)]

ghost use Rattle.std.specs.Prelude.{◌≡◌, ◌+◌, ◌*◌, ◌≤◌, length};
ghost use Rattle.volume.specs.Volume.{index_row_at};
ghost use Rattle.volume.specs.Filling.{ChunkReady, ChunkFilled, VolumeReady, volume_filled};

// An index record: the bytes of a chunk's list, and of its stored block.
#[derive(Clone, Copy, Debug, PartialEq, Eq)]
pub struct IndexRow {
    pub list: u32,
    pub block: u32,
}

// Index record i.
pub fn index_row_at(index: &[u8], i: usize) -> IndexRow
    requires { 8 * i + 8 ≤ length index.now }
    ensures { result ≡ index_row_at index.now i }
{
    let at = 8 * i;
    IndexRow {
        list: format::word_at(index, at),
        block: format::word_at(index, at + 4),
    }
}

// Rebuilds a chunk behind the first `at` bytes, which are its store: the store and the room for the chunk are the two parts of the area. The answer is
// where the chunk ends.
fn fill_chunk(list: &[u8], block: &[u8], area: &mut [u8], at: usize) -> usize
    requires { ChunkReady list.now block.now area.old at }
    ensures { ChunkFilled list.now block.now area.old at result area.new }
{
    let (store, rest) = area.split_at_mut(at);
    at + rebuild::fill(list, block, store, rest)
}

// Rebuilds a volume, chunk by chunk. The chunks are cut as in `rebuild_volume::accept_chunks`, which may refuse one: as one function they would be no
// shorter.
pub fn fill_volume(index: &[u8], lists: &[u8], blocks: &[u8], area: &mut [u8])
    requires { VolumeReady index.now lists.now blocks.now area.old }
    ensures { area.new ≡ volume_filled index.now lists.now blocks.now area.old }
{
    let mut l = 0;
    let mut b = 0;
    let mut at = 0;
    for i in 0..index.len() / 8 {
        let row = index_row_at(index, i);
        let to = l + row.list as usize;
        let end = b + row.block as usize;
        at = fill_chunk(&lists[l..to], &blocks[b..end], area, at);
        l = to;
        b = end;
    }
}
