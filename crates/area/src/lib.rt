// Writing into an area that a caller lends: some bytes over those from a place on, the rest unchanged.
//
// 8 to 1024 bytes are copied by blocks of 8 to 64, for speed: the compiled loop over single bytes ends in steps of other sizes,
// and a processor cannot foresee how many of each there will be. Below 64 bytes there are two blocks, the first and the last bytes.
#![tactic(auto)]

ghost use Rattle.std.specs.Prelude.{◌≡◌, ◌+◌, ◌≤◌, length, take, drop};
ghost use Rattle.area.specs.Area.{pasted};

// Copies `src` in one loop. Where its length is a constant, the loop is compiled away: so for what is built in a local array.
// A loop of our own, since the kit's `copy_from_slice` asks for `memmove`; by index, since with `iter_mut` and `zip` the area is lent to the iterator,
// and an invariant cannot speak of what it holds so far.
pub fn put_plain(area: &mut [u8], at: usize, src: &[u8])
    requires { at + length src.now ≤ length area.old }
    ensures { area.new ≡ pasted at src.now area.old }
{
    for (i, byte) in src.iter().enumerate() {
        area[at + i] = *byte;
    }
}

// The N bytes from i on: a block, which is read whole before it is written, so that a copy can be compiled to loads and then stores.
fn block_at<const N: usize>(src: &[u8], i: usize) -> [u8; N]
    requires { i + N ≤ length src.now }
    ensures { result ≡ take N (drop i src.now) }
{
    let mut block = [0u8; N];
    put_plain(&mut block, 0, &src[i..i + N]);
    block
}

// Copies `src` by blocks of N; the last N bytes are copied whether or not some of them stand there already.
fn put_blocks<const N: usize>(area: &mut [u8], at: usize, src: &[u8])
    requires { (1 ≤ N) × (N ≤ length src.now) × (at + length src.now ≤ length area.old) }
    ensures { area.new ≡ pasted at src.now area.old }
{
    for k in 0..src.len() / N {
        put_plain(area, at + N * k, &block_at::<N>(src, N * k));
    }
    let last = src.len() - N;
    let block = block_at::<N>(src, last);
    put_plain(area, at + last, &block);
}

// Copies `src` over the bytes of `area` from `at` on. The short loop and the long one are two arms: as one they are compiled together, and the short
// one takes longer.
pub fn put(area: &mut [u8], at: usize, src: &[u8])
    requires { at + length src.now ≤ length area.old }
    ensures { area.new ≡ pasted at src.now area.old }
{
    match src.len() {
        0..=7 => put_plain(area, at, src),
        8..=15 => put_blocks::<8>(area, at, src),
        16..=31 => put_blocks::<16>(area, at, src),
        32..=63 => put_blocks::<32>(area, at, src),
        64..=1024 => put_blocks::<64>(area, at, src),
        _ => put_plain(area, at, src),
    }
}
