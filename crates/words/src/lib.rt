// Whether two stretches hold the same bytes, eight bytes together.
//
// In order: a run of words; up to seven bytes; the first and the last words, blocks of eight words; whole words; stretches.
// That both stretches are as long is a clause of each function: it is of the two, and no type of one keeps it.
// Not here: one word, one byte (crate `word`); which stretches are compared (crates `walk` and `compare`).
#![tactic(auto)]

ghost use Rattle.std.specs.Prelude.{◌≡◌, ◌+◌, ◌*◌, ◌%◌, ◌≤◌, length, take, drop};
ghost use Rattle.word.specs.Word.{Tells};
ghost use Rattle.words.specs.Same.{same_bytes};

// Whether the N words from i on are the same, with no exit between them, so that the compiler takes them together.
fn same_run<const N: usize>(a: &[u8], b: &[u8], i: usize) -> bool
    requires { (i + 8 * N ≤ length a.now) × (i + 8 * N ≤ length b.now) }
    ensures { Tells result (take (8 * N) (drop i a.now)) (take (8 * N) (drop i b.now)) }
{
    let mut all = true;
    for k in 0..N {
        all &= word::same_word(a, b, i + 8 * k);
    }
    all
}

// Whether stretches of up to seven bytes are the same. Where there are fewer, the last is compared again: on lengths at random seven steps took less
// time than a loop that ends with the bytes.
fn same_bytes(a: &[u8], b: &[u8]) -> bool
    requires { (length a.now ≡ length b.now) × (length a.now ≤ 7) }
    ensures { Tells result a.now b.now }
{
    if a.is_empty() {
        return true;
    }
    let last = a.len() - 1;
    let mut all = true;
    for k in 0..7 {
        all &= word::same_byte(a, b, last.min(k));
    }
    all
}

// Whether stretches of N to 2 * N words are the same: the first N and the last N, which may overlap.
fn same_ends<const N: usize>(a: &[u8], b: &[u8]) -> bool
    requires { (length a.now ≡ length b.now) × (8 * N ≤ length a.now) × (length a.now ≤ 16 * N) }
    ensures { Tells result a.now b.now }
{
    same_run::<N>(a, b, 0) & same_run::<N>(a, b, a.len() - 8 * N)
}

// Whether stretches of eight words and more are the same: the last block, and then block by block from the front, of which the last may be compared
// again in part. Ends at the first block that differs. With the last block first, stretches of 4 KiB took less time, likely as it lies in another page
// of memory. The loop counts by hand: a `for` by `step_by`, or over the number of blocks, took up to 1.4 times as long on stretches of 1 KiB.
fn same_blocks(a: &[u8], b: &[u8]) -> bool
    requires { (length a.now ≡ length b.now) × (64 ≤ length a.now) }
    ensures { Tells result a.now b.now }
{
    let last = a.len() - 64;
    if !same_run::<8>(a, b, last) {
        return false;
    }
    let mut i = 0;
    while i < last {
        if !same_run::<8>(a, b, i) {
            return false;
        }
        i += 64;
    }
    true
}

// Whether stretches of whole words are the same.
fn same_words(a: &[u8], b: &[u8]) -> bool
    requires { (length a.now ≡ length b.now) × (length a.now % 8 ≡ 0) }
    ensures { Tells result a.now b.now }
{
    match a.len() {
        0 => true,
        1..=15 => word::same_word(a, b, 0),
        16..=31 => same_ends::<2>(a, b),
        32..=63 => same_ends::<4>(a, b),
        _ => same_blocks(a, b),
    }
}

// Whether two stretches hold the same bytes, as clauses 13.8 to 13.10 ask, for which `==` is not made: words where eight bytes remain, then single bytes.
pub fn same(a: &[u8], b: &[u8]) -> bool
    ensures { result ≡ same_bytes a.now b.now }
{
    if a.len() != b.len() {
        return false;
    }
    let i = a.len() - a.len() % 8;
    same_words(&a[..i], &b[..i]) && same_bytes(&a[i..], &b[i..])
}
