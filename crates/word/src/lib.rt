// One word of eight bytes, and one byte: whether two lists hold the same there.
//
// Not here: stretches of any length (crate `words`).
#![tactic(auto)]

ghost use Rattle.std.specs.Prelude.{◌≡◌, ◌+◌, ◌≤◌, ◌<◌, length, take, drop};
ghost use Rattle.word.specs.Word.{word_of, eight_at, Tells};

// The word of the eight bytes from i on; the compiler makes one load of it.
fn word_at(s: &[u8], i: usize) -> u64
    requires { i + 8 ≤ length s.now }
    ensures { result ≡ word_of (eight_at s.now i) }
{
    u64::from_le_bytes([
        s[i],
        s[i + 1],
        s[i + 2],
        s[i + 3],
        s[i + 4],
        s[i + 5],
        s[i + 6],
        s[i + 7],
    ])
}

// Whether the eight bytes from i on are the same, by their words.
pub fn same_word(a: &[u8], b: &[u8], i: usize) -> bool
    requires { (i + 8 ≤ length a.now) × (i + 8 ≤ length b.now) }
    ensures { Tells result (take 8 (drop i a.now)) (take 8 (drop i b.now)) }
{
    word_at(a, i) == word_at(b, i)
}

// Whether the byte at i is the same.
pub fn same_byte(a: &[u8], b: &[u8], i: usize) -> bool
    requires { (i < length a.now) × (i < length b.now) }
    ensures { Tells result (take 1 (drop i a.now)) (take 1 (drop i b.now)) }
{
    a[i] == b[i]
}
