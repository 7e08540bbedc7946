// The cases of show, which has no C call: prints the part that a record stands for, in brackets. The store is the letters A to T; what is
// expected is worked out by hand from section 4.5 of docs/SPECIFICATION.md.
#![tactic(auto)]

use std::io;

const STORE: &[u8] = b"ABCDEFGHIJKLMNOPQRST";

// N5 M5@15 N3: with the stored block abcdefgh it is abcdePQRSTfgh.
const LIST: &[u8] =
    b"\0\0\0\0\x05\0\0\0\0\0\0\0\x01\0\0\0\x05\0\0\0\x0f\0\0\0\0\0\0\0\x03\0\0\0\0\0\0\0";

// The same without its last byte, written out: a constant cannot borrow a range of another yet.
const SHORT: &[u8] =
    b"\0\0\0\0\x05\0\0\0\0\0\0\0\x01\0\0\0\x05\0\0\0\x0f\0\0\0\0\0\0\0\x03\0\0\0\0\0\0";

// M3@0 N1 M2@7.
const MATCHES: &[u8] =
    b"\x01\0\0\0\x03\0\0\0\0\0\0\0\0\0\0\0\x01\0\0\0\0\0\0\0\x01\0\0\0\x02\0\0\0\x07\0\0\0";

// M3@0 held, N1, M2@7 held.
const HELD: &[u8] =
    b"\x01\x01\0\0\x03\0\0\0\0\0\0\0\0\0\0\0\x01\0\0\0\0\0\0\0\x01\x01\0\0\x02\0\0\0\x07\0\0\0";

// N5 M5@15, with a mark on the new record.
const MARKED_NEW: &[u8] = b"\0\x01\0\0\x05\0\0\0\0\0\0\0\x01\0\0\0\x05\0\0\0\x0f\0\0\0";

// M5@15, with a byte 1 of 2.
const MARK_OF_2: &[u8] = b"\x01\x02\0\0\x05\0\0\0\x0f\0\0\0";

// N5 M5@16, which runs beyond the store.
const BEYOND: &[u8] = b"\0\0\0\0\x05\0\0\0\0\0\0\0\x01\0\0\0\x05\0\0\0\x10\0\0\0";

// A case: its name, the list, the stored block, and which record's part is shown.
struct Case(&'static str, &'static [u8], &'static [u8], u32);

// The parts that records stand for; then the empty part where check refuses.
const CASES: [Case; 16] = [
    Case("a new record", LIST, b"abcdefgh", 0),
    Case("a match", LIST, b"abcdefgh", 1),
    Case("a later new record", LIST, b"abcdefgh", 2),
    Case("a match at 0", MATCHES, b"a", 0),
    Case("a later match", MATCHES, b"a", 2),
    Case("a held match at 0", HELD, b"a", 0),
    Case("a new record between held matches", HELD, b"a", 1),
    Case("a later held match", HELD, b"a", 2),
    Case("no record 3", LIST, b"abcdefgh", 3),
    Case("a block one byte short", LIST, b"abcdefg", 0),
    Case("a block one byte longer", LIST, b"abcdefghi", 0),
    Case("record 1 beyond the store", BEYOND, b"abcde", 0),
    Case("a mark on a new record", MARKED_NEW, b"abcde", 1),
    Case("a byte 1 of 2", MARK_OF_2, b"", 0),
    Case("a list of 35 bytes", SHORT, b"abcdefgh", 0),
    Case("no records", b"", b"", 0),
];

fn main(rt: HostRuntime) -> io::Result<()> {
    for case in &CASES {
        let Case(name, list, block, k) = *case;
        print!(rt; "{name} [")?;
        rt.write_all(show::show(list, block, STORE, k))?;
        println!(rt; "]")?;
    }
    Ok(())
}
