// What the program `partition` reads and writes: the files of the folder where it is run, and its text.
//
// A file that is missing, cannot be read or is longer than its buffer is bad, and so is a price not of 6 bytes.
// The text of a run is made by the crate `program`; only the reading and writing are here.
#![tactic(auto)]

ghost use Rattle.std.specs.Prelude.{◌+◌, ◌*◌, ◌≤◌, ◌≡◌, length, take, IfSome, OnOk};
ghost use Rattle.std.specs.Io.KnownBytes.{Appends, Consumes};
ghost use Rattle.io.specs.Counts.{IsPrefixLen};
ghost use Rattle.console.specs.Price.{price_in};

use price::Price;
use std::rt::Files;
use std::{fs, io, str};

// Reads until the buffer is full, the input ends or a read fails, and gives how many bytes are at the front of the buffer. The library's own calls
// fail where the buffer is not filled, or need a heap.
fn read_front<R: io::Read>(input: &mut R, buffer: &mut [u8]) -> usize
    ensures count { IsPrefixLen result buffer.new }
    ensures bytes { Consumes (R.remaining input.old) (R.remaining input.new) (take result buffer.new) }
{
    let mut done = 0;
    while done < buffer.len() {
        match input.read(&mut buffer[done..]) {
            Ok(0) | Err(_) => break,
            Ok(n) => done += n,
        }
    }
    done
}

// Reads a whole input into a buffer, and gives its bytes; nothing where it is bad.
fn read_whole<'b, R: io::Read>(input: &mut R, buffer: &'b mut [u8]) -> Option<&'b [u8]>
    ensures within { IfSome result (λ bytes. length bytes.now ≤ length buffer.old) }
    ensures whole { IfSome result (λ bytes. IfSome (R.remaining input.old) (λ held. bytes.now ≡ held)) }
{
    let done = read_front(input, buffer);
    let mut more = [0u8; 1];
    match input.read(&mut more) {
        Ok(0) => Some(&buffer[..done]),
        _ => None,
    }
}

// Reads a whole file into a buffer, and gives its bytes; nothing where it is bad. A name that is not text names no file. What a file holds, no clause
// can say.
pub fn read_file<'b, R: Files>(files: &R, name: &[u8], buffer: &'b mut [u8]) -> Option<&'b [u8]>
    ensures { IfSome result (λ bytes. length bytes.now ≤ length buffer.old) }
{
    let path = str::from_utf8(name).ok()?;
    let mut file = fs::open(files, path).ok()?;
    read_whole(&mut file, buffer)
}

// A number of 2 bytes, lowest first.
fn number(low: u8, high: u8) -> u32
    ensures { result ≡ low + 256 * high }
{
    u32::from(u16::from_le_bytes([low, high]))
}

// The price in the bytes of the file price; none where they are bad.
pub fn price_in(bytes: &[u8]) -> Option<Price>
    ensures { result ≡ price_in bytes.now }
{
    let [a, b, c, d, e, f] = *bytes else {
        return None;
    };
    Some(Price {
        en: number(a, b),
        em: number(c, d),
        f: number(e, f),
    })
}

// Writes out the first n bytes of a text. Through `io::Write`, whose `write_all` says what it appends; that of the prelude's `Print` says nothing.
pub fn write<W: io::Write>(out: &mut W, text: &[u8], n: usize) -> io::Result<()>
    requires { n ≤ length text.now }
    ensures { OnOk result (Appends (W.contents out.old) (W.contents out.new) (take n text.now)) }
{
    out.write_all(&text[..n])
}
