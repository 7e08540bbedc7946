// The program `partition`: reads the files price, items, version and store of the folder where it is run, and writes its text. Here it is run
// on sheet C (clause 10.1 of docs/SPECIFICATION.md).
#![tactic(auto)]

use report::Text;
use std::io;

fn main(rt: HostRuntime) -> io::Result<()> {
    let mut price = [0; 65536];
    let mut items = [0; 65536];
    let mut version = [0; 65536];
    let mut store = [0; 65536];
    // Room for the text of any list in a file of 65,536 bytes.
    let mut area = [0; 262144];
    let mut text = Text::new(&mut area);
    program::text_of_run(
        console::read_file(&rt, b"price", &mut price),
        console::read_file(&rt, b"items", &mut items),
        console::read_file(&rt, b"version", &mut version),
        console::read_file(&rt, b"store", &mut store),
        &mut text,
    );
    let written = text.bytes();
    console::write(&mut rt.stdout(), written, written.len())
}
