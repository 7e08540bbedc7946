// The text of the program `partition` for files that were all read: the list of the least choice and the figures of both calls, or a refusal.
//
// Not here: what a bad file's text is (crate `program`), and reading (crate `console`).
#![tactic(auto)]

ghost use Rattle.report.specs.Text.{Wrote};
ghost use Rattle.listing.specs.Program.{program_text, Fits};

use price::Price;
use report::Text;

// The text for files that were all read. The pass comes first, so that its areas can then be partition's.
pub fn text_of_held(price: Price, items: &[u8], version: &[u8], store: &[u8], text: &mut Text<'_>)
    requires { Fits items.now version.now text.old }
    ensures { Wrote text.old (program_text price items.now version.now store.now) text.new }
{
    // By a call, so that a proof can name what the areas hold: tried as `[0; 65536]`, it did not prove.
    let mut choice = io::large_buffer();
    let mut list = io::large_buffer();
    let mut block = io::large_buffer();
    let passed = call_pass::pass(
        price,
        items,
        version,
        store,
        &mut choice,
        &mut list,
        &mut block,
    );
    let y = match passed {
        Err(r) => return report::refusal(text, r),
        Ok(y) => y,
    };
    let answer = call_partition::partition(
        price,
        items,
        version,
        store,
        &mut choice,
        &mut list,
        &mut block,
    );
    match answer {
        Err(r) => report::refusal(text, r),
        Ok(x) => {
            let n = 12 * x.entries as usize;
            report::report(text, &list[..n], x, y);
        }
    }
}
