// The text of the program `partition`, for what was read of the files price, items, version and store.
//
// The first bad file, in that order, is named, and nothing else is written. Reading is in the crate `console`.
#![tactic(auto)]

ghost use Rattle.report.specs.Text.{Wrote};
ghost use Rattle.program.specs.Run.{file_in, run_text, Loaded};

use report::Text;

// The text of a run, by what was read of the four files; nothing of a file that is bad.
pub fn text_of_run(
    price: Option<&[u8]>,
    items: Option<&[u8]>,
    version: Option<&[u8]>,
    store: Option<&[u8]>,
    text: &mut Text<'_>,
)
    requires { Loaded (file_in items) (file_in version) text.old }
    ensures { Wrote text.old (run_text (file_in price.entry) (file_in items.entry) (file_in version.entry) (file_in store.entry)) text.new }
{
    let Some(price) = price.and_then(console::price_in) else {
        return report::bad_file(text, b"price");
    };
    let Some(items) = items else {
        return report::bad_file(text, b"items");
    };
    let Some(version) = version else {
        return report::bad_file(text, b"version");
    };
    let Some(store) = store else {
        return report::bad_file(text, b"store");
    };
    listing::text_of_held(price, items, version, store, text);
}
