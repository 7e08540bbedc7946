// The call measure: the entries, stored bytes, whole length and cost of a list.
#![tactic(auto)]

ghost use Rattle.std.specs.Prelude.{◌≡◌};
ghost use Rattle.measure.specs.Measure.{measured};

use format::{Answer, Fault, Figures, need};
use price::Price;
use walk::Scope;

// Measure: entries, stored bytes, whole length and cost of a list.
pub fn measure(price: Price, list: &[u8]) -> Answer
    ensures answered { result ≡ measured price list.now }
{
    need(price::in_range(price), Fault::Price)?;
    need(checks::list_fits(list), Fault::ListLength)?;
    let walked = walk::walk(list, &[], &[], Scope::Sizes);
    let Ok(t) = walked else {
        return Err(walked.unwrap_err());
    };
    let cost = price::cost_of(price::rates_of(price), list, t.stored);
    Ok(Figures {
        cost: cost.0,
        entries: t.entries,
        stored: t.stored,
        whole: t.whole,
        ..Figures::default()
    })
}
