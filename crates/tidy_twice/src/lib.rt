// Tidying twice as one function: it makes both calls on lent areas and returns their answers as they are. Its contract says that each is that call, and that
// the second gives what the first gave.
#![tactic(auto)]

ghost use Rattle.demand.specs.Tidying.{TwoCalls};

use demand::TwiceTidied;

// Tidy and, where that is accepted, tidy of the list that it wrote.
pub fn tidy_twice(list: &[u8], store: &[u8], first: &mut [u8], second: &mut [u8]) -> TwiceTidied
    ensures two_calls { TwoCalls list.now store.now first.old second.old result first.new second.new }
{
    let once = loose::tidy(list, store, first);
    let Ok(figures) = once else {
        return TwiceTidied { once, again: once };
    };
    let n = 12 * figures.entries as usize;
    let again = loose::tidy(&first[..n], store, second);
    TwiceTidied { once, again }
}
