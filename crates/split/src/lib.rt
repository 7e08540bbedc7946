// Partition in two steps as one function: it makes an estimate and a commitment of its choice on lent areas, and returns their answers as they are. Its
// contract is partition's, and says that each is that call.
#![tactic(auto)]

ghost use Rattle.std.specs.Prelude.{◌≡◌};
ghost use Rattle.area.specs.Area.{areas};
ghost use Rattle.demand.specs.Split.{TwoCalls};

use admit::Rooms;
use demand::TwoAnswers;
use format::Answer;
use price::Price;

// The answers where one call was made: its answer twice.
fn alone(answer: Answer) -> TwoAnswers
    ensures { result ≡ record { estimated = answer; committed = answer } }
{
    TwoAnswers {
        estimated: answer,
        committed: answer,
    }
}

// An estimate and, where that is accepted, a commitment of the choice that it wrote. Where the areas for list and stored block
// are too short no estimate is made, since it would write the choice; the commitment then refuses as partition does.
pub fn estimate_and_commit(
    price: Price,
    list: &[u8],
    version: &[u8],
    store: &[u8],
    choice: &mut [u8],
    list_area: &mut [u8],
    block_area: &mut [u8],
) -> TwoAnswers
    ensures two_calls { TwoCalls price list.now version.now store.now (areas choice.old list_area.old block_area.old) result (areas choice.new list_area.new block_area.new) }
{
    let n = list.len() / 12;
    let rooms = Rooms {
        choice: n,
        list: list_area.len(),
        block: block_area.len(),
    };
    if !admit::areas_fit(list, version, rooms) {
        let committed = commit::commit(price, list, version, store, choice, list_area, block_area);
        return alone(committed);
    }
    let estimated = estimate::estimate(price, list, version, store, choice);
    let Ok(_figures) = estimated else {
        return alone(estimated);
    };
    let committed = commit::commit(
        price,
        list,
        version,
        store,
        &choice[..n],
        list_area,
        block_area,
    );
    TwoAnswers {
        estimated,
        committed,
    }
}
