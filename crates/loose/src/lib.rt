// The calls check_loose and tidy: a list whose new records may stand side by side and whose runs may be unjoined, and its tidy form.
//
// In order: the checks of both calls; check_loose; the tidy form written; tidy.
#![tactic(auto)]

ghost use Rattle.std.specs.Prelude.{◌≡◌};
ghost use Rattle.format.specs.Record.{records_of};
ghost use Rattle.walk.specs.Walked.{walked};
ghost use Rattle.loose.specs.Loose.{loose_checked, tidy_ruling, tidy_answer, tidy_area, Ready, Written};

use emit::Emitter;
use format::{Answer, Fault, need};
use walk::{Scope, Walked};

// Checks 2, 3 and 9, then record by record 4, 6 and 7, of a loose list with so much room for its tidy form.
fn accept(list: &[u8], store: &[u8], room: usize) -> Walked
    ensures { result ≡ walked (tidy_ruling list.now store.now room) (records_of list.now) }
{
    need(store.len() <= format::STORE_MOST, Fault::TooLong)?;
    need(checks::list_fits(list), Fault::ListLength)?;
    need(list.len() <= room, Fault::AreaTooShort)?;
    walk::walk(list, &[], store, Scope::Loose)
}

// Check_loose: accepted where list and store have no fault, but that new records may stand side by side.
pub fn check_loose(list: &[u8], store: &[u8]) -> Answer
    ensures answered { result ≡ loose_checked list.now store.now }
{
    let w = accept(list, store, list.len());
    let Ok(_totals) = w else {
        return Err(w.unwrap_err());
    };
    format::length_only(0)
}

// The tidy form of a list, over the front of the area; gives its length in bytes.
fn write_tidy(list: &[u8], area: &mut [u8]) -> usize
    requires { Ready list.now area.old }
    ensures { Written list.now area.old area.new result }
{
    let mut written = Emitter::new(area);
    for i in 0..list.len() / 12 {
        written.emit(format::record_at(list, i));
    }
    written.flush()
}

// Tidy: the tidy form of a loose list over the front of its area, and the number of its records; nothing is written where it refuses.
pub fn tidy(list: &[u8], store: &[u8], list_area: &mut [u8]) -> Answer
    ensures answered { result ≡ tidy_answer list.now store.now list_area.old }
    ensures list_after { list_area.new ≡ tidy_area list.now store.now list_area.old }
{
    let w = accept(list, store, list_area.len());
    let Ok(_totals) = w else {
        return Err(w.unwrap_err());
    };
    let bytes = write_tidy(list, list_area);
    format::entries_only((bytes / 12) as u32)
}
