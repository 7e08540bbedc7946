// The call compare: whether two lists, each with its stored block, and one store give the same version, each byte from the same origin.
//
// In order: two pieces of one size; two cursors side by side; the call. Neither version is built, and no byte of the store is read: where the origins are
// the same, the versions are exactly when the stored blocks are.
#![tactic(auto)]

ghost use Rattle.std.specs.Prelude.{◌≡◌};
ghost use Rattle.format.specs.Record.{records_of};
ghost use Rattle.format.specs.Origins.{origins, same_origins};
ghost use Rattle.cursors.specs.Cursor.{Checked};
ghost use Rattle.compare.specs.Compare.{compared};
ghost use Rattle.compare.specs.Alike.{alike};

use cursors::Pair;
use format::{Answer, Record};

// Whether two pieces of one size have the same origins: both new, or drawn from the same address with the same mark. Not `==` of
// the two, as the definition `alike` compares no sizes.
fn alike(one: Record, two: Record) -> bool
    ensures { result ≡ alike one two }
{
    match (one, two) {
        (Record::New(_), Record::New(_)) => true,
        (Record::Match(_, a), Record::Match(_, b)) => a == b,
        (Record::New(_), Record::Match(_, _)) => false,
        (Record::Match(_, _), Record::New(_)) => false,
    }
}

// Whether both lists cover equally many bytes, and each byte has the same origin in both.
fn same_origins(first: &[u8], second: &[u8]) -> bool
    requires { Checked first.now × Checked second.now }
    ensures { result ≡ same_origins (origins (records_of first.now)) (origins (records_of second.now)) }
{
    let n = first.len() / 12;
    let m = second.len() / 12;
    let mut at = Pair::default();
    while at.first.place < n {
        if m <= at.second.place {
            return false;
        }
        let (one, two) = at.step(first, second);
        if !alike(one, two) {
            return false;
        }
    }
    m <= at.second.place
}

// Compare: yes where both lists rebuild the same bytes, each from the same origin.
pub fn compare(
    first: &[u8],
    second: &[u8],
    first_block: &[u8],
    second_block: &[u8],
    store: &[u8],
) -> Answer
    ensures answered { result ≡ compared first.now second.now first_block.now second_block.now store.now }
{
    let v = show::accept(first, first_block, store);
    let Ok(_first) = v else {
        return Err(v.unwrap_err());
    };
    let w = show::accept(second, second_block, store);
    let Ok(_second) = w else {
        return Err(w.unwrap_err());
    };
    let same = same_origins(first, second) && words::same(first_block, second_block);
    format::entries_only(u32::from(same))
}
