// The checks of a list by itself: check 3, of its length, and check 4, of each row.
//
// Not here: what a record must be beside its neighbours, the version and the store (crate `walk`).
#![tactic(auto)]

ghost use Rattle.std.specs.Prelude.{◌≡◌};
ghost use Rattle.format.specs.Record.{well_formed, list_fits};

use format::Row;

// Whether so many bytes can be a list: check 3. An index is asked the same with other limits, in `rebuild_volume`: a function of both would be no
// shorter than either.
pub fn list_fits(list: &[u8]) -> bool
    ensures { result ≡ list_fits list.now }
{
    list.len() <= format::LIST_MOST && list.len() % 12 == 0
}

// Whether a row is a record: check 4. In three steps: as one `&&` of all tests the call check of small records took 1.2 times as long, and with the last
// two tests as one `&&` the call measure up to 1.5 times.
pub fn well_formed(row: Row) -> bool
    ensures { result ≡ well_formed row }
{
    if 1 < row.kind || 1 < row.byte1 || row.byte2 != 0 || row.byte3 != 0 || row.size < 1 {
        return false;
    }
    if row.kind == 0 {
        if row.byte1 != 0 {
            return false;
        }
        return row.address == 0;
    }
    true
}
