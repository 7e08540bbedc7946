// The calls of section 4 for a controller in C (section 7): numbers, byte areas, and an answer area whose first 32 bytes they fill.
//
// Nothing is decided here. An answer area under 32 bytes gets 9 before the call is made, and nothing is written. Each function says so for itself: a
// function that makes the call as a closure, or not, has no clause to say that the areas which the closure holds stay as they were.
#![tactic(auto)]

ghost use Rattle.std.specs.Prelude.{◌≡◌};
ghost use Rattle.area.specs.Area.{areas};
ghost use Rattle.measure.specs.Measure.{measured};
ghost use Rattle.show.specs.Check.{checked};
ghost use Rattle.rebuild.specs.Rebuild.{rebuild_answer, rebuild_area};
ghost use Rattle.compare.specs.Compare.{compared};
ghost use Rattle.call_partition.specs.Partition.{partition_answer, partition_areas};
ghost use Rattle.call_pass.specs.Pass.{pass_answer, pass_areas};
ghost use Rattle.estimate.specs.Estimate.{estimate_answer, estimate_area};
ghost use Rattle.commit.specs.Commit.{commit_answer, commit_list, commit_block};
ghost use Rattle.loose.specs.Loose.{loose_checked, tidy_answer, tidy_area};
ghost use Rattle.pool.specs.Pool.{pool_answer, pool_area};
ghost use Rattle.rebuild_volume.specs.RebuildVolume.{volume_answer, volume_area};
ghost use Rattle.answer.specs.Layout.{Answered, lent};

use format::Fault;
use price::Price;

// Measure.
#[unsafe(no_mangle)]
pub extern "C" fn measure(en: u32, em: u32, f: u32, list: &[u8], answer: &mut [u8]) -> u32
    ensures answered { Answered (measured (record { en = en; em = em; f = f }) list.now) answer.old result answer.new }
{
    if answer.len() < answer::BYTES {
        return u32::from(Fault::AreaTooShort);
    }
    answer::give(measure::measure(Price { en, em, f }, list), answer)
}

// Rebuild.
#[unsafe(no_mangle)]
pub extern "C" fn rebuild(
    list: &[u8],
    block: &[u8],
    store: &[u8],
    area: &mut [u8],
    answer: &mut [u8],
) -> u32
    ensures answered { Answered (rebuild_answer list.now block.now store.now area.old) answer.old result answer.new }
    ensures area_after { area.new ≡ lent answer.old (rebuild_area list.now block.now store.now area.old) area.old }
{
    if answer.len() < answer::BYTES {
        return u32::from(Fault::AreaTooShort);
    }
    answer::give(rebuild::rebuild(list, block, store, area), answer)
}

// Partition.
#[unsafe(no_mangle)]
pub extern "C" fn partition(
    en: u32,
    em: u32,
    f: u32,
    list: &[u8],
    version: &[u8],
    store: &[u8],
    choice: &mut [u8],
    list_area: &mut [u8],
    block_area: &mut [u8],
    answer: &mut [u8],
) -> u32
    ensures answered { Answered (partition_answer (record { en = en; em = em; f = f }) list.now version.now store.now (areas choice.old list_area.old block_area.old)) answer.old result answer.new }
    ensures areas_after { areas choice.new list_area.new block_area.new
        ≡ lent answer.old (partition_areas (record { en = en; em = em; f = f }) list.now version.now store.now (areas choice.old list_area.old block_area.old)) (areas choice.old list_area.old block_area.old) }
{
    if answer.len() < answer::BYTES {
        return u32::from(Fault::AreaTooShort);
    }
    answer::give(
        call_partition::partition(
            Price { en, em, f },
            list,
            version,
            store,
            choice,
            list_area,
            block_area,
        ),
        answer,
    )
}

// Estimate.
#[unsafe(no_mangle)]
pub extern "C" fn estimate(
    en: u32,
    em: u32,
    f: u32,
    list: &[u8],
    version: &[u8],
    store: &[u8],
    choice: &mut [u8],
    answer: &mut [u8],
) -> u32
    ensures answered { Answered (estimate_answer (record { en = en; em = em; f = f }) list.now version.now store.now choice.old) answer.old result answer.new }
    ensures choice_after { choice.new ≡ lent answer.old (estimate_area (record { en = en; em = em; f = f }) list.now version.now store.now choice.old) choice.old }
{
    if answer.len() < answer::BYTES {
        return u32::from(Fault::AreaTooShort);
    }
    answer::give(
        estimate::estimate(Price { en, em, f }, list, version, store, choice),
        answer,
    )
}

// Commit.
#[unsafe(no_mangle)]
pub extern "C" fn commit(
    en: u32,
    em: u32,
    f: u32,
    list: &[u8],
    version: &[u8],
    store: &[u8],
    choice: &[u8],
    list_area: &mut [u8],
    block_area: &mut [u8],
    answer: &mut [u8],
) -> u32
    ensures answered { Answered (commit_answer (record { en = en; em = em; f = f }) list.now version.now store.now choice.now list_area.old block_area.old) answer.old result answer.new }
    ensures list_after { list_area.new ≡ lent answer.old (commit_list (record { en = en; em = em; f = f }) list.now version.now store.now choice.now list_area.old block_area.old) list_area.old }
    ensures block_after { block_area.new ≡ lent answer.old (commit_block (record { en = en; em = em; f = f }) list.now version.now store.now choice.now list_area.old block_area.old) block_area.old }
{
    if answer.len() < answer::BYTES {
        return u32::from(Fault::AreaTooShort);
    }
    answer::give(
        commit::commit(
            Price { en, em, f },
            list,
            version,
            store,
            choice,
            list_area,
            block_area,
        ),
        answer,
    )
}

// Pass.
#[unsafe(no_mangle)]
pub extern "C" fn pass(
    en: u32,
    em: u32,
    f: u32,
    list: &[u8],
    version: &[u8],
    store: &[u8],
    choice: &mut [u8],
    list_area: &mut [u8],
    block_area: &mut [u8],
    answer: &mut [u8],
) -> u32
    ensures answered { Answered (pass_answer (record { en = en; em = em; f = f }) list.now version.now store.now (areas choice.old list_area.old block_area.old)) answer.old result answer.new }
    ensures areas_after { areas choice.new list_area.new block_area.new
        ≡ lent answer.old (pass_areas (record { en = en; em = em; f = f }) list.now version.now store.now (areas choice.old list_area.old block_area.old)) (areas choice.old list_area.old block_area.old) }
{
    if answer.len() < answer::BYTES {
        return u32::from(Fault::AreaTooShort);
    }
    answer::give(
        call_pass::pass(
            Price { en, em, f },
            list,
            version,
            store,
            choice,
            list_area,
            block_area,
        ),
        answer,
    )
}

// Check.
#[unsafe(no_mangle)]
pub extern "C" fn check(list: &[u8], block: &[u8], store: &[u8], k: u32, answer: &mut [u8]) -> u32
    ensures answered { Answered (checked list.now block.now store.now k) answer.old result answer.new }
{
    if answer.len() < answer::BYTES {
        return u32::from(Fault::AreaTooShort);
    }
    answer::give(show::check(list, block, store, k), answer)
}

// Compare.
#[unsafe(no_mangle)]
pub extern "C" fn compare(
    first: &[u8],
    second: &[u8],
    first_block: &[u8],
    second_block: &[u8],
    store: &[u8],
    answer: &mut [u8],
) -> u32
    ensures answered { Answered (compared first.now second.now first_block.now second_block.now store.now) answer.old result answer.new }
{
    if answer.len() < answer::BYTES {
        return u32::from(Fault::AreaTooShort);
    }
    answer::give(
        compare::compare(first, second, first_block, second_block, store),
        answer,
    )
}

// Check_loose.
#[unsafe(no_mangle)]
pub extern "C" fn check_loose(list: &[u8], store: &[u8], answer: &mut [u8]) -> u32
    ensures answered { Answered (loose_checked list.now store.now) answer.old result answer.new }
{
    if answer.len() < answer::BYTES {
        return u32::from(Fault::AreaTooShort);
    }
    answer::give(loose::check_loose(list, store), answer)
}

// Tidy.
#[unsafe(no_mangle)]
pub extern "C" fn tidy(list: &[u8], store: &[u8], list_area: &mut [u8], answer: &mut [u8]) -> u32
    ensures answered { Answered (tidy_answer list.now store.now list_area.old) answer.old result answer.new }
    ensures list_after { list_area.new ≡ lent answer.old (tidy_area list.now store.now list_area.old) list_area.old }
{
    if answer.len() < answer::BYTES {
        return u32::from(Fault::AreaTooShort);
    }
    answer::give(loose::tidy(list, store, list_area), answer)
}

// Pool.
#[unsafe(no_mangle)]
pub extern "C" fn pool(
    first: &[u8],
    second: &[u8],
    version: &[u8],
    store: &[u8],
    list_area: &mut [u8],
    answer: &mut [u8],
) -> u32
    ensures answered { Answered (pool_answer first.now second.now version.now store.now list_area.old) answer.old result answer.new }
    ensures list_after { list_area.new ≡ lent answer.old (pool_area first.now second.now version.now store.now list_area.old) list_area.old }
{
    if answer.len() < answer::BYTES {
        return u32::from(Fault::AreaTooShort);
    }
    answer::give(pool::pool(first, second, version, store, list_area), answer)
}

// Rebuild_volume. It is no C call yet: the header does not declare it, and the archive does not give it.
pub fn rebuild_volume(
    index: &[u8],
    lists: &[u8],
    blocks: &[u8],
    area: &mut [u8],
    answer: &mut [u8],
) -> u32
    ensures answered { Answered (volume_answer index.now lists.now blocks.now area.old) answer.old result answer.new }
    ensures area_after { area.new ≡ lent answer.old (volume_area index.now lists.now blocks.now area.old) area.old }
{
    if answer.len() < answer::BYTES {
        return u32::from(Fault::AreaTooShort);
    }
    answer::give(
        rebuild_volume::rebuild_volume(index, lists, blocks, area),
        answer,
    )
}
