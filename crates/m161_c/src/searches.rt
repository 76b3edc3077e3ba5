//! The exports that search, explore and judge.

ghost use Rattle.std.specs.Prelude.{◌≡◌, None, map};
ghost use Rattle.m161_judge.specs.Judge.{bytes_of as bytes_of_output};
ghost use Rattle.m161_c.specs.Explores.{BeginsAs, SlicesAs};
ghost use Rattle.m161_c.specs.Delays.{SeeksListsAs};
ghost use Rattle.m161_c.specs.Explored.{criteria_of, output_in, watch_of};
ghost use Rattle.m161_c.specs.Explores.{ExploresAs};
ghost use Rattle.m161_c.specs.Judged.{AuditsAs, JudgesAs};
ghost use Rattle.m161_c.specs.Runs.{AtSession, AtSlot, machine_of};
ghost use Rattle.m161_c.specs.Search.{SearchesOf};
ghost use Rattle.m161_c.specs.Seeds.{SeeksAs, asked_with};
ghost use Rattle.m161_c.specs.Slices.{SeeksSlicesAs};
ghost use Rattle.m161_c.specs.Hung.{HungAs};

use crate::NOTHING;
use crate::answer::{
    ClassNumbers, Exploration, Goal, Judgement, ListNumbers, OrderNumbers, Sought, SoughtList,
    SoughtSlice, WatchNumbers,
};
use crate::handle::Slot;
use std::alloc::Global;

// The output that is asked for, if any is.
fn output_of<'a>(asked: bool, output: &'a [u8]) -> Option<&'a [u8]>
    ensures { bytes_of_output result ≡ output_in asked output.now }
{
    if asked { Some(output) } else { None }
}

/// Looks for a run that ends wrong. The runs are those of an order with `count` seeds from its own on,
/// modulo 2^64, each of at most `n` events from the machine's state; the session stays as it is. 0
/// where one ends wrong, and 21 where none does; 18 to 20, 253 or 254 where one isn't made. `right` is
/// how many runs before it end right, so the seed of the run is that of the order and `right`.
#[unsafe(no_mangle)]
pub extern "C" fn talusdish_search(
    alloc: Global,
    slot: &mut Slot,
    order: &OrderNumbers,
    keys: &[u8],
    n: u64,
    count: u64,
    goal: &Goal,
    right: &mut u64,
) -> u8
    ensures value { SearchesOf (machine_of slot.old.handle.session) order.now keys.now n count goal.now
        right.new result }
    ensures same { slot.new.handle.session ≡ slot.old.handle.session }
{
    let Some(session) = slot.take(alloc) else {
        *right = 0;
        return NOTHING;
    };
    let (before, answer) = session.search(alloc, order, keys, n, count, goal);
    *right = before;
    slot.put(alloc, session);
    answer
}

/// Looks for a run that goes wrong, as `s161 search` does. The runs are those of an order with `count`
/// seeds from its own on, modulo 2^64, each of at most `n` events on a machine of the size of the
/// session's that is booted from this file; its machine stays as it is. 0, and what was found is told: the
/// events that the verdict of the first wrong run needs become the session's bytes, as `talusdish_explore`
/// has them; no byte where none goes wrong. A run that is cut hangs, where its verdict would be none or
/// `end`, if no order of events leads from its end to an end and the states behind it have at most `few`
/// views; with 0 none is looked at. Else the first of these: 253 or 18 to 20 for the order; what
/// `talusdish_boot` answers of a file that isn't booted; 22 for a bad watch; 253 where what is asked for
/// doesn't fit its words.
#[unsafe(no_mangle)]
pub extern "C" fn talusdish_seeds(
    alloc: Global,
    slot: &mut Slot,
    file: &[u8],
    order: &OrderNumbers,
    n: u64,
    count: u64,
    few: u32,
    keys: &[u8],
    watches: &[WatchNumbers],
    never: &[u32],
    asked: bool,
    output: &[u8],
    found: &mut Sought,
) -> u8
    ensures run { AtSlot slot.old.handle.session result slot.new.handle.session (SeeksAs
        (asked_with file.now order.now n (criteria_of keys.now watches.now never.now (output_in asked output.now)) few)
        count result found.old found.new) }
    ensures none { slot.old.handle.session ≡ None → found.new ≡ found.old }
{
    let Some(mut session) = slot.take(alloc) else {
        return NOTHING;
    };
    let output = output_of(asked, output);
    let answer = session.seek(
        alloc, file, order, n, count, few, keys, watches, never, output, found,
    );
    slot.put(alloc, session);
    answer
}

/// Looks for a run that goes wrong among all those by turns with the delays of a class, as
/// `s161 search --delays` does: at the useful lists of the class, in their order, in this thread. What goes
/// wrong, what a run begins at and what becomes of the session is as in `talusdish_seeds`. 0, and what was
/// found is told; else the first of these: 253 for another order than turns or a class of more than 64
/// delays; 18 for the order; and then as there.
#[unsafe(no_mangle)]
pub extern "C" fn talusdish_delays(
    alloc: Global,
    slot: &mut Slot,
    file: &[u8],
    order: &OrderNumbers,
    class: &ClassNumbers,
    n: u64,
    few: u32,
    keys: &[u8],
    watches: &[WatchNumbers],
    never: &[u32],
    asked: bool,
    output: &[u8],
    found: &mut SoughtList,
) -> u8
    ensures run { AtSlot slot.old.handle.session result slot.new.handle.session (SeeksListsAs
        (asked_with file.now order.now n (criteria_of keys.now watches.now never.now (output_in asked output.now)) few)
        class.now result found.old found.new) }
    ensures none { slot.old.handle.session ≡ None → found.new ≡ found.old }
{
    let Some(mut session) = slot.take(alloc) else {
        return NOTHING;
    };
    let output = output_of(asked, output);
    let answer = session.seek_lists(
        alloc, file, order, class, n, few, keys, watches, never, output, found,
    );
    slot.put(alloc, session);
    answer
}

/// A slice of what `talusdish_delays` does: looks at the useful lists of the class from this one on, in their
/// order, and makes at most so many runs that go right. At first the list is the empty one. 0, and what was
/// found is told, the runs of the slice alone: as there where one goes wrong or no list is left; else with the
/// list to go on from. So slices that go on from each other, of at least one run each, find together what the
/// whole does. Else the first of the numbers there, where 253 is also for a list of more than 64 delays.
#[unsafe(no_mangle)]
pub extern "C" fn talusdish_slice(
    alloc: Global,
    slot: &mut Slot,
    file: &[u8],
    order: &OrderNumbers,
    class: &ClassNumbers,
    from: &ListNumbers,
    most: u64,
    n: u64,
    few: u32,
    keys: &[u8],
    watches: &[WatchNumbers],
    never: &[u32],
    asked: bool,
    output: &[u8],
    slice: &mut SoughtSlice,
) -> u8
    ensures run { AtSlot slot.old.handle.session result slot.new.handle.session (SeeksSlicesAs
        (asked_with file.now order.now n (criteria_of keys.now watches.now never.now (output_in asked output.now)) few)
        class.now from.now most result slice.old slice.new) }
    ensures none { slot.old.handle.session ≡ None → slice.new ≡ slice.old }
{
    let Some(mut session) = slot.take(alloc) else {
        return NOTHING;
    };
    let output = output_of(asked, output);
    let answer = session.seek_slice(
        alloc, file, order, class, from, most, n, few, keys, watches, never, output, slice,
    );
    slot.put(alloc, session);
    answer
}

/// Looks at every state that the machine can reach from boot by any order of events with these keys, as
/// long as they are no more than the limit: whether something goes wrong, by watches, by addresses that
/// no Step is to reach, and by the output that is asked for, if it is. The events of the list that is
/// found become the session's bytes, one each: a Step of this processor; behind those of the processors
/// the end of a transfer, and then the next key. 0; else the first of these: 253 where the limit is 0; 22
/// for a bad watch; 253 where what is asked for doesn't fit its words.
#[unsafe(no_mangle)]
pub extern "C" fn talusdish_explore(
    alloc: Global,
    slot: &mut Slot,
    limit: u32,
    keys: &[u8],
    watches: &[WatchNumbers],
    never: &[u32],
    asked: bool,
    output: &[u8],
    found: &mut Exploration,
) -> u8
    ensures run { AtSlot slot.old.handle.session result slot.new.handle.session (ExploresAs limit
        (criteria_of keys.now watches.now never.now (output_in asked output.now)) result found.old found.new) }
    ensures none { slot.old.handle.session ≡ None → found.new ≡ found.old }
{
    let Some(mut session) = slot.take(alloc) else {
        return NOTHING;
    };
    let output = output_of(asked, output);
    let answer = session.explore(alloc, limit, keys, watches, never, output, found);
    slot.put(alloc, session);
    answer
}

/// Begins what `talusdish_explore` does, to be gone on with by `talusdish_explore_slice`; an exploration that
/// the session had begun is given up. The session keeps a machine at boot and what is asked, so that its own
/// machine may do or become what it will. 0, or what `talusdish_explore` answers of what can't be explored.
#[unsafe(no_mangle)]
pub extern "C" fn talusdish_explore_begin(
    alloc: Global,
    slot: &mut Slot,
    limit: u32,
    keys: &[u8],
    watches: &[WatchNumbers],
    never: &[u32],
    asked: bool,
    output: &[u8],
) -> u8
    ensures { AtSession slot.old.handle.session result slot.new.handle.session (BeginsAs limit
        (criteria_of keys.now watches.now never.now (output_in asked output.now)) result) }
{
    let Some(mut session) = slot.take(alloc) else {
        return NOTHING;
    };
    let output = output_of(asked, output);
    let answer = session.begin(alloc, limit, keys, watches, never, output);
    slot.put(alloc, session);
    answer
}

/// A slice of the exploration that the session has begun: tries all events of so many states more. 0, and the
/// answer is told, as by `talusdish_explore`; or 25, and it is told how many states were found until now: they
/// may be fewer than before, where a Step reads of time what wasn't known, since the states are looked for
/// anew then. Behind an answer, and where memory is refused, the session has no exploration.
#[unsafe(no_mangle)]
pub extern "C" fn talusdish_explore_slice(
    alloc: Global,
    slot: &mut Slot,
    number: u32,
    found: &mut Exploration,
) -> u8
    ensures run { AtSession slot.old.handle.session result slot.new.handle.session
        (SlicesAs number result found.old found.new) }
    ensures none { slot.old.handle.session ≡ None → found.new ≡ found.old }
{
    let Some(mut session) = slot.take(alloc) else {
        return NOTHING;
    };
    let answer = session.go_on(alloc, number, found);
    slot.put(alloc, session);
    answer
}

/// Audits the events of the machine since its boot under these watches: whether one is a stale use of a
/// watched page, and which is the first. 0, and the finding is told; else 23 where the log doesn't have all
/// events; and where it has, 22 for a bad watch.
#[unsafe(no_mangle)]
pub extern "C" fn talusdish_audit(
    alloc: Global,
    slot: &mut Slot,
    watches: &[WatchNumbers],
    judgement: &mut Judgement,
) -> u8
    ensures value { AuditsAs (machine_of slot.old.handle.session) (map watch_of watches.now) result
        judgement.old judgement.new }
    ensures same { slot.new.handle.session ≡ slot.old.handle.session }
{
    let Some(session) = slot.take(alloc) else {
        return NOTHING;
    };
    let answer = session.audit(alloc, watches, judgement);
    slot.put(alloc, session);
    answer
}

/// Judges the events of the machine since its boot, as made on a machine of its size that is booted from
/// this file: the first verdict that holds, with these keys being all that could be typed. 0, and the
/// verdict is told, or that there is none; else the first of these: 23 where the log doesn't have all
/// events; what `talusdish_boot` answers of a file that isn't booted; 22 for a bad watch.
#[unsafe(no_mangle)]
pub extern "C" fn talusdish_judge(
    alloc: Global,
    slot: &mut Slot,
    file: &[u8],
    keys: &[u8],
    watches: &[WatchNumbers],
    never: &[u32],
    asked: bool,
    output: &[u8],
    judgement: &mut Judgement,
) -> u8
    ensures value { JudgesAs (machine_of slot.old.handle.session) file.now
        (criteria_of keys.now watches.now never.now (output_in asked output.now)) result judgement.old judgement.new }
    ensures same { slot.new.handle.session ≡ slot.old.handle.session }
{
    let Some(session) = slot.take(alloc) else {
        return NOTHING;
    };
    let output = output_of(asked, output);
    let answer = session.judge(alloc, file, keys, watches, never, output, judgement);
    slot.put(alloc, session);
    answer
}

/// Judges the events of the machine since its boot as `talusdish_judge` does, but that with a `few` of more
/// than 0 they hang, where the verdict would be none or `end`, if the machine is off or stuck behind none of
/// them, and no order of events leads from their end to an end, by at most so many views.
#[unsafe(no_mangle)]
pub extern "C" fn talusdish_hung(
    alloc: Global,
    slot: &mut Slot,
    file: &[u8],
    few: u32,
    keys: &[u8],
    watches: &[WatchNumbers],
    never: &[u32],
    asked: bool,
    output: &[u8],
    judgement: &mut Judgement,
) -> u8
    ensures value { HungAs (machine_of slot.old.handle.session) file.now few
        (criteria_of keys.now watches.now never.now (output_in asked output.now)) result judgement.old judgement.new }
    ensures same { slot.new.handle.session ≡ slot.old.handle.session }
{
    let Some(session) = slot.take(alloc) else {
        return NOTHING;
    };
    let output = output_of(asked, output);
    let answer = session.hung(alloc, file, few, keys, watches, never, output, judgement);
    slot.put(alloc, session);
    answer
}
