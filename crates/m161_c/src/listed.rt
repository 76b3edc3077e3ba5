//! Searches over lists of delays, and what is told of them.

ghost use Rattle.std.specs.Prelude.{◌≡◌, ◌≤◌, ℕ, [], true, false, Err, IfErr, IfOk, IfSome, MatchOption, None, Ok, Some, take};
ghost use Rattle.m161_delays.specs.declared.search.Class.{Class as ClassValue};
ghost use Rattle.m161_delays.specs.Search.{Finds};
ghost use Rattle.m161_judge.specs.Judge.{bytes_of};
ghost use Rattle.m161_order.specs.declared.order.Order.TheVariants.{Turns};
ghost use Rattle.m161_order.specs.Delays.{delays_of};
ghost use Rattle.m161_order.specs.Order.{order_fault};
ghost use Rattle.m161_machine.specs.State.{State};
ghost use Rattle.m161_c.specs.Delays.{HasRightRun, HasWrongRun, IsListedBy, SeeksListsAs, SeeksListsIn, class_in, offered_by, steps_in};
ghost use Rattle.m161_c.specs.Explored.{criteria_of};
ghost use Rattle.m161_c.specs.Seeds.{SeeksFrom, asked_with};
ghost use Rattle.m161_c.specs.Slices.{SeeksSlicesAs, SeeksSlicesIn, TellsRight, TellsStop, TellsWrong, list_in};
ghost use Rattle.m161_c.specs.helpers.Listing.{IsLookedBy, LooksBy};
ghost use Rattle.m161_c.specs.helpers.Seeking.{Begins};
ghost use Rattle.m161_c.specs.helpers.Booting.{BeginsAt};

use crate::answer::{
    ClassNumbers, ListNumbers, OrderNumbers, SoughtList, SoughtSlice, WatchNumbers,
};
use crate::asked::asked_core;
use crate::driven::order_number;
use crate::explored::watches_of;
use crate::judged::audit_number;
use crate::lists::ListRuns;
use crate::seeds::{Task, WrongRun, event_bytes};
use crate::session::Session;
use crate::verdict::{NONE, search_verdict};
use crate::{BAD, NO_MEMORY, NOTHING};
use m161::{Conf, Console, Tlb};
use m161_delays::{Class, Delays, Searched, Slice, SliceStop, search_alone, search_slice};
use m161_drive::Order;
use m161_judge::{Booted, Goal, StepMemory};
use m161_reach::{Machines, ends_of};
use m161_states::Known;
use std::alloc::{AllocError, Global};

// The numbers of a list, and zeros behind them.
fn numbers_of(delays: &Delays) -> ListNumbers
    ensures { take result.count result.delays ≡ delays_of delays.now }
{
    let list = delays.as_slice();
    let mut delays = [0; 64];
    delays[..list.len()].copy_from_slice(list);
    ListNumbers {
        count: list.len() as u32,
        delays,
    }
}

// What is told of so many runs without a verdict.
fn right_told(right: u64, cut: u64) -> SoughtList
    ensures { TellsRight right cut result [] }
{
    SoughtList {
        verdict: NONE,
        right,
        cut,
        events: 0,
        count: 0,
        delays: [0; 64],
    }
}

// What is told of a list whose run has a verdict.
fn wrong_told(
    alloc: Global,
    task: &Task<'_, '_>,
    delays: &Delays,
    wrong: WrongRun,
) -> Result<(SoughtList, Vec<u8>), AllocError>
    ensures { IfOk result (λ told. TellsWrong task.now (delays_of delays.now) wrong told.0 told.1.items) }
{
    let WrongRun { run, told } = wrong;
    let mut events = run.events;
    events.truncate(told.events);
    let bytes = event_bytes(alloc, task.conf.processors, &events)?;
    let ListNumbers { count, delays } = numbers_of(delays);
    let found = SoughtList {
        verdict: search_verdict(told.verdict),
        right: 0,
        cut: 0,
        events: told.events as u64,
        count,
        delays,
    };
    Ok((found, bytes))
}

// What is told where no list is left.
fn last_told(found: SoughtList) -> SoughtSlice
    ensures found { result.found ≡ found }
    ensures over { (result.goes_on ≡ false) × (result.next.count ≡ 0) }
{
    SoughtSlice {
        found,
        goes_on: false,
        next: numbers_of(&Delays::none()),
    }
}

// Tells what came of the whole search.
fn tell_whole(
    alloc: Global,
    task: &Task<'_, '_>,
    found: Searched<WrongRun>,
) -> Result<(SoughtSlice, Vec<u8>), AllocError>
    ensures { (steps : ℕ) (class : ClassValue) (booted : State) → BeginsAt task.now.file task.now.conf booted
        → Finds class (offered_by task.now steps booted) (HasRightRun task.now steps) (HasWrongRun task.now steps) found
        → IfOk result (λ told. IsListedBy task.now steps class told.0.found told.1.items) }
{
    match found {
        Searched::Clean { runs, cut } => Ok((last_told(right_told(runs, cut)), Vec::new(alloc))),
        Searched::Wrong { delays, wrong } => {
            let (found, events) = wrong_told(alloc, task, &delays, wrong)?;
            Ok((last_told(found), events))
        }
    }
}

// Tells what came of a slice.
fn tell_slice(
    alloc: Global,
    task: &Task<'_, '_>,
    slice: Slice<WrongRun>,
) -> Result<(SoughtSlice, Vec<u8>), AllocError>
    ensures { IfOk result (λ told. TellsStop task.now slice.runs slice.cut slice.stop told.0 told.1.items) }
{
    let Slice { runs, cut, stop } = slice;
    match stop {
        None => Ok((last_told(right_told(runs, cut)), Vec::new(alloc))),
        Some(SliceStop::Wrong { delays, wrong }) => {
            let (found, events) = wrong_told(alloc, task, &delays, wrong)?;
            Ok((last_told(found), events))
        }
        Some(SliceStop::Next { delays }) => {
            let told = SoughtSlice {
                found: right_told(runs, cut),
                goes_on: true,
                next: numbers_of(&delays),
            };
            Ok((told, Vec::new(alloc)))
        }
    }
}

// Makes the runs of the whole search, or of a slice of so many from a list on, and tells what came of them.
fn look(
    alloc: Global,
    booted: &Booted<Tlb, Console>,
    ends: &Machines<'_, Tlb, Console>,
    task: &Task<'_, '_>,
    turns: u32,
    class: Class,
    from: &[u32],
    limit: Option<u64>,
) -> Result<(SoughtSlice, Vec<u8>), AllocError>
    requires begins { Begins task.now booted.now ends.now }
    requires most { class.most ≤ 64 }
    ensures { IfOk result (λ told. IsLookedBy task.now turns class from.now limit told.0 told.1.items) }
{
    let Ok(steps) = StepMemory::new(alloc, booted, task.goal) else {
        return Err(AllocError);
    };
    let runs = ListRuns {
        alloc,
        booted,
        steps: &steps,
        ends,
        task,
        turns,
    };
    match limit {
        Some(most) => tell_slice(alloc, task, search_slice(alloc, &runs, class, from, most)?),
        None => tell_whole(alloc, task, search_alone(alloc, &runs, class)?),
    }
}

// Makes the runs from boot, and tells what came of them.
fn seek_from(
    alloc: Global,
    booted: &Booted<Tlb, Console>,
    task: &Task<'_, '_>,
    turns: u32,
    class: Class,
    from: &[u32],
    limit: Option<u64>,
) -> Result<(SoughtSlice, Vec<u8>), u8>
    requires begins { BeginsAt task.now.file task.now.conf booted.now }
    requires most { class.most ≤ 64 }
    ensures ok { IfOk result (λ told. SeeksFrom (IsLookedBy task.now turns class from.now limit) task.now.goal booted.now (Ok (told.0, told.1.items))) }
    ensures err { IfErr result (λ why. SeeksFrom (IsLookedBy task.now turns class from.now limit) task.now.goal booted.now (Err why)) }
{
    let core = asked_core(alloc, booted, task.goal)?;
    let goal = ends_of(task.goal);
    let ends = Machines::new(alloc, &*core, &goal, Known::nothing());
    match look(alloc, booted, &ends, task, turns, class, from, limit) {
        Ok(told) => Ok(told),
        Err(_) => Err(NO_MEMORY),
    }
}

// Boots the file, and makes the runs.
fn seek_booted(
    alloc: Global,
    task: &Task<'_, '_>,
    turns: u32,
    class: Class,
    from: &[u32],
    limit: Option<u64>,
) -> Result<(SoughtSlice, Vec<u8>), u8>
    requires { class.most ≤ 64 }
    ensures ok { IfOk result (λ told. LooksBy None turns class from.now limit task.now (Ok (told.0, told.1.items))) }
    ensures err { IfErr result (λ why. LooksBy None turns class from.now limit task.now (Err why)) }
{
    match Booted::new(alloc, task.file, task.conf) {
        Ok(booted) => seek_from(alloc, &booted, task, turns, class, from, limit),
        Err(error) => Err(audit_number(error)),
    }
}

// The same, with the watches of these numbers.
fn seek_watched(
    alloc: Global,
    conf: Conf,
    file: &[u8],
    numbers: &OrderNumbers,
    turns: u32,
    class: Class,
    from: &[u32],
    limit: Option<u64>,
    n: u64,
    few: u32,
    keys: &[u8],
    watches: &[WatchNumbers],
    never: &[u32],
    output: Option<&[u8]>,
) -> Result<(SoughtSlice, Vec<u8>), u8>
    requires { class.most ≤ 64 }
    ensures ok { IfOk result (λ told. LooksBy None turns class from.now limit (asked_with file.now numbers.now n
        (criteria_of keys.now watches.now never.now (bytes_of output.entry)) few conf) (Ok (told.0, told.1.items))) }
    ensures err { IfErr result (λ why. LooksBy None turns class from.now limit (asked_with file.now numbers.now n
        (criteria_of keys.now watches.now never.now (bytes_of output.entry)) few conf) (Err why)) }
{
    let Ok(watches) = watches_of(alloc, watches) else {
        return Err(NO_MEMORY);
    };
    let goal = Goal {
        watches: &watches,
        never,
        output,
        keys,
    };
    let task = Task {
        file,
        conf,
        numbers: *numbers,
        events: n,
        goal: &goal,
        few,
    };
    seek_booted(alloc, &task, turns, class, from, limit)
}

fn class_of(class: &ClassNumbers) -> Class
    ensures { result ≡ class_in class.now }
{
    Class {
        most: class.most,
        from: class.from,
        within: class.within,
    }
}

// The Steps of a turn, where the numbers are those of an order by turns and of a class.
fn steps_of(numbers: &OrderNumbers, class: &ClassNumbers) -> Option<u32>
    ensures steps { result ≡ steps_in numbers.now class.now }
    ensures few { IfSome result (λ _. class.now.most ≤ 64) }
{
    if numbers.kind == 0 && class.most <= 64 {
        Some(numbers.turns)
    } else {
        None
    }
}

// Looks for the first list of a class whose run goes wrong, where these are the Steps of a turn.
fn seek_turns(
    alloc: Global,
    conf: Conf,
    file: &[u8],
    numbers: &OrderNumbers,
    turns: u32,
    class: Class,
    from: &[u32],
    limit: Option<u64>,
    n: u64,
    few: u32,
    keys: &[u8],
    watches: &[WatchNumbers],
    never: &[u32],
    output: Option<&[u8]>,
) -> Result<(SoughtSlice, Vec<u8>), u8>
    requires { class.most ≤ 64 }
    ensures ok { IfOk result (λ told. LooksBy (order_fault (Turns turns)) turns class from.now limit (asked_with file.now numbers.now n
        (criteria_of keys.now watches.now never.now (bytes_of output.entry)) few conf) (Ok (told.0, told.1.items))) }
    ensures err { IfErr result (λ why. LooksBy (order_fault (Turns turns)) turns class from.now limit (asked_with file.now numbers.now n
        (criteria_of keys.now watches.now never.now (bytes_of output.entry)) few conf) (Err why)) }
{
    match Order::Turns(turns).fault() {
        Some(error) => Err(order_number(error)),
        None => seek_watched(
            alloc, conf, file, numbers, turns, class, from, limit, n, few, keys, watches, never,
            output,
        ),
    }
}

// The list of these numbers.
fn list_of<'a>(from: &'a ListNumbers) -> Option<&'a [u32]>
    ensures { MatchOption result (list_in from.now ≡ None) (λ list. list_in from.now ≡ Some list.now) }
{
    if from.count <= 64 {
        Some(&from.delays[..from.count as usize])
    } else {
        None
    }
}

/// Looks for the first list of a class whose run goes wrong; or the number of why no run is made.
pub(crate) fn seek_lists(
    alloc: Global,
    conf: Conf,
    file: &[u8],
    numbers: &OrderNumbers,
    class: &ClassNumbers,
    n: u64,
    few: u32,
    keys: &[u8],
    watches: &[WatchNumbers],
    never: &[u32],
    output: Option<&[u8]>,
) -> Result<(SoughtList, Vec<u8>), u8>
    ensures ok { IfOk result (λ told. SeeksListsIn (steps_in numbers.now class.now) (asked_with file.now numbers.now n
        (criteria_of keys.now watches.now never.now (bytes_of output.entry)) few conf) (class_in class.now) (Ok (told.0, told.1.items))) }
    ensures err { IfErr result (λ why. SeeksListsIn (steps_in numbers.now class.now) (asked_with file.now numbers.now n
        (criteria_of keys.now watches.now never.now (bytes_of output.entry)) few conf) (class_in class.now) (Err why)) }
{
    let Some(turns) = steps_of(numbers, class) else {
        return Err(BAD);
    };
    let lists = class_of(class);
    match seek_turns(
        alloc,
        conf,
        file,
        numbers,
        turns,
        lists,
        &[],
        None,
        n,
        few,
        keys,
        watches,
        never,
        output,
    ) {
        Ok((told, events)) => Ok((told.found, events)),
        Err(answer) => Err(answer),
    }
}

/// The same of a slice: at most so many runs that go right, from a list on.
pub(crate) fn seek_slice(
    alloc: Global,
    conf: Conf,
    file: &[u8],
    numbers: &OrderNumbers,
    class: &ClassNumbers,
    from: &ListNumbers,
    most: u64,
    n: u64,
    few: u32,
    keys: &[u8],
    watches: &[WatchNumbers],
    never: &[u32],
    output: Option<&[u8]>,
) -> Result<(SoughtSlice, Vec<u8>), u8>
    ensures ok { IfOk result (λ told. SeeksSlicesIn (steps_in numbers.now class.now) (list_in from.now) most (asked_with file.now numbers.now n
        (criteria_of keys.now watches.now never.now (bytes_of output.entry)) few conf) (class_in class.now) (Ok (told.0, told.1.items))) }
    ensures err { IfErr result (λ why. SeeksSlicesIn (steps_in numbers.now class.now) (list_in from.now) most (asked_with file.now numbers.now n
        (criteria_of keys.now watches.now never.now (bytes_of output.entry)) few conf) (class_in class.now) (Err why)) }
{
    let Some(turns) = steps_of(numbers, class) else {
        return Err(BAD);
    };
    let Some(list) = list_of(from) else {
        return Err(BAD);
    };
    let lists = class_of(class);
    seek_turns(
        alloc,
        conf,
        file,
        numbers,
        turns,
        lists,
        list,
        Some(most),
        n,
        few,
        keys,
        watches,
        never,
        output,
    )
}

impl Session {
    pub(crate) fn seek_lists(
        &mut self,
        alloc: Global,
        file: &[u8],
        numbers: &OrderNumbers,
        class: &ClassNumbers,
        n: u64,
        few: u32,
        keys: &[u8],
        watches: &[WatchNumbers],
        never: &[u32],
        output: Option<&[u8]>,
        found: &mut SoughtList,
    ) -> u8
        ensures does { SeeksListsAs (asked_with file.now numbers.now n
            (criteria_of keys.now watches.now never.now (bytes_of output.entry)) few)
            class.now result found.old found.new self.old self.new }
        ensures kept { self.new.exploring ≡ self.old.exploring }
    {
        let Some(machine) = &self.machine else {
            return NOTHING;
        };
        let conf = machine.conf();
        match seek_lists(
            alloc, conf, file, numbers, class, n, few, keys, watches, never, output,
        ) {
            Ok((what, events)) => {
                *found = what;
                self.bytes = events;
                0
            }
            Err(answer) => answer,
        }
    }

    pub(crate) fn seek_slice(
        &mut self,
        alloc: Global,
        file: &[u8],
        numbers: &OrderNumbers,
        class: &ClassNumbers,
        from: &ListNumbers,
        most: u64,
        n: u64,
        few: u32,
        keys: &[u8],
        watches: &[WatchNumbers],
        never: &[u32],
        output: Option<&[u8]>,
        slice: &mut SoughtSlice,
    ) -> u8
        ensures does { SeeksSlicesAs (asked_with file.now numbers.now n
            (criteria_of keys.now watches.now never.now (bytes_of output.entry)) few)
            class.now from.now most result slice.old slice.new self.old self.new }
        ensures kept { self.new.exploring ≡ self.old.exploring }
    {
        let Some(machine) = &self.machine else {
            return NOTHING;
        };
        let conf = machine.conf();
        match seek_slice(
            alloc, conf, file, numbers, class, from, most, n, few, keys, watches, never, output,
        ) {
            Ok((what, events)) => {
                *slice = what;
                self.bytes = events;
                0
            }
            Err(answer) => answer,
        }
    }
}
