//! Runs of many seeds from boot, up to the first that goes wrong.

ghost use Rattle.std.specs.Prelude.{◌≡◌, ℕ, ◌++◌, ◌∷◌, [], IfErr, IfOk, None, OnOk, Ok, Err, map};
ghost use Rattle.m161_judge.specs.Judge.{bytes_of};
ghost use Rattle.m161_order.specs.declared.order.Order.{Order as OrderValue};
ghost use Rattle.m161_c.specs.Driven.{order_in, rules_in};
ghost use Rattle.m161_c.specs.Explored.{criteria_of};
ghost use Rattle.m161_c.specs.Seeds.{IsSought, IsToldRun, SeeksAs, SeeksFrom, SeeksIn, SeeksOf, asked_with, number_of_event, seeded};
ghost use Rattle.m161_c.specs.helpers.Seeking.{Begins, IsTried};
ghost use Rattle.m161_c.specs.helpers.Booting.{BeginsAt};

use crate::answer::{OrderNumbers, Sought, WatchNumbers};
use crate::asked::asked_core;
use crate::driven::{gap_of, order_number, order_of};
use crate::explored::watches_of;
use crate::judged::audit_number;
use crate::session::Session;
use crate::verdict::{NONE, search_verdict};
use crate::{BAD, NO_MEMORY, NOTHING};
use m161::{Conf, Console, Event, Tlb};
use m161_drive::{Order, Policy};
use m161_judge::{Booted, Goal, JudgedRun, judge_booted};
use m161_reach::{Machines, Told, ends_of, tell_run};
use m161_states::Known;
use std::alloc::{AllocError, Global};
use std::marker::Model;

/// What the runs of a search are made of.
#[derive(Drop)]
pub struct Task<'a, 'b> {
    /// The file that is booted.
    pub file: &'a [u8],
    /// The size of the machine.
    pub conf: Conf,
    /// The numbers of the order.
    pub numbers: OrderNumbers,
    /// How many events a run has at most.
    pub events: u64,
    /// By what it is judged.
    pub goal: &'b Goal<'b>,
    /// How many views behind it are looked at.
    pub few: u32,
}

impl<'a, 'b> Model for Task<'a, 'b> {
    ghost use Rattle.m161_c.specs.Seeds.{Asked, asked_with};

    ghost Value = { Asked };

    ghost view = { λ t. asked_with t.file.now t.numbers t.events t.goal.now t.few t.conf };
}

/// A run, and its verdict.
#[derive(Drop)]
pub struct ToldRun {
    /// The run.
    pub run: JudgedRun,
    /// Its verdict, if it has one.
    pub told: Option<Told>,
}

/// A run that goes wrong.
#[derive(Drop)]
pub struct WrongRun {
    /// The run.
    pub run: JudgedRun,
    /// Its verdict.
    pub told: Told,
}

/// What came of the runs.
#[derive(Drop)]
pub struct Tried {
    /// How many are right before the first that isn't.
    pub right: u64,
    /// How many of them are cut.
    pub cut: u64,
    /// That one.
    pub wrong: Option<WrongRun>,
}

// The same order with the seed so many places on.
fn seeded(k: u64, order: Order) -> Order
    ensures { result ≡ seeded k order }
{
    match order {
        Order::Turns(_) | Order::Delayed { .. } => order,
        Order::Random(seed) => Order::Random(seed.wrapping_add(k)),
        Order::Priorities {
            seed,
            changes,
            within,
        } => Order::Priorities {
            seed: seed.wrapping_add(k),
            changes,
            within,
        },
    }
}

/// The policy of a run. The order has no fault, so one that has is told as memory.
pub(crate) fn policy_of<'a>(
    numbers: &OrderNumbers,
    order: Order,
    keys: &'a [u8],
) -> Result<Policy<'a>, AllocError>
    ensures { IfOk result (λ policy. policy ≡ rules_in numbers.now order keys.now) }
{
    match Policy::new(order, numbers.transfer, gap_of(numbers), keys) {
        Ok(policy) => Ok(policy),
        Err(_) => Err(AllocError),
    }
}

/// Makes and judges the run by an order.
pub(crate) fn make_run(
    alloc: Global,
    booted: &Booted<Tlb, Console>,
    ends: &Machines<'_, Tlb, Console>,
    task: &Task<'_, '_>,
    order: Order,
) -> Result<ToldRun, AllocError>
    requires { Begins task.now booted.now ends.now }
    ensures { IfOk result (λ made. IsToldRun task.now order made.run made.told) }
{
    let goal = task.goal;
    let policy = policy_of(&task.numbers, order, goal.keys)?;
    let Ok(run) = judge_booted(alloc, booted, &policy, task.events, goal) else {
        return Err(AllocError);
    };
    let told = tell_run(alloc, ends, task.few, &run)?;
    Ok(ToldRun { run, told })
}

// Makes the runs of the seeds, up to the first that goes wrong.
fn try_seeds(
    alloc: Global,
    booted: &Booted<Tlb, Console>,
    ends: &Machines<'_, Tlb, Console>,
    task: &Task<'_, '_>,
    order: Order,
    count: u64,
) -> Result<Tried, AllocError>
    requires { Begins task.now booted.now ends.now }
    ensures { IfOk result (IsTried task.now order count) }
{
    let mut cut = 0;
    for right in 0..count {
        let ToldRun { run, told } = make_run(alloc, booted, ends, task, seeded(right, order))?;
        if let Some(told) = told {
            return Ok(Tried {
                right,
                cut,
                wrong: Some(WrongRun { run, told }),
            });
        }
        if run.is_cut {
            cut += 1;
        }
    }
    Ok(Tried {
        right: count,
        cut,
        wrong: None,
    })
}

// The number of an event.
fn number_of_event(processors: u32, event: Event) -> u64
    ensures { result ≡ number_of_event processors event }
{
    match event {
        Event::Step(p) => u64::from(p),
        Event::Done => u64::from(processors),
        Event::Key(_) => u64::from(processors) + 1,
    }
}

// Adds a number behind the others. No machine has so many processors that an event's has no byte.
fn push_number(bytes: &mut Vec<u8>, number: u64) -> Result<(), AllocError>
    ensures { OnOk result (bytes.new.items ≡ bytes.old.items ++ number ∷ []) }
{
    let Ok(byte) = u8::try_from(number) else {
        return Err(AllocError);
    };
    bytes.push(byte)?;
    Ok(())
}

/// The numbers of events as bytes.
pub(crate) fn event_bytes(
    alloc: Global,
    processors: u32,
    events: &[Event],
) -> Result<Vec<u8>, AllocError>
    ensures { IfOk result (λ bytes. bytes.items ≡ map (number_of_event processors) events.now) }
{
    let mut bytes = Vec::new(alloc);
    for event in events {
        push_number(&mut bytes, number_of_event(processors, *event))?;
    }
    Ok(bytes)
}

// Tells what came of the runs.
fn tell_tried(
    alloc: Global,
    task: &Task<'_, '_>,
    tried: Tried,
) -> Result<(Sought, Vec<u8>), AllocError>
    ensures { (order : OrderValue) (count : ℕ) → IsTried task.now order count tried
        → IfOk result (λ told. IsSought task.now order count told.0 told.1.items) }
{
    let Tried { right, cut, wrong } = tried;
    let Some(WrongRun { run, told }) = wrong else {
        return Ok((
            Sought {
                verdict: NONE,
                right,
                cut,
                events: 0,
            },
            Vec::new(alloc),
        ));
    };
    let mut events = run.events;
    events.truncate(told.events);
    let bytes = event_bytes(alloc, task.conf.processors, &events)?;
    let found = Sought {
        verdict: search_verdict(told.verdict),
        right,
        cut,
        events: told.events as u64,
    };
    Ok((found, bytes))
}

// Makes the runs from boot, and tells what came of them.
fn seek_from(
    alloc: Global,
    booted: &Booted<Tlb, Console>,
    task: &Task<'_, '_>,
    order: Order,
    count: u64,
) -> Result<(Sought, Vec<u8>), u8>
    requires { BeginsAt task.now.file task.now.conf booted.now }
    ensures ok { IfOk result (λ told. SeeksFrom (IsSought task.now order count) task.now.goal booted.now (Ok (told.0, told.1.items))) }
    ensures err { IfErr result (λ why. SeeksFrom (IsSought task.now order count) task.now.goal booted.now (Err why)) }
{
    let core = asked_core(alloc, booted, task.goal)?;
    let goal = ends_of(task.goal);
    let ends = Machines::new(alloc, &*core, &goal, Known::nothing());
    let Ok(tried) = try_seeds(alloc, booted, &ends, task, order, count) else {
        return Err(NO_MEMORY);
    };
    match tell_tried(alloc, task, tried) {
        Ok(told) => Ok(told),
        Err(_) => Err(NO_MEMORY),
    }
}

// Boots the file, and makes the runs.
fn seek_booted(
    alloc: Global,
    task: &Task<'_, '_>,
    order: Order,
    count: u64,
) -> Result<(Sought, Vec<u8>), u8>
    ensures ok { IfOk result (λ told. SeeksOf None task.now order count (Ok (told.0, told.1.items))) }
    ensures err { IfErr result (λ why. SeeksOf None task.now order count (Err why)) }
{
    match Booted::new(alloc, task.file, task.conf) {
        Ok(booted) => seek_from(alloc, &booted, task, order, count),
        Err(error) => Err(audit_number(error)),
    }
}

// The same, with the watches of these numbers.
fn seek_watched(
    alloc: Global,
    conf: Conf,
    file: &[u8],
    numbers: &OrderNumbers,
    order: Order,
    n: u64,
    count: u64,
    few: u32,
    keys: &[u8],
    watches: &[WatchNumbers],
    never: &[u32],
    output: Option<&[u8]>,
) -> Result<(Sought, Vec<u8>), u8>
    ensures ok { IfOk result (λ told. SeeksOf None (asked_with file.now numbers.now n
        (criteria_of keys.now watches.now never.now (bytes_of output.entry)) few conf) order count (Ok (told.0, told.1.items))) }
    ensures err { IfErr result (λ why. SeeksOf None (asked_with file.now numbers.now n
        (criteria_of keys.now watches.now never.now (bytes_of output.entry)) few conf) order count (Err why)) }
{
    let Ok(watches) = watches_of(alloc, watches) else {
        return Err(NO_MEMORY);
    };
    let goal = Goal {
        watches: &watches,
        never,
        output,
        keys,
    };
    let task = Task {
        file,
        conf,
        numbers: *numbers,
        events: n,
        goal: &goal,
        few,
    };
    seek_booted(alloc, &task, order, count)
}

/// Looks for the first run that goes wrong, of the order of these numbers with `count` seeds from its own
/// on; or the number of why no run is made.
pub(crate) fn seek(
    alloc: Global,
    conf: Conf,
    file: &[u8],
    numbers: &OrderNumbers,
    n: u64,
    count: u64,
    few: u32,
    keys: &[u8],
    watches: &[WatchNumbers],
    never: &[u32],
    output: Option<&[u8]>,
) -> Result<(Sought, Vec<u8>), u8>
    ensures ok { IfOk result (λ told. SeeksIn (order_in numbers.now) (asked_with file.now numbers.now n
        (criteria_of keys.now watches.now never.now (bytes_of output.entry)) few conf) count (Ok (told.0, told.1.items))) }
    ensures err { IfErr result (λ why. SeeksIn (order_in numbers.now) (asked_with file.now numbers.now n
        (criteria_of keys.now watches.now never.now (bytes_of output.entry)) few conf) count (Err why)) }
{
    let Some(order) = order_of(numbers) else {
        return Err(BAD);
    };
    match order.fault() {
        Some(error) => Err(order_number(error)),
        None => seek_watched(
            alloc, conf, file, numbers, order, n, count, few, keys, watches, never, output,
        ),
    }
}

impl Session {
    pub(crate) fn seek(
        &mut self,
        alloc: Global,
        file: &[u8],
        numbers: &OrderNumbers,
        n: u64,
        count: u64,
        few: u32,
        keys: &[u8],
        watches: &[WatchNumbers],
        never: &[u32],
        output: Option<&[u8]>,
        found: &mut Sought,
    ) -> u8
        ensures does { SeeksAs (asked_with file.now numbers.now n
            (criteria_of keys.now watches.now never.now (bytes_of output.entry)) few)
            count result found.old found.new self.old self.new }
        ensures kept { self.new.exploring ≡ self.old.exploring }
    {
        let Some(machine) = &self.machine else {
            return NOTHING;
        };
        let conf = machine.conf();
        match seek(
            alloc, conf, file, numbers, n, count, few, keys, watches, never, output,
        ) {
            Ok((what, events)) => {
                *found = what;
                self.bytes = events;
                0
            }
            Err(answer) => answer,
        }
    }
}
