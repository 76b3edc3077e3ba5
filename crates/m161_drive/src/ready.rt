//! What the processors of a machine wait for.

ghost use Rattle.std.specs.Prelude.{◌≡◌, ◌+◌, ◌-◌, ◌<◌, ◌≤◌, ◌++◌, true, length, filter, take, find};
ghost use Rattle.std.specs.List.{list_any, range_with_len};
ghost use Rattle.m161_drive.specs.Delayed.{ready_from};
ghost use Rattle.m161_drive.specs.Ready.{is_asleep, is_ready, is_ticking, next_behind, place_behind, ready, some_ready, some_ticking};

use m161_bus::Console;
use m161_machine::Core;
use m161_tlb::Tlb;

/// Whether a processor exists, and its Step isn't idle.
#[inline(always)]
pub(crate) fn is_ready<T: Tlb, D: Console>(core: &Core<T, D>, p: u32) -> bool
    ensures { result ≡ is_ready core.now.state p }
{
    p < core.processors() && !core.rests(p)
}

/// Whether a processor exists, and rests until its timer's interrupt.
pub(crate) fn is_ticking<T: Tlb, D: Console>(core: &Core<T, D>, p: u32) -> bool
    ensures { result ≡ is_ticking core.now.state p }
{
    p < core.processors() && core.ticks(p)
}

// The first of these processors that is ready.
#[inline(always)]
fn ready_between<T: Tlb, D: Console>(core: &Core<T, D>, from: u32, to: u32) -> Option<u32>
    ensures { result ≡ find (is_ready core.now.state) (range_with_len from (to - from)) }
{
    for p in from..to {
        if is_ready(core, p) {
            return Some(p);
        }
    }
    None
}

// The first of these processors that is ticking.
fn ticking_between<T: Tlb, D: Console>(core: &Core<T, D>, from: u32, to: u32) -> Option<u32>
    ensures { result ≡ find (is_ticking core.now.state) (range_with_len from (to - from)) }
{
    for p in from..to {
        if is_ticking(core, p) {
            return Some(p);
        }
    }
    None
}

// The processor behind the last in cyclic order, or how many there are for 0.
#[inline(always)]
fn place_behind(last: Option<u32>, processors: u32) -> u32
    ensures { result ≡ place_behind last processors }
{
    match last {
        Some(p) => { if p < processors { p + 1 } else { 0 } }
        None => 0,
    }
}

/// The next ready processor behind the last in cyclic order.
#[inline(always)]
pub(crate) fn next_ready<T: Tlb, D: Console>(core: &Core<T, D>, last: Option<u32>) -> Option<u32>
    ensures { result ≡ next_behind (is_ready core.now.state) last core.now.state }
{
    let processors = core.processors();
    let place = place_behind(last, processors);
    match ready_between(core, place, processors) {
        Some(p) => Some(p),
        None => ready_between(core, 0, place),
    }
}

/// The next ticking processor behind the last in cyclic order.
pub(crate) fn next_ticking<T: Tlb, D: Console>(core: &Core<T, D>, last: Option<u32>) -> Option<u32>
    ensures { result ≡ next_behind (is_ticking core.now.state) last core.now.state }
{
    let processors = core.processors();
    let place = place_behind(last, processors);
    match ticking_between(core, place, processors) {
        Some(p) => Some(p),
        None => ticking_between(core, 0, place),
    }
}

/// Whether a processor is ready.
pub(crate) fn some_ready<T: Tlb, D: Console>(core: &Core<T, D>) -> bool
    ensures { result ≡ some_ready core.now.state }
{
    ready_between(core, 0, core.processors()).is_some()
}

// Whether a processor is ticking.
fn some_ticking<T: Tlb, D: Console>(core: &Core<T, D>) -> bool
    ensures { result ≡ some_ticking core.now.state }
{
    ticking_between(core, 0, core.processors()).is_some()
}

// Writes those of these processors that are ready behind the first places. Returns how many places are
// written then.
#[inline(always)]
fn add_ready<T: Tlb, D: Console>(
    core: &Core<T, D>,
    from: u32,
    to: u32,
    places: &mut [u8; 32],
    written: usize,
) -> usize
    requires ascending { from ≤ to }
    requires few { to ≤ 32 }
    requires room { written + (to - from) ≤ 32 }
    ensures places { take result places.new
        ≡ take written places.old ++ filter (is_ready core.now.state) (range_with_len from (to - from)) }
    ensures within { result ≤ written + (to - from) }
    ensures length { length places.new ≡ 32 }
{
    let mut count = written;
    for p in from..to {
        if is_ready(core, p) {
            places[count] = p as u8;
            count += 1;
        }
    }
    count
}

/// Writes the ready processors into the first places, in ascending order. Returns how many there are.
#[inline(always)]
pub(crate) fn list_ready<T: Tlb, D: Console>(core: &Core<T, D>, places: &mut [u8; 32]) -> usize
    ensures places { take result places.new ≡ ready core.now.state }
    ensures within { result ≤ 32 }
    ensures length { length places.new ≡ 32 }
{
    core.law();
    add_ready(core, 0, core.processors(), places, 0)
}

/// Writes the ready processors into the first places, in cyclic order from a ready one on. Returns how
/// many there are.
pub(crate) fn list_ready_from<T: Tlb, D: Console>(
    core: &Core<T, D>,
    p: u32,
    places: &mut [u8; 32],
) -> usize
    requires { is_ready core.now.state p ≡ true }
    ensures places { take result places.new ≡ ready_from p core.now.state }
    ensures some { 1 ≤ result }
    ensures within { result ≤ 32 }
    ensures length { length places.new ≡ 32 }
{
    core.law();
    let behind = add_ready(core, p, core.processors(), places, 0);
    add_ready(core, 0, p, places, behind)
}

/// Whether no processor is ready, and none waits for its timer: until a key is typed or a byte is
/// sent, each Step is idle, and none changes this.
pub fn is_asleep<T: Tlb, D: Console>(core: &Core<T, D>) -> bool
    ensures { result ≡ is_asleep core.now.state }
{
    !(some_ready(core) || some_ticking(core))
}
