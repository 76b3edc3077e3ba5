//! Whether a Step's use of the TLB is stale.

ghost use Rattle.std.specs.Prelude.{◌≡◌, ◌<◌, ◌≤◌, ℕ, List, true, false, Some, MatchOption, length, slice_get};
ghost use Rattle.m161_machine.specs.StoreHistory.{StoreState};
ghost use Rattle.m161_machine.specs.Uses.{uses_in};
ghost use Rattle.m161_cpu.specs.declared.uses.Via.{Via};
ghost use Rattle.m161_audit.specs.declared.shootdown.Shootdown.{Shootdown};
ghost use Rattle.m161_audit.specs.declared.watch.Watch.{Watch};
ghost use Rattle.m161_audit.specs.Stale.{IsStaleVia, UsesStale, entry_in, is_old};
ghost use Rattle.m161_audit.specs.helpers.Progress.{is_stale_for};
ghost use Rattle.m161_audit.specs.Tracking.{IsAt};

use crate::shootdown::{Progress, Shootdown, Shootdowns};
use m161_bus::Console;
use m161_cpu::{Uses, Via};
use m161_machine::Core;
use m161_tlb::{Row, Tlb};

// Whether a row of the TLB is an old mapping, by the page table's entry.
fn is_old(word: u32, row: &Row) -> bool
    ensures { result ≡ is_old (entry_in word) row.now }
{
    let entry = Row::from_words(0, word);
    !entry.v || entry.frame.number() != row.frame.number() || (!entry.d && row.d)
}

// Whether a use is stale for a watch.
#[inline(always)]
fn is_stale_for<T: Tlb, D: Console>(
    core: &Core<T, D>,
    p: u32,
    via: &Via,
    shootdown: &Shootdown,
) -> bool
    requires { p < length core.now.state.processors }
    ensures { result ≡ is_stale_for core.now.state p via.now shootdown.now }
{
    if via.page.number() != shootdown.watch.page {
        return false;
    }
    if u32::from(via.id.number()) != shootdown.watch.id {
        return false;
    }
    if shootdown.progress != Progress::GoneOn {
        return false;
    }
    match core.word(shootdown.watch.pte) {
        Some(word) => is_old(word, &core.row(p, via.row.number())),
        None => false,
    }
}

// Whether a use is stale for one of the watches from one place on and before another one.
#[inline(always)]
fn is_stale_among<T: Tlb, D: Console>(
    core: &Core<T, D>,
    p: u32,
    via: &Via,
    items: &[Shootdown],
    first: usize,
    past: usize,
) -> bool
    requires place { p < length core.now.state.processors }
    requires within { past ≤ length items.now }
    ensures yes { result ≡ true → (i : ℕ) × (x : Shootdown)
        × (slice_get items.now i ≡ Some x)
        × (is_stale_for core.now.state p via.now x ≡ true) }
    ensures no { result ≡ false → (i : ℕ) (x : Shootdown)
        → first ≤ i → i < past → slice_get items.now i ≡ Some x
        → is_stale_for core.now.state p via.now x ≡ false }
{
    for i in first..past {
        if is_stale_for(core, p, via, &items[i]) {
            return true;
        }
    }
    false
}

// The same of all watches. Only those in the range of the page need a look.
#[inline(always)]
fn is_stale<T: Tlb, D: Console>(
    core: &Core<T, D>,
    p: u32,
    via: &Via,
    shootdowns: &Shootdowns,
) -> bool
    requires { p < length core.now.state.processors }
    ensures yes { result ≡ true → (i : ℕ) × (x : Shootdown)
        × (slice_get shootdowns.now i ≡ Some x)
        × (is_stale_for core.now.state p via.now x ≡ true) }
    ensures no { result ≡ false → (i : ℕ) (x : Shootdown)
        → slice_get shootdowns.now i ≡ Some x
        → is_stale_for core.now.state p via.now x ≡ false }
{
    let (first, past) = shootdowns.range(via.page.number());
    if first < past {
        is_stale_among(core, p, via, shootdowns.as_slice(), first, past)
    } else {
        false
    }
}

// A use, if there is one and it is stale.
fn stale_via<T: Tlb, D: Console>(
    core: &Core<T, D>,
    p: u32,
    via: Option<Via>,
    shootdowns: &Shootdowns,
) -> Option<Via>
    requires { p < length core.now.state.processors }
    ensures { (watches : List Watch) (s : StoreState)
        → IsAt watches s core.now.state shootdowns.now
        → MatchOption result ((v : Via) → via ≡ Some v → IsStaleVia s watches p v → ⊥)
        (λ v. (via ≡ Some v) × IsStaleVia s watches p v) }
{
    let via = via?;
    if is_stale(core, p, &via, shootdowns) {
        Some(via)
    } else {
        None
    }
}

/// The stale use of a Step: that of its fetch, else that of its access.
pub(crate) fn stale_use<T: Tlb, D: Console>(
    core: &Core<T, D>,
    p: u32,
    uses: &Uses,
    shootdowns: &Shootdowns,
) -> Option<Via>
    requires place { p < length core.now.state.processors }
    requires uses { uses.now ≡ uses_in p core.now.state }
    ensures { (watches : List Watch) (s : StoreState)
        → IsAt watches s core.now.state shootdowns.now
        → MatchOption result ((v : Via) → UsesStale s watches p v → ⊥)
        (λ v. UsesStale s watches p v) }
{
    match stale_via(core, p, uses.fetch, shootdowns) {
        Some(via) => Some(via),
        None => stale_via(core, p, uses.access, shootdowns),
    }
}

// Whether a use, if there is one, is stale.
#[inline(always)]
fn is_some_and_stale<T: Tlb, D: Console>(
    core: &Core<T, D>,
    p: u32,
    via: &Option<Via>,
    shootdowns: &Shootdowns,
) -> bool
    requires { p < length core.now.state.processors }
    ensures { result ≡ false → (watches : List Watch) (s : StoreState)
        → IsAt watches s core.now.state shootdowns.now
        → (v : Via) → via.now ≡ Some v → IsStaleVia s watches p v → ⊥ }
{
    match via {
        Some(via) => is_stale(core, p, via, shootdowns),
        None => false,
    }
}

/// Whether a use of a Step is stale. `stale_use` says which one. For LLVM: an answer of one bit, and
/// none of a `Via`, whose parts the compiler would copy from place to place.
#[inline(always)]
pub(crate) fn uses_stale<T: Tlb, D: Console>(
    core: &Core<T, D>,
    p: u32,
    uses: &Uses,
    shootdowns: &Shootdowns,
) -> bool
    requires place { p < length core.now.state.processors }
    requires uses { uses.now ≡ uses_in p core.now.state }
    ensures { result ≡ false → (watches : List Watch) (s : StoreState)
        → IsAt watches s core.now.state shootdowns.now
        → (v : Via) → UsesStale s watches p v → ⊥ }
{
    if is_some_and_stale(core, p, &uses.fetch, shootdowns) {
        return true;
    }
    is_some_and_stale(core, p, &uses.access, shootdowns)
}
