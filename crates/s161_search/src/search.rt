//! Looking for a seed whose run goes wrong.

ghost use Rattle.std.specs.Prelude.{◌≡◌, ◌≢◌, ◌≤◌, ℕ, [], IfErr, IfOk, None, Some, map, string_bytes};
ghost use Rattle.m161_order.specs.declared.order.Order.TheVariants as order;
ghost use Rattle.m161_order.specs.Delays.{delays_of};
ghost use Rattle.m161_text.specs.Lines.{with_line_end};
ghost use Rattle.s161_command.specs.Classes.{HasClassLimits};
ghost use Rattle.s161_base.specs.Asked.{AsksFor};
ghost use Rattle.s161_base.specs.Samples.{image_file};
ghost use Rattle.s161_search.specs.Given.{AreAllKeys, search_files};
ghost use Rattle.s161_search.specs.helpers.Begun.{BeginsAt, IsStarted};
ghost use Rattle.s161_search.specs.helpers.Inputs.{given_of};
ghost use Rattle.s161_search.specs.helpers.Never.{IsNeverFault, PrintsFor};
ghost use Rattle.s161_search.specs.Notes.{notes_text};
ghost use Rattle.s161_search.specs.Texts.{clean_text};
ghost use Rattle.s161_search.specs.Searches.{IsFound, IsSearched, IsSearchFault, Prints};
ghost use Rattle.s161_search.specs.Runs.{IsRunFault};
ghost use Rattle.s161_search.specs.Seeds.{IsFirstWrong};
ghost use Rattle.s161_search.specs.Told.{IsRunToldAt};
ghost use Rattle.s161_search.specs.helpers.Telling.{Begins};
ghost use Rattle.s161_search.specs.helpers.Tried.{IsListed};

use crate::basis::Basis;
use crate::delays::{DelayedRuns, try_lists};
use crate::found::print_of;
use crate::inputs::{Inputs, read_inputs};
use crate::list_stores::unstored_by_lists;
use crate::never::with_never;
use crate::notes::notes_text;
use crate::orders::WrongRun;
use crate::points::start_core;
use crate::seed_stores::unstored_by_seeds;
use crate::seeds::{boot, seed_at, try_seeds};
use crate::start::make_start;
use crate::texts::{clean_line, delays_line, found_lines, seed_line};
use m161::{Console, Tlb};
use m161_delays::{Delays, Searched};
use m161_jobs::Tried;
use m161_judge::Booted;
use m161_order::Order;
use m161_reach::{Machines, can_be_asked};
use m161_states::Known;
use m161_stores::Unstored;
use s161_base::fault::Fault;
use s161_base::files::FileSource;
use s161_base::finished::Finished;
use s161_command::{DelayClass, SearchTask};
use s161_progress::Progress;
use std::alloc::{AllocError, Global};
use std::thread::Threads;

/// Reads the image, the events that come first, the keys, the watches and then the output, and makes the run
/// of each seed, or of each useful list of delays, behind those events, up to the first that goes wrong,
/// whose schedule it prints. What is to be said on standard error is put into `said`: where none goes wrong,
/// a note for each word of a watch to which no Step of the runs stores.
///
/// # Errors
/// The first fault; an event of an order that is refused is a want of memory.
// For LLVM: a stack frame of its own.
#[inline(never)]
pub fn search<'a, R: Threads + Sync, F: FileSource>(
    rt: &R,
    alloc: Global,
    files: &mut F,
    task: SearchTask<'a>,
    never: &[&'a str],
    progress: &Progress,
    said: &mut String,
) -> Result<Finished, Fault<'a>>
    requires class { HasClassLimits task.drive.order task.delays }
    ensures ok { IfOk result (λ done. IsSearched task.entry (map (λ word. word.now) never.now) (F.known files.old)
        (image_file (F.known files.old) task.entry.image.now) done.text.items (string_bytes said.new) done.status) }
    ensures fault { IfErr result (IsSearchFault task.entry (map (λ word. word.now) never.now) (F.known files.old)
        (image_file (F.known files.old) task.entry.image.now)) }
    ensures asks { AsksFor (search_files task.entry) result (F.asked files.old)
        (F.asked files.new) }
    ensures within { IfOk result (λ done. (done.status ≤ 5) × (done.status ≢ 2)) }
{
    let inputs = read_inputs(alloc, files, task)?;
    search_in(rt, alloc, task, never, inputs, progress, said)
}

// Makes the runs of what was read.
#[tactic(auto, using(crate::proofs::Failing::bare_is_never))]
fn search_in<'a, R: Threads + Sync>(
    rt: &R,
    alloc: Global,
    task: SearchTask<'a>,
    never: &[&'a str],
    inputs: Inputs,
    progress: &Progress,
    said: &mut String,
) -> Result<Finished, Fault<'a>>
    requires class { HasClassLimits task.drive.order task.delays }
    requires keys { AreAllKeys (given_of inputs) }
    ensures ok { IfOk result (λ done. PrintsFor task.entry (map (λ word. word.now) never.now) (given_of inputs) done.text.items (string_bytes said.new) done.status) }
    ensures fault { IfErr result (IsNeverFault task.entry (map (λ word. word.now) never.now) (given_of inputs)) }
    ensures within { IfOk result (λ done. (done.status ≤ 5) × (done.status ≢ 2)) }
{
    let booted = boot(alloc, &inputs)?;
    let inputs = with_never(alloc, &booted, task, never, inputs)?;
    make_runs(rt, alloc, &booted, task, &inputs, progress, said)
}

// Makes the runs.
fn make_runs<'a, R: Threads + Sync>(
    rt: &R,
    alloc: Global,
    booted: &Booted<Tlb, Console>,
    task: SearchTask<'a>,
    inputs: &Inputs,
    progress: &Progress,
    said: &mut String,
) -> Result<Finished, Fault<'a>>
    requires booted { BeginsAt (given_of inputs.now) booted.now }
    requires keys { AreAllKeys (given_of inputs.now) }
    requires class { HasClassLimits task.drive.order task.delays }
    ensures ok { IfOk result (λ done. Prints task.entry (given_of inputs.now) task.entry.delays done.text.items (string_bytes said.new) done.status) }
    ensures fault { IfErr result (IsRunFault (given_of inputs.now)) }
    ensures within { IfOk result (λ done. (done.status ≤ 5) × (done.status ≢ 2)) }
{
    let start = make_start(alloc, booted, inputs)?;
    let boxed = start_core(alloc, booted)?;
    let core = &*boxed;
    let goal = inputs.ends();
    // Only files that are larger than those that are read can't be asked for.
    if !can_be_asked(core, &goal) {
        return Err(Fault::Memory);
    }
    let ends = Machines::new(alloc, core, &goal, Known::nothing());
    let basis = Basis {
        alloc,
        booted,
        start: &start,
        task,
        inputs,
        ends: &ends,
        progress,
    };
    make_orders(rt, &basis, said)
}

// Makes them by seeds or by delays.
fn make_orders<'a, R: Threads + Sync>(
    rt: &R,
    basis: &Basis<'a, '_>,
    said: &mut String,
) -> Result<Finished, Fault<'a>>
    requires begins { Begins (given_of basis.now.inputs.now) basis.now.booted.now basis.now.ends.now }
    requires started { IsStarted (given_of basis.now.inputs.now) basis.now.booted.now basis.now.start.now }
    requires class { HasClassLimits basis.now.task.drive.order basis.now.task.delays }
    ensures ok { IfOk result (λ done. Prints basis.now.task (given_of basis.now.inputs.now) basis.now.task.delays done.text.items (string_bytes said.new) done.status) }
    ensures fault { IfErr result (IsRunFault (given_of basis.now.inputs.now)) }
    ensures within { IfOk result (λ done. (done.status ≤ 5) × (done.status ≢ 2)) }
{
    match basis.task.delays {
        Some(class) => by_delays(rt, basis, class, said),
        None => by_seeds(rt, basis, said),
    }
}

// What is printed of runs none of which goes wrong, and said of watches.
fn clean_runs(
    alloc: Global,
    runs: u64,
    cut: u64,
    unstored: &[Unstored],
    said: &mut String,
) -> Result<Finished, AllocError>
    ensures status { IfOk result (λ done. done.status ≡ 0) }
    ensures text { IfOk result (λ done. done.text.items ≡ with_line_end (clean_text runs cut)) }
    ensures said { IfOk result (λ done. string_bytes said.new ≡ notes_text 0 unstored.now) }
{
    *said = notes_text(alloc, unstored)?;
    Ok(Finished {
        text: clean_line(alloc, runs, cut)?.into_bytes(),
        status: 0,
    })
}

// What is printed of a run that goes wrong, of which nothing is said.
fn wrong_run(alloc: Global, text: Vec<u8>, said: &mut String) -> Finished
    ensures status { result.status ≡ 4 }
    ensures text { result.text.items ≡ text.items }
    ensures said { string_bytes said.new ≡ [] }
{
    *said = String::new(alloc);
    Finished { text, status: 4 }
}

// Makes the runs of the seeds.
#[tactic(auto, using(crate::proofs::Failing::memory_is_run))]
fn by_seeds<'a, R: Threads + Sync>(
    rt: &R,
    basis: &Basis<'a, '_>,
    said: &mut String,
) -> Result<Finished, Fault<'a>>
    requires begins { Begins (given_of basis.now.inputs.now) basis.now.booted.now basis.now.ends.now }
    requires started { IsStarted (given_of basis.now.inputs.now) basis.now.booted.now basis.now.start.now }
    ensures ok { IfOk result (λ done. Prints basis.now.task (given_of basis.now.inputs.now) None done.text.items (string_bytes said.new) done.status) }
    ensures fault { IfErr result (IsRunFault (given_of basis.now.inputs.now)) }
    ensures within { IfOk result (λ done. (done.status ≤ 5) × (done.status ≢ 2)) }
{
    match try_seeds(rt, basis)? {
        Tried::Clean { cut } => {
            let unstored = unstored_by_seeds(rt, basis, &basis.inputs.watches)?;
            let runs = u64::from(basis.task.seeds);
            Ok(clean_runs(basis.alloc, runs, u64::from(cut), &unstored, said)?)
        }
        Tried::Wrong { place, wrong } => {
            let text = found_text(basis, place, wrong)?;
            Ok(wrong_run(basis.alloc, text, said))
        }
    }
}

// What is printed of the first run that goes wrong.
fn found_text(basis: &Basis<'_, '_>, place: u32, wrong: WrongRun) -> Result<Vec<u8>, AllocError>
    requires begins { Begins (given_of basis.now.inputs.now) basis.now.booted.now basis.now.ends.now }
    requires first { IsFirstWrong basis.now.task (given_of basis.now.inputs.now) place wrong.run wrong.told }
    ensures { IfOk result (λ text. IsFound basis.now.task (given_of basis.now.inputs.now) text.items) }
{
    let line = seed_line(basis.alloc, seed_at(basis.task.drive.order, place))?;
    let (inputs, is_cut) = (basis.inputs, wrong.run.is_cut);
    let printed = print_of(
        basis.alloc,
        basis.booted,
        basis.task,
        inputs,
        basis.ends,
        is_cut,
        wrong.told,
        wrong.run.events,
    )?;
    let text = found_lines(
        basis.alloc,
        inputs.first.conf,
        line,
        printed.verdict,
        &printed.events,
    )?;
    Ok(text.into_bytes())
}

// How many Steps a turn has.
fn turns_of(policy: Order) -> u32
    ensures { (steps : ℕ) → policy ≡ order.Turns steps → result ≡ steps }
{
    match policy {
        Order::Turns(steps) => steps,
        Order::Delayed { .. } | Order::Random(_) | Order::Priorities { .. } => 0,
    }
}

// Makes the runs of the lists of a class.
#[tactic(auto, using(crate::proofs::Failing::memory_is_run))]
fn by_delays<'a, R: Threads + Sync>(
    rt: &R,
    basis: &Basis<'a, '_>,
    class: DelayClass,
    said: &mut String,
) -> Result<Finished, Fault<'a>>
    requires begins { Begins (given_of basis.now.inputs.now) basis.now.booted.now basis.now.ends.now }
    requires started { IsStarted (given_of basis.now.inputs.now) basis.now.booted.now basis.now.start.now }
    requires class { HasClassLimits basis.now.task.drive.order (Some class) }
    ensures ok { IfOk result (λ done. Prints basis.now.task (given_of basis.now.inputs.now) (Some class) done.text.items (string_bytes said.new) done.status) }
    ensures fault { IfErr result (IsRunFault (given_of basis.now.inputs.now)) }
    ensures within { IfOk result (λ done. (done.status ≤ 5) × (done.status ≢ 2)) }
{
    let turns = turns_of(basis.task.drive.order);
    let runs = DelayedRuns { basis, turns };
    match try_lists(rt, &runs, class)? {
        Searched::Clean { runs: count, cut } => {
            let unstored = unstored_by_lists(rt, &runs, class, &basis.inputs.watches)?;
            Ok(clean_runs(basis.alloc, count, cut, &unstored, said)?)
        }
        Searched::Wrong { delays, wrong } => {
            let text = listed_text(basis, &delays, wrong)?;
            Ok(wrong_run(basis.alloc, text, said))
        }
    }
}

// What is printed of the first list whose run goes wrong.
fn listed_text(
    basis: &Basis<'_, '_>,
    delays: &Delays,
    wrong: WrongRun,
) -> Result<Vec<u8>, AllocError>
    requires begins { Begins (given_of basis.now.inputs.now) basis.now.booted.now basis.now.ends.now }
    requires wrong { IsRunToldAt wrong.run.is_cut basis.now.task (given_of basis.now.inputs.now) wrong.run.events.items (Some wrong.told) }
    ensures { IfOk result (λ text. IsListed basis.now.task (given_of basis.now.inputs.now) (delays_of delays.now) wrong text.items) }
{
    let line = delays_line(basis.alloc, delays.as_slice())?;
    let (inputs, is_cut) = (basis.inputs, wrong.run.is_cut);
    let printed = print_of(
        basis.alloc,
        basis.booted,
        basis.task,
        inputs,
        basis.ends,
        is_cut,
        wrong.told,
        wrong.run.events,
    )?;
    let text = found_lines(
        basis.alloc,
        inputs.first.conf,
        line,
        printed.verdict,
        &printed.events,
    )?;
    Ok(text.into_bytes())
}
