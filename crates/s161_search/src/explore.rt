//! Looking at every state that a kernel can reach.

ghost use Rattle.std.specs.Prelude.{◌≢◌, ◌≡◌, ◌≤◌, ◌<◌, IfErr, IfOk, map, string_bytes};
ghost use Rattle.m161_explore.specs.Answers.{Answers};
ghost use Rattle.m161_reach.specs.Reach.{CanBeAsked, HasEnded, IsLearnt, question_of, rules_of};
ghost use Rattle.m161_stores.specs.Stores.{TellsStores};
ghost use Rattle.s161_base.specs.Asked.{AsksFor};
ghost use Rattle.s161_base.specs.Samples.{image_file};
ghost use Rattle.s161_search.specs.Explores.{IsExplored, IsExploredBy, PrintsExplored, as_search, asked_size};
ghost use Rattle.s161_search.specs.Given.{search_files};
ghost use Rattle.s161_search.specs.Notes.{Notes};
ghost use Rattle.s161_search.specs.Searches.{IsSearchFault};
ghost use Rattle.s161_search.specs.Runs.{IsRunFault};
ghost use Rattle.s161_search.specs.helpers.Begun.{BeginsAt};
ghost use Rattle.s161_search.specs.helpers.Explored.{PrintsExploredFor};
ghost use Rattle.s161_search.specs.helpers.Inputs.{given_of};
ghost use Rattle.s161_search.specs.helpers.Never.{IsNeverFault};

use crate::answers::{limit_of, print_answer};
use crate::inputs::{Inputs, read_inputs};
use crate::never::{check_watches, with_never};
use crate::notes::notes_text;
use crate::seeds::boot;
use m161::{Console, Core, Tlb};
use m161_judge::{Booted, Goal};
use m161_order::Order;
use m161_reach::{Exploration, can_be_asked, explore_machine_with};
use m161_stores::unstored_watches;
use s161_base::fault::Fault;
use s161_base::files::FileSource;
use s161_base::finished::Finished;
use s161_command::{AskedSize, Drive, ExploreTask, SearchTask, Size};
use s161_progress::{Progress, Unit};
use std::alloc::{AllocError, Global};

// A machine of this size is asked for.
fn asked_size(size: Size) -> AskedSize
    ensures { result ≡ asked_size size }
{
    AskedSize {
        ram: Some(size.ram),
        processors: Some(size.processors),
        log: size.log,
        link: Some(size.link),
        strict: size.strict,
    }
}

// The search that reads what an exploration does.
fn as_search(task: ExploreTask<'_>) -> SearchTask<'_>
    ensures { result ≡ as_search task.entry }
{
    SearchTask {
        image: task.image,
        size: asked_size(task.size),
        drive: Drive {
            order: Order::Turns(1),
            events: 1,
            transfer: 0,
            gap: None,
            keys: task.keys,
            after: None,
        },
        delays: None,
        seeds: 1,
        jobs: 1,
        watches: task.watches,
        output: task.output,
        hung: 0,
        whole: false,
    }
}

/// Reads the image, the keys, the watches and then the output, and looks at every state that any order
/// of events can reach, up to the number that is asked for. What is to be said on standard error is put into
/// `said`: a note for each word of a watch to which no Step stores.
///
/// # Errors
/// The first fault.
// For LLVM: a stack frame of its own.
#[inline(never)]
pub fn explore<'a, F: FileSource>(
    alloc: Global,
    files: &mut F,
    task: ExploreTask<'a>,
    never: &[&'a str],
    progress: &Progress,
    said: &mut String,
) -> Result<Finished, Fault<'a>>
    ensures ok { IfOk result (λ done. IsExplored task.entry (map (λ word. word.now) never.now) (F.known files.old)
        (image_file (F.known files.old) task.entry.image.now) done.text.items (string_bytes said.new) done.status) }
    ensures fault { IfErr result (IsSearchFault (as_search task.entry) (map (λ word. word.now) never.now) (F.known files.old)
        (image_file (F.known files.old) task.entry.image.now)) }
    ensures asks { AsksFor (search_files (as_search task.entry)) result (F.asked files.old)
        (F.asked files.new) }
    ensures within { IfOk result (λ done. (done.status ≤ 6) × (done.status ≢ 2)) }
{
    let limit = limit_of(task);
    explore_by(alloc, files, as_search(task), limit, never, progress, said)
}

// Reads what a search would, and explores it.
fn explore_by<'a, F: FileSource>(
    alloc: Global,
    files: &mut F,
    search: SearchTask<'a>,
    limit: u32,
    never: &[&'a str],
    progress: &Progress,
    said: &mut String,
) -> Result<Finished, Fault<'a>>
    requires { 0 < limit }
    ensures ok { IfOk result (λ done. IsExploredBy search.entry limit (map (λ word. word.now) never.now) (F.known files.old)
        (image_file (F.known files.old) search.entry.image.now) done.text.items (string_bytes said.new) done.status) }
    ensures fault { IfErr result (IsSearchFault search.entry (map (λ word. word.now) never.now) (F.known files.old)
        (image_file (F.known files.old) search.entry.image.now)) }
    ensures asks { AsksFor (search_files search.entry) result (F.asked files.old)
        (F.asked files.new) }
    ensures within { IfOk result (λ done. (done.status ≤ 6) × (done.status ≢ 2)) }
{
    let inputs = read_inputs(alloc, files, search)?;
    explore_in(alloc, search, limit, never, inputs, progress, said)
}

// Explores what was read.
#[tactic(auto, using(crate::proofs::Failing::bare_is_never))]
fn explore_in<'a>(
    alloc: Global,
    search: SearchTask<'a>,
    limit: u32,
    never: &[&'a str],
    inputs: Inputs,
    progress: &Progress,
    said: &mut String,
) -> Result<Finished, Fault<'a>>
    requires { 0 < limit }
    ensures ok { IfOk result (λ done. PrintsExploredFor search.entry limit (map (λ word. word.now) never.now) (given_of inputs) done.text.items (string_bytes said.new) done.status) }
    ensures fault { IfErr result (IsNeverFault search.entry (map (λ word. word.now) never.now) (given_of inputs)) }
    ensures within { IfOk result (λ done. (done.status ≤ 6) × (done.status ≢ 2)) }
{
    let booted = boot(alloc, &inputs)?;
    let inputs = with_never(alloc, &booted, search, never, inputs)?;
    explore_from(alloc, &booted, limit, &inputs, progress, said)
}

// Explores a machine, and says to which words of watches no Step stores.
fn explore_core<'a>(
    alloc: Global,
    core: &'a Core,
    goal: &'a Goal<'a>,
    limit: u32,
    progress: &Progress,
    said: &mut String,
) -> Result<Exploration, AllocError>
    requires asked { CanBeAsked core.now.state goal.now }
    requires some { 0 < limit }
    ensures answers { IfOk result (λ found.
        Answers (rules_of (question_of core.now.state goal.now found.known)) limit found.answer) }
    ensures whole { IfOk result (λ found. HasEnded found.answer → ⊥) }
    ensures learnt { IfOk result (λ found. IsLearnt (question_of core.now.state goal.now found.known)) }
    ensures said { IfOk result (λ found. Notes (TellsStores (question_of core.now.state goal.now found.known) found.answer)
        goal.now.watches (string_bytes said.new)) }
{
    progress.begin(Unit::States, None);
    let found = explore_machine_with(alloc, core, goal, limit, progress)?;
    let unstored = unstored_watches(alloc, core, goal, limit, &found)?;
    *said = notes_text(alloc, &unstored)?;
    Ok(found)
}

// Explores from the state at boot.
#[tactic(auto, using(crate::proofs::Failing::bare_is_run))]
fn explore_from<'a>(
    alloc: Global,
    booted: &Booted<Tlb, Console>,
    limit: u32,
    inputs: &Inputs,
    progress: &Progress,
    said: &mut String,
) -> Result<Finished, Fault<'a>>
    requires booted { BeginsAt (given_of inputs.now) booted.now }
    requires some { 0 < limit }
    ensures ok { IfOk result (λ done. PrintsExplored limit (given_of inputs.now) done.text.items (string_bytes said.new) done.status) }
    ensures fault { IfErr result (IsRunFault (given_of inputs.now)) }
    ensures within { IfOk result (λ done. (done.status ≤ 6) × (done.status ≢ 2)) }
{
    check_watches(alloc, booted, inputs)?;
    let core = booted.copy_core(alloc)?;
    let goal = inputs.goal();
    // Only files that are larger than those that are read can't be asked for.
    if !can_be_asked(&core, &goal) {
        return Err(Fault::Memory);
    }
    let found = explore_core(alloc, &core, &goal, limit, progress, said)?;
    Ok(print_answer(
        alloc,
        inputs.first.conf,
        limit,
        &inputs.all_keys,
        found.answer,
    )?)
}
