//! Running an image in threads.

ghost use Rattle.std.specs.Prelude.{◌≡◌, [], IfErr, IfOk, replicate, string_bytes};
ghost use Rattle.m161_machine.specs.History.{events_of};
ghost use Rattle.s161_run.specs.Runs.{shown_log, summary_text, told_traps};
ghost use Rattle.s161_base.specs.Asked.{AsksFor, image_files};
ghost use Rattle.s161_base.specs.Samples.{image_file};
ghost use Rattle.s161_run.specs.Threads.{IsRunInThreads, IsThreadsFault, stop_in_threads};
ghost use Rattle.s161_run.specs.helpers.Threads.{FailsBooted, KeepsLast, RunsBooted};

use crate::booted::boot_machine;
use crate::events::{RunStop, stop_off};
use crate::log::log_of_machine;
use crate::made::traps_of_log;
use crate::summary::{Ran, summary};
use m161::{Console, Machine, Tlb};
use m161_machine::Conflict;
use m161_threads::{Gate, Report, run_bursts};
use s161_base::fault::Fault;
use s161_base::files::FileSource;
use s161_base::machines::conf_asked;
use s161_base::sample::read_image;
use s161_command::{Shown, ThreadsTask};
use std::alloc::{AllocError, Global};
use std::sync::Wait;
use std::thread::Threads;

/// A gate that is always open.
struct Open;

impl Gate for Open {
    fn pass(&self, _p: u32, _k: u32) -> bool {
        true
    }
}

/// Reads and boots the image, and gives each processor a thread that makes its quota of Steps, in
/// bursts, unless the machine is switched off.
///
/// # Errors
/// The first fault.
// For LLVM: a stack frame of its own.
#[inline(never)]
pub fn run_in_threads<'a, R: Threads + Wait + Sync, F: FileSource>(
    rt: &R,
    alloc: Global,
    files: &mut F,
    task: ThreadsTask<'a>,
) -> Result<Ran, Fault<'a>>
    ensures ok { IfOk result (λ done. IsRunInThreads task.entry
        (image_file (F.known files.old) task.entry.run.image.now)
        done.text.items (string_bytes done.notes) done.stop) }
    ensures fault { IfErr result (IsThreadsFault task.entry
        (image_file (F.known files.old) task.entry.run.image.now)) }
    ensures asks { AsksFor (image_files task.entry.run.image.now) result (F.asked files.old)
        (F.asked files.new) }
{
    let ThreadsTask { run, quota, burst } = task;
    let file = read_image(alloc, files, run.image)?;
    let image = file.as_slice();
    let machine = boot_machine(alloc, image, conf_asked(run.size))?;
    let report = run_booted(rt, alloc, machine, quota, burst)?;
    let done = finish(alloc, report, image, run.shown, run.traps)?;
    Ok(done)
}

// Gives each processor of a machine a thread that makes its quota of Steps, in bursts.
fn run_booted<'a, R: Threads + Wait + Sync>(
    rt: &R,
    alloc: Global,
    machine: Machine,
    quota: u32,
    burst: u32,
) -> Result<Report<Tlb, Console>, Fault<'a>>
    ensures ok { IfOk result (λ report. RunsBooted machine quota burst report.counts.items report.off
        report.machine) }
    ensures last { IfOk result (λ report. KeepsLast report.machine) }
    ensures fault { IfErr result (FailsBooted machine burst) }
{
    machine.replay();
    let quotas = quotas_of(alloc, quota, machine.processors())?;
    match run_bursts(rt, alloc, machine, quotas.as_slice(), &Open, burst) {
        Ok(report) => {
            report.machine.replay();
            Ok(report)
        }
        Err(fault) => Err(Fault::Threads(fault.cause)),
    }
}

// The same quota for each processor.
fn quotas_of(alloc: Global, quota: u32, processors: u32) -> Result<Vec<u32>, AllocError>
    ensures { IfOk result (λ quotas. quotas.items ≡ replicate processors quota) }
{
    vec![in alloc; quota; processors as usize]
}

// How a run in threads stopped, by whether the machine is off, and its conflict.
fn stop_in_threads(off: bool, conflict: Option<Conflict>) -> RunStop
    ensures { result ≡ stop_in_threads off conflict }
{
    if off {
        stop_off(conflict)
    } else {
        RunStop::End
    }
}

// What is printed of a report, and why the run stopped.
fn finish<'a>(
    alloc: Global,
    report: Report<Tlb, Console>,
    file: &[u8],
    shown: Shown,
    traps: bool,
) -> Result<Ran, Fault<'a>>
    ensures text { IfOk result (λ done.
        done.text.items ≡ summary_text
        (told_traps traps report.machine.base (events_of report.machine.log))
        (shown_log report.machine.start.conf file.now report.machine.base.made report.machine.log)
        report.machine.state (stop_in_threads report.off report.machine.state.conflict) shown) }
    ensures notes { IfOk result (λ done. string_bytes done.notes ≡ []) }
    ensures stop { IfOk result (λ done.
        done.stop ≡ stop_in_threads report.off report.machine.state.conflict) }
    ensures err { IfErr result (λ fault. fault ≡ Fault.Memory) }
{
    let Report {
        machine,
        counts: _,
        off,
    } = report;
    let stop = stop_in_threads(off, machine.conflict());
    let log = log_of_machine(alloc, &machine, file, shown)?;
    let traps = traps_of_log(alloc, &machine, traps)?;
    let text = summary(
        alloc,
        machine.core(),
        traps.as_bytes(),
        log.as_bytes(),
        stop,
        shown,
    )?;
    Ok(Ran {
        text,
        notes: String::new(alloc),
        stop,
    })
}
