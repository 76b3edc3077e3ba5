//! Replaying a log.

ghost use Rattle.std.specs.Prelude.{◌≡◌, IfErr, IfOk, Ok, string_bytes};
ghost use Rattle.m161_machine.specs.History.{boot_fault};
ghost use Rattle.m161_steplog.specs.Verdict.{Verifies};
ghost use Rattle.m161_text.specs.Lines.{with_line_end};
ghost use Rattle.s161_base.specs.Asked.{AsksFor};
ghost use Rattle.s161_base.specs.Faults.{IsBootFault};
ghost use Rattle.s161_run.specs.Replays.{IsReplayed, IsReplayFault, replay_files, status_of_verdict, verdict_text};
ghost use Rattle.s161_base.specs.Samples.{image_file};

use m161::{Console, Tlb};
use m161_machine::{Conf, Entry};
use m161_steplog::{Comparison, verify_with};
use s161_base::fault::{Fault, fault_of_boot};
use s161_base::files::FileSource;
use s161_base::finished::Finished;
use s161_base::input::read_text;
use s161_base::machines::{NamedMachine, asked_conf, machine_fault};
use s161_base::sample::read_image;
use s161_base::texts::log_of;
use s161_command::ReplayTask;
use s161_progress::{Progress, Unit};
use std::alloc::{AllocError, Global};

/// Reads the image and then the log, boots the image, on the machine that the log names, and makes
/// the log's events until one is refused or its outcome differs from its entry's. The unit of links
/// is that of the log's first line; its size is that of its machine line, if it has one.
///
/// # Errors
/// The first fault.
// For LLVM: a stack frame of its own.
#[inline(never)]
pub fn replay<'a, F: FileSource>(
    alloc: Global,
    files: &mut F,
    task: ReplayTask<'a>,
    progress: &Progress,
) -> Result<Finished, Fault<'a>>
    ensures ok { IfOk result (λ done. IsReplayed task.entry
        (image_file (F.known files.old) task.entry.image.now)
        (F.known files.old task.entry.text.now) done.text.items done.status) }
    ensures fault { IfErr result (IsReplayFault task.entry
        (image_file (F.known files.old) task.entry.image.now)
        (F.known files.old task.entry.text.now)) }
    ensures asks { AsksFor (replay_files task.entry) result (F.asked files.old)
        (F.asked files.new) }
{
    let file = read_image(alloc, files, task.image)?;
    let image = file.as_slice();
    let listed = read_text(alloc, files, task.text)?;
    let text = listed.as_str();
    let log = log_of(alloc, text)?;
    let named = Some(NamedMachine::Logged(log.machine));
    if let Some(fault) = machine_fault(task.size, image, named) {
        return Err(fault);
    }
    let conf = asked_conf(task.size, named);
    let verdict = verify_log(alloc, image, conf, &log.entries, progress)?;
    let shown = verdict_line(alloc, verdict)?;
    Ok(Finished {
        text: shown.into_bytes(),
        status: status(verdict),
    })
}

// Boots an image, and makes a log's events until one is refused or its outcome differs.
fn verify_log<'a>(
    alloc: Global,
    image: &[u8],
    conf: Conf,
    log: &[Entry],
    progress: &Progress,
) -> Result<Comparison, Fault<'a>>
    ensures ok { IfOk result (λ verdict. Verifies image.now conf (boot_fault image.now conf) log.now
        (Ok verdict)) }
    ensures fault { IfErr result (IsBootFault image.now conf) }
{
    progress.begin(Unit::Events, Some(log.len() as u64));
    match verify_with::<Tlb, Console, Progress>(alloc, image, conf, log, progress) {
        Ok(verdict) => Ok(verdict),
        Err(error) => Err(fault_of_boot(error, image, conf.ram)),
    }
}

// The text of a verdict.
fn verdict_line(alloc: Global, verdict: Comparison) -> Result<String, AllocError>
    ensures { IfOk result (λ line. string_bytes line ≡ with_line_end (verdict_text verdict)) }
{
    match verdict {
        Comparison::Agrees => String::from_str(alloc, "agrees\n"),
        Comparison::Differs(k) => format!(in alloc; "differs {k}\n"),
    }
}

// The exit status of a verdict.
fn status(verdict: Comparison) -> u8
    ensures { result ≡ status_of_verdict verdict }
{
    match verdict {
        Comparison::Agrees => 0,
        Comparison::Differs(_) => 4,
    }
}
