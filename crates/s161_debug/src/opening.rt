//! The machine and the events of a session.

ghost use Rattle.std.specs.Prelude.{◌≡◌, ◌⊎◌, [], ◌∷◌, IfErr, IfOk, None, option_map};
ghost use Rattle.m161_machine.specs.declared.conf.Conf.{Conf as MachineConf};
ghost use Rattle.m161_order.specs.Order.{order_fault};
ghost use Rattle.s161_command.specs.Commands.{HasSourceLimits};
ghost use Rattle.s161_base.specs.Asked.{AsksFor};
ghost use Rattle.s161_base.specs.Faults.{BootsTo};
ghost use Rattle.s161_base.specs.Listed.{ListsFirst};
ghost use Rattle.s161_base.specs.Samples.{image_file};
ghost use Rattle.s161_command.specs.declared.task.Source.TheVariants as sources;
ghost use Rattle.s161_run.specs.Behind.{TakesBehind};
ghost use Rattle.s161_run.specs.Driven.{rules_of};
ghost use Rattle.s161_debug.specs.Debugs.{debug_files, source_files, IsEarlyFault, IsOpened, IsSourceFault, IsUnbooted, IsUnopened, Opens};
ghost use Rattle.s161_debug.specs.Gdb.{gdb_files, OpensRun};

use m161::Machine;
use m161_dis::Style;
use m161_machine::{Event, Events};
use s161_base::fault::Fault;
use s161_base::files::FileSource;
use s161_base::input::{read_text, read_text_if};
use s161_base::listed::plan_first;
use s161_base::naming::style_of;
use s161_base::sample::read_image;
use s161_command::{AskedSize, DebugTask, Drive, GdbTask, Source};
use s161_run::behind::session_behind;
use s161_run::booted::boot_machine;
use s161_run::policy::read_keys;
use std::alloc::Global;

/// The machine of a session, its events, and how it shows registers and addresses, twice.
#[derive(Drop)]
pub(crate) struct Opened {
    pub(crate) machine: Machine,
    pub(crate) events: Vec<Event>,
    pub(crate) style: Style,
    pub(crate) again: Style,
}

/// The machine of a session, and its events.
#[derive(Drop)]
pub(crate) struct Prepared {
    pub(crate) machine: Machine,
    pub(crate) events: Vec<Event>,
}

// A machine, and the events of the text that names it.
#[derive(Drop)]
struct BootedRun {
    machine: Machine,
    events: Events,
}

/// Reads the image and then the file of the events, or those of the order that chooses them; boots the
/// image; makes the events of the order on a copy of the state; and reads the image's symbols, twice.
///
/// # Errors
/// The first fault.
pub(crate) fn open<'a, F: FileSource>(
    alloc: Global,
    files: &mut F,
    task: DebugTask<'a>,
) -> Result<Opened, Fault<'a>>
    requires { HasSourceLimits task.source }
    ensures ok { IfOk result (λ opened. Opens task.entry (F.known files.old)
        (image_file (F.known files.old) task.entry.image.now) opened.machine opened.events.items
        opened.style) }
    ensures again { IfOk result (λ opened. opened.again ≡ opened.style) }
    ensures fault { IfErr result (IsEarlyFault task.entry (F.known files.old)
        (image_file (F.known files.old) task.entry.image.now)) }
    ensures asks { AsksFor (debug_files task.entry) result (F.asked files.old)
        (F.asked files.new) }
{
    let file = read_image(alloc, files, task.image)?;
    let image = file.as_slice();
    let booted = open_image(alloc, files, image, task.size, task.source)?;
    let style = style_of(alloc, task.registers, task.symbols, task.image, image)?;
    let again = style_of(alloc, task.registers, task.symbols, task.image, image)?;
    Ok(Opened {
        machine: booted.machine,
        events: booted.events,
        style,
        again,
    })
}

/// The same for a session of GDB, which shows no symbols.
///
/// # Errors
/// The first fault.
pub(crate) fn open_run<'a, F: FileSource>(
    alloc: Global,
    files: &mut F,
    task: GdbTask<'a>,
) -> Result<Prepared, Fault<'a>>
    requires { HasSourceLimits task.source }
    ensures ok { IfOk result (λ opened. OpensRun task.entry (F.known files.old)
        (image_file (F.known files.old) task.entry.image.now) opened.machine opened.events.items) }
    ensures fault { IfErr result (IsUnopened task.entry.image task.entry.source task.entry.size
        (F.known files.old) (image_file (F.known files.old) task.entry.image.now)) }
    ensures asks { AsksFor (gdb_files task.entry) result (F.asked files.old)
        (F.asked files.new) }
{
    let whole = read_image(alloc, files, task.image)?;
    let image = whole.as_slice();
    let booted = open_image(alloc, files, image, task.size, task.source)?;
    Ok(booted)
}

// Boots an image, with the events of a source.
fn open_image<'a, F: FileSource>(
    alloc: Global,
    files: &mut F,
    image: &[u8],
    size: AskedSize,
    source: Source<'a>,
) -> Result<Prepared, Fault<'a>>
    requires { HasSourceLimits source }
    ensures ok { IfOk result (λ opened. IsOpened source.entry size (F.known files.old) image.now
        opened.machine opened.events.items) }
    ensures fault { IfErr result (λ fault. (fault ≡ Fault.Memory)
        ⊎ IsSourceFault source.entry size (F.known files.old) image.now fault) }
    ensures asks { AsksFor (source_files source.entry) result (F.asked files.old)
        (F.asked files.new) }
{
    match source {
        Source::File(name) => open_file(alloc, files, image, size, name),
        Source::Driven(drive) => open_driven(alloc, files, image, size, drive),
    }
}

// Boots an image, with the events of a file.
fn open_file<'a, F: FileSource>(
    alloc: Global,
    files: &mut F,
    image: &[u8],
    size: AskedSize,
    name: &'a str,
) -> Result<Prepared, Fault<'a>>
    ensures ok { IfOk result (λ opened. IsOpened (sources.File name.entry) size (F.known files.old)
        image.now opened.machine opened.events.items) }
    ensures fault { IfErr result (λ fault. (fault ≡ Fault.Memory)
        ⊎ IsSourceFault (sources.File name.entry) size (F.known files.old) image.now fault) }
    ensures asks { AsksFor (name.entry.now ∷ []) result (F.asked files.old)
        (F.asked files.new) }
{
    let text = read_text(alloc, files, name)?;
    let booted = boot_for(alloc, image, size, Some(text.as_str()))?;
    let events = booted.events.to_vec(alloc)?;
    Ok(Prepared {
        machine: booted.machine,
        events,
    })
}

// Boots an image, with the events of an order, and of the file of `--after` before them.
fn open_driven<'a, F: FileSource>(
    alloc: Global,
    files: &mut F,
    image: &[u8],
    size: AskedSize,
    drive: Drive<'a>,
) -> Result<Prepared, Fault<'a>>
    requires { order_fault drive.order ≡ None }
    ensures ok { IfOk result (λ opened. IsOpened (sources.Driven drive.entry) size
        (F.known files.old) image.now opened.machine opened.events.items) }
    ensures fault { IfErr result (λ fault. (fault ≡ Fault.Memory)
        ⊎ IsSourceFault (sources.Driven drive.entry) size (F.known files.old) image.now fault) }
    ensures asks { AsksFor (source_files (sources.Driven drive.entry)) result (F.asked files.old)
        (F.asked files.new) }
{
    let text = read_text_if(alloc, files, drive.after)?;
    let keys = read_keys(alloc, files, drive.keys)?;
    let booted = boot_for(alloc, image, size, text.as_deref())?;
    choose(alloc, booted, drive, &keys)
}

// Boots an image, in the machine that is asked for over a text's events, if there is a text.
fn boot_for<'a>(
    alloc: Global,
    image: &[u8],
    size: AskedSize,
    text: Option<&str>,
) -> Result<BootedRun, Fault<'a>>
    ensures ok { IfOk result (λ booted. (conf : MachineConf)
        × ListsFirst size image.now (option_map (λ t. t.now) text.entry) booted.events conf
        × BootsTo image.now conf booted.machine) }
    ensures fault { IfErr result (IsUnbooted size image.now (option_map (λ t. t.now) text.entry)) }
{
    let planned = plan_first(alloc, size, image, text)?;
    let machine = boot_machine(alloc, image, planned.conf)?;
    Ok(BootedRun {
        machine,
        events: planned.events,
    })
}

// The events that come first, and those that an order chooses behind them, on a copy of the state.
fn choose<'a>(
    alloc: Global,
    booted: BootedRun,
    drive: Drive<'_>,
    keys: &[u8],
) -> Result<Prepared, Fault<'a>>
    requires { order_fault drive.order ≡ None }
    ensures ok { IfOk result (λ opened. (opened.machine ≡ booted.machine)
        × TakesBehind (rules_of drive.entry keys.now) drive.entry.events booted.machine.state
        booted.events opened.events.items) }
    ensures fault { IfErr result (λ fault. fault ≡ Fault.Memory) }
{
    let mut core = booted.machine.core().copy(alloc)?;
    let events = session_behind(alloc, &mut core, &booted.events, drive, keys)?;
    Ok(Prepared {
        machine: booted.machine,
        events,
    })
}
