//! A program of one's own over the machine: it boots a kernel that prints two bytes, lets the
//! console send them, types a byte at a copy of the machine, and lets the copy go on.
//!
//! ```text
//! m161_example IMAGE    prints the console's output, and where the machine and its copy differ
//! ```
#![tactic(auto)]

use m161::{BootError, Conf, Event, LinkUnit, Machine, Refusal};
use std::alloc::AllocError;
use std::process::ExitCode;
use std::{env, fs, io};
use thiserror::Error;

/// Why the program ends early.
#[derive(Drop, Debug, Error)]
enum Failure {
    #[error("usage: m161_example IMAGE")]
    Usage,
    #[error("{0}")]
    Io(#[from] io::Error),
    #[error("{0}")]
    Boot(#[from] BootError),
    #[error("an event was refused: {0}")]
    Refused(#[from] Refusal),
    #[error("out of memory")]
    Memory(#[from] AllocError),
}

// The machine of the image that the command line names.
fn boot(rt: &HostRuntime) -> Result<Machine, Failure> {
    let mut words = env::args(rt)?.skip(1);
    let Some(name) = words.next() else {
        return Err(Failure::Usage);
    };
    let file = fs::read(rt, name.as_str())?;
    let conf = Conf {
        ram: 1_048_576,
        processors: 1,
        log: 100,
        link: LinkUnit::Word,
        strict: false,
    };
    Ok(Machine::boot(rt.alloc(), &file, conf)?)
}

// Five Steps write a byte, which the console sends; after twenty more it sends another.
fn make_events(machine: &mut Machine) -> Result<(), Refusal> {
    for steps in [5, 20] {
        for _ in 0..steps {
            machine.event(Event::Step(0))?;
        }
        machine.event(Event::Done)?;
    }
    Ok(())
}

// Prints the bytes that the console has sent, and where each processor is.
fn print(rt: &HostRuntime, machine: &Machine) -> io::Result<()> {
    for byte in machine.output() {
        print!(rt; "{}", char::from(*byte))?;
    }
    println!(rt; "")?;
    for p in 0..machine.processors() {
        println!(rt;
            "cpu {p} pc {:08x} steps {}",
            machine.pc(p),
            machine.count(p)
        )?;
    }
    Ok(())
}

// Prints how a machine and its copy differ.
fn compare(rt: &HostRuntime, machine: &Machine, copy: &Machine) -> io::Result<()> {
    println!(rt; "entries {} and {}", machine.log_len(), copy.log_len())?;
    for p in 0..machine.processors().min(copy.processors()) {
        println!(rt; "cpu {p} pc {:08x} and {:08x}", machine.pc(p), copy.pc(p))?;
    }
    Ok(())
}

// Runs the image, types a byte at a copy of its machine, and lets the copy go on.
fn show(rt: &HostRuntime) -> Result<(), Failure> {
    let mut machine = boot(rt)?;
    make_events(&mut machine)?;
    print(rt, &machine)?;
    let mut copy = machine.copy(rt.alloc())?;
    copy.event(Event::Key(b'x'))?;
    copy.event(Event::Step(0))?;
    compare(rt, &machine, &copy)?;
    Ok(())
}

fn main(rt: HostRuntime) -> ExitCode {
    match show(&rt) {
        Ok(()) => ExitCode::from(0),
        Err(failure) => {
            let _ = eprintln!(&rt; "m161_example: {failure}");
            ExitCode::from(1)
        }
    }
}
