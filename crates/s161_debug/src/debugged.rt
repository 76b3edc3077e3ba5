//! A session together with its style.

ghost use Rattle.std.specs.Prelude.{◌≡◌, string_bytes};
ghost use Rattle.m161_machine.specs.History.{Answers};
ghost use Rattle.m161_debug.specs.Jumps.{jump_fault, Jumps};
ghost use Rattle.m161_debug.specs.Obeys.{Commands};
ghost use Rattle.s161_debug.specs.Sessions.{session_of};

use crate::Session;
use m161::Machine;
use m161_debug::{CommandError, JumpError};
use m161_dis::Style;
use m161_machine::{Event, Outcome, Refusal};
use std::alloc::Global;
use std::marker::Model;

/// A session, and its style once more, which a session doesn't show. Contracts see it as the session.
#[derive(Drop)]
pub(crate) struct Debugged {
    session: Session,
    style: Style,
}

impl Model for Debugged {
    ghost use Rattle.std.specs.Prelude.{◌≡◌};
    ghost use Rattle.m161_debug.specs.Breakpoints.{SessionState};

    ghost Value = { SessionState };

    ghost view = { λ d. d.session };

    ghost invariant = { λ d. d.style ≡ d.session.style };
}

impl Debugged {
    /// A session of a machine in a style, which is given twice.
    pub(crate) fn new(machine: Machine, style: Style, again: Style) -> Debugged
        requires { again ≡ style }
        ensures { result ≡ session_of machine style }
    {
        Debugged {
            session: Session::with_style(machine, style),
            style: again,
        }
    }

    /// The machine.
    pub(crate) fn machine(&self) -> &Machine
        ensures { result.now ≡ self.now.machine }
    {
        self.session.machine()
    }

    /// How it shows registers and addresses.
    pub(crate) fn style(&self) -> &Style
        ensures { result.now ≡ self.now.style }
    {
        &self.style
    }

    /// Does a command of the session.
    ///
    /// # Errors
    /// Those of the command.
    pub(crate) fn command(
        &mut self,
        line: &str,
        rest: &[Event],
        text: &mut String,
    ) -> Result<usize, CommandError>
        ensures { Commands line.now self.old rest.now result self.new
            (string_bytes text.old) (string_bytes text.new) }
    {
        self.session.command(line, rest, text)
    }

    /// Makes an event, whatever the breakpoints.
    ///
    /// # Errors
    /// Those of the machine. Nothing is changed then.
    pub(crate) fn step(&mut self, event: Event) -> Result<Outcome, Refusal>
        ensures answers { Answers self.old.machine event result self.new.machine }
        ensures breakpoints { self.new.breakpoints ≡ self.old.breakpoints }
        ensures style { self.new.style ≡ self.old.style }
    {
        self.session.step(event)
    }

    /// Goes back to the state before event `k`. Returns the events that are undone.
    ///
    /// # Errors
    /// Those of the session's jump. The session is as it was then.
    pub(crate) fn jump(&mut self, alloc: Global, k: u64) -> Result<Vec<Event>, JumpError>
        ensures { Jumps (jump_fault k self.old.machine) k self.old result self.new }
    {
        self.session.jump(alloc, k)
    }
}
