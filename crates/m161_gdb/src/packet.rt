//! Packets, the bodies of frames.

ghost use Rattle.std.specs.Prelude.{◌≡◌, ◌++◌, ◌∷◌, [], MatchResult};
ghost use Rattle.m161_gdb.specs.Packets.{first_naming, is_watch, names};

use crate::body::Body;
use std::alloc::{AllocError, Global};
use std::marker::Model;

/// A thread that a packet names. Threads are processors.
#[derive(Clone, Copy, Debug, PartialEq, Eq)]
pub enum Thread {
    /// Any: `-1` or 0.
    Any,
    /// This processor, which is perhaps none of the machine's. A packet has its number and 1.
    Processor(u32),
}

impl Thread {
    /// Whether it is this processor, or any.
    pub fn names(self, processor: u32) -> bool
        ensures { result ≡ names self processor }
    {
        match self {
            Thread::Any => true,
            Thread::Processor(p) => p == processor,
        }
    }
}

/// What a resumed processor does.
#[derive(Clone, Copy, Debug, PartialEq, Eq)]
pub enum Motion {
    /// It goes on.
    Continue,
    /// It makes a Step.
    Step,
}

/// An action of a packet that resumes processors.
#[derive(Clone, Copy, Debug, PartialEq, Eq)]
pub struct Action {
    /// What the processors do.
    pub motion: Motion,
    /// Which ones.
    pub thread: Thread,
}

/// The actions of a packet, in its order. Contracts see them as their list.
#[derive(Drop)]
pub struct Actions {
    actions: Vec<Action>,
}

impl Model for Actions {
    ghost use Rattle.std.specs.Prelude.{List};
    ghost use Rattle.m161_gdb.specs.declared.packet.Action.{Action};

    ghost Value = { List Action };

    ghost view = { λ a. a.actions.items };
}

impl Actions {
    /// No actions. Does not allocate.
    pub(crate) fn empty(alloc: Global) -> Actions
        ensures { result ≡ [] }
    {
        Actions {
            actions: Vec::new(alloc),
        }
    }

    /// Adds an action behind the others.
    ///
    /// # Errors
    /// Memory was refused. The actions are as they were.
    pub(crate) fn push(&mut self, action: Action) -> Result<(), AllocError>
        ensures { MatchResult result
            (λ _. self.new ≡ self.old ++ action ∷ []) (λ _. self.new ≡ self.old) }
    {
        self.actions.push(action)?;
        Ok(())
    }

    /// They, in order.
    pub fn as_slice(&self) -> &[Action]
        ensures { result.now ≡ self.now }
    {
        self.actions.as_slice()
    }

    /// What a processor does, by the first that names it; `None` if none does.
    pub fn motion_of(&self, processor: u32) -> Option<Motion>
        ensures { result ≡ first_naming processor self.now }
    {
        let mut rest = self.actions.as_slice();
        while let [action, behind @ ..] = rest {
            if action.thread.names(processor) {
                return Some(action.motion);
            }
            rest = behind;
        }
        None
    }
}

/// A kind of breakpoint or watch.
#[derive(Clone, Copy, Debug, PartialEq, Eq)]
pub enum Kind {
    /// A breakpoint in software.
    Software,
    /// A breakpoint in hardware.
    Hardware,
    /// A watch of stores.
    Write,
    /// A watch of loads.
    Read,
    /// A watch of loads and stores.
    Access,
}

impl Kind {
    /// Whether it is a watch.
    pub fn is_watch(self) -> bool
        ensures { result ≡ is_watch self }
    {
        match self {
            Kind::Software | Kind::Hardware => false,
            Kind::Write | Kind::Read | Kind::Access => true,
        }
    }
}

/// A change of a breakpoint or watch.
#[derive(Clone, Copy, Debug, PartialEq, Eq)]
pub enum Change {
    /// It is set.
    Set,
    /// It is taken away.
    Delete,
}

/// A packet. Whether the machine has a processor that it names isn't looked at.
#[derive(Drop)]
pub enum Packet {
    /// `qSupported`: what both sides know.
    Supported,
    /// `QStartNoAckMode`: no acknowledgements from now on.
    NoAcknowledgements,
    /// `?`: the last stop.
    LastStop,
    /// `Hg`: chooses the general processor.
    General(Thread),
    /// `Hc`: chooses the processors that moves resume.
    Control(Thread),
    /// `T`: whether there is this processor.
    IsThread(u32),
    /// `qC`: the general processor.
    GeneralThread,
    /// `qfThreadInfo`: the processors.
    Threads,
    /// `qsThreadInfo`: those that `qfThreadInfo` left, which are none.
    MoreThreads,
    /// `qThreadExtraInfo`: the state of a processor.
    ThreadState(u32),
    /// `qAttached`: whether the machine was there before the client.
    IsAttached,
    /// `qSymbol`: the client offers values of symbols.
    Symbols,
    /// `qXfer:features:read`: the target's description, from a place on and at most this number of
    /// bytes.
    Description(u32, u32),
    /// `qXfer:threads:read`: the list of threads, likewise.
    ThreadList(u32, u32),
    /// `g`: all words of the general processor.
    Registers,
    /// `p`: one of them, below 81.
    Register(u32),
    /// `m`: bytes from a virtual address on, at least 1.
    Memory(u32, u32),
    /// `G`, `P`, `M`, `X`: a change of registers or memory, which there isn't.
    Write,
    /// `Z`, `z`: a change of a breakpoint or watch at an address, of this length. A watch's is at
    /// least 1, and it ends within 2^32.
    Place(Change, Kind, u32, u32),
    /// `vCont?`: which actions there are.
    KnownActions,
    /// `vCont`: resumes processors by actions.
    Resume(Actions),
    /// `c`: goes on.
    Continue,
    /// `s`: makes a Step.
    Step,
    /// `bc`: goes back.
    ContinueBack,
    /// `bs`: takes a Step back.
    StepBack,
    /// `qRcmd`: a line of the monitor.
    Monitor(Body),
    /// `D`: the client leaves.
    Detach,
    /// `k`: the session ends.
    Kill,
    /// One of these, whose arguments aren't its own.
    Malformed,
    /// Any other body.
    Unknown,
}
