//! Why an instruction isn't executed, or why none comes after it.

ghost use Rattle.std.specs.Prelude.{◌≡◌, ◌<◌, Result};
ghost use Rattle.m161_cpu.specs.declared.fault.StepFault.{StepFault};
ghost use Rattle.m161_cpu.specs.declared.fault.StepEnd.TheVariants as stops;
ghost use Rattle.m161_cpu.specs.Fault.{exception_of, fault, fault_at, unit_of_kind, is_user_miss_kind};
ghost use Rattle.m161_cpu.specs.Scene.{Change, Scene};
ghost use Rattle.m161_cpu.specs.helpers.Execute.{Executes, Performs, Settles};

use m161_cop0::Exception;

/// Why memory is accessed.
#[derive(Clone, Copy, Debug, PartialEq, Eq)]
pub(crate) enum Access {
    Fetch,
    Load,
    Store,
}

/// Why an instruction isn't executed: the exception and everything else that its trap depends on,
/// except the address.
#[derive(Clone, Copy, Debug, PartialEq, Eq)]
pub(crate) enum FaultKind {
    Interrupt,
    TlbModified,
    /// The row isn't valid, or there is none for an address in kseg2.
    TlbLoad,
    TlbStore,
    /// There is no row for an address in kuseg.
    UserMissLoad,
    UserMissStore,
    AddressErrorLoad,
    AddressErrorStore,
    BusErrorFetch,
    BusErrorData,
    SystemCall,
    Breakpoint,
    ReservedInstruction,
    Coprocessor0Unusable,
    Coprocessor1Unusable,
    Coprocessor2Unusable,
    Coprocessor3Unusable,
    Overflow,
}

impl FaultKind {
    /// Its exception.
    pub(crate) fn exception(self) -> Exception
        ensures { result ≡ exception_of self }
    {
        match self {
            FaultKind::Interrupt => Exception::Interrupt,
            FaultKind::TlbModified => Exception::TlbModified,
            FaultKind::TlbLoad | FaultKind::UserMissLoad => Exception::TlbLoad,
            FaultKind::TlbStore | FaultKind::UserMissStore => Exception::TlbStore,
            FaultKind::AddressErrorLoad => Exception::AddressErrorLoad,
            FaultKind::AddressErrorStore => Exception::AddressErrorStore,
            FaultKind::BusErrorFetch => Exception::BusErrorFetch,
            FaultKind::BusErrorData => Exception::BusErrorData,
            FaultKind::SystemCall => Exception::SystemCall,
            FaultKind::Breakpoint => Exception::Breakpoint,
            FaultKind::ReservedInstruction => Exception::ReservedInstruction,
            FaultKind::Coprocessor0Unusable
            | FaultKind::Coprocessor1Unusable
            | FaultKind::Coprocessor2Unusable
            | FaultKind::Coprocessor3Unusable => Exception::CoprocessorUnusable,
            FaultKind::Overflow => Exception::Overflow,
        }
    }

    /// The coprocessor that isn't usable, else 0.
    pub(crate) fn unit(self) -> u8
        ensures { result ≡ unit_of_kind self }
    {
        match self {
            FaultKind::Coprocessor1Unusable => 1,
            FaultKind::Coprocessor2Unusable => 2,
            FaultKind::Coprocessor3Unusable => 3,
            _ => 0,
        }
    }

    /// Whether no row matched an address in kuseg.
    pub(crate) fn is_user_miss(self) -> bool
        ensures { result ≡ is_user_miss_kind self }
    {
        match self {
            FaultKind::UserMissLoad | FaultKind::UserMissStore => true,
            _ => false,
        }
    }
}

/// A fault, of which only the entry of its trap changes the processor.
#[derive(Clone, Copy, Debug, PartialEq, Eq)]
pub(crate) struct StepFault {
    pub(crate) kind: FaultKind,
    /// The address that was to be fetched, loaded or stored; 0 for a kind without an address, whose
    /// trap uses none.
    pub(crate) address: u32,
}

impl StepFault {
    /// A fault without an address.
    #[inline(always)]
    pub(crate) fn of(kind: FaultKind) -> StepFault
        ensures { result ≡ fault kind }
    {
        StepFault { kind, address: 0 }
    }

    /// A fault of an address.
    #[inline(always)]
    pub(crate) fn at(kind: FaultKind, address: u32) -> StepFault
        ensures { result ≡ fault_at kind address }
    {
        StepFault { kind, address }
    }
}

/// Why a Step ends otherwise than by an instruction after which the machine goes on.
#[derive(Clone, Copy, Debug, PartialEq, Eq)]
pub(crate) enum StepEnd {
    /// The instruction isn't executed.
    Fault(StepFault),
    /// It is executed, and switches the machine off.
    PoweredOff,
    /// It is executed but for the row of the TLB that it writes, which would overlap another one.
    Conflict { row: u8, other: u8 },
}

impl From<StepFault> for StepEnd {
    ghost from_gives = { λ fault stop. stop ≡ stops.Fault fault };

    fn from(fault: StepFault) -> StepEnd {
        StepEnd::Fault(fault)
    }
}

/// An instruction that leaves the machine on if it was.
#[inline(always)]
pub(crate) fn stopped(executed: Result<(), StepFault>) -> Result<(), StepEnd>
    ensures { (r : Result Change StepFault) (before after : Scene)
        → after.around.board.off ≡ before.around.board.off
        → Executes r before executed after
        → Performs r before result after }
{
    match executed {
        Ok(()) => Ok(()),
        Err(fault) => Err(StepEnd::Fault(fault)),
    }
}

/// The same of an instruction that may write a row of the TLB.
#[inline(always)]
pub(crate) fn settled(executed: Result<(), StepEnd>) -> Result<(), StepEnd>
    ensures { (r : Result Change StepFault) (before after : Scene)
        → after.around.board.off ≡ before.around.board.off
        → Settles r before executed after
        → Performs r before result after }
{
    executed
}
