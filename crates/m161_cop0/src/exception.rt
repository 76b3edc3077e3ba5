//! Why a Step traps.

ghost use Rattle.std.specs.Prelude.{◌≡◌, ◌<◌, Some, IfSome};
ghost use Rattle.m161_cop0.specs.Registers.{number_of_exception, exception_with};

/// Why a Step traps, in the order of the codes in Cause.
#[derive(Clone, Copy, Debug, PartialEq, Eq)]
pub enum Exception {
    /// An interrupt that is enabled and not masked.
    Interrupt,
    /// A store through a row without D.
    TlbModified,
    /// A fetch or a load without a valid row.
    TlbLoad,
    /// A store without a valid row.
    TlbStore,
    /// A fetch or a load of a misaligned address, or of a kernel address in user mode.
    AddressErrorLoad,
    /// A store to such an address.
    AddressErrorStore,
    /// A fetch outside memory.
    BusErrorFetch,
    /// A load or a store at an address where nothing is on the bus.
    BusErrorData,
    /// `syscall`.
    SystemCall,
    /// `break`.
    Breakpoint,
    /// A word that isn't an instruction, or a branch in a delay slot.
    ReservedInstruction,
    /// An instruction of a coprocessor that doesn't exist or may not be used.
    CoprocessorUnusable,
    /// A sum or a difference that isn't a signed word.
    Overflow,
}

impl Exception {
    /// Its code in Cause.
    pub fn number(self) -> u8
        ensures value { result ≡ number_of_exception self }
        ensures back { exception_with result ≡ Some self }
        ensures small { result < 13 }
    {
        match self {
            Exception::Interrupt => 0,
            Exception::TlbModified => 1,
            Exception::TlbLoad => 2,
            Exception::TlbStore => 3,
            Exception::AddressErrorLoad => 4,
            Exception::AddressErrorStore => 5,
            Exception::BusErrorFetch => 6,
            Exception::BusErrorData => 7,
            Exception::SystemCall => 8,
            Exception::Breakpoint => 9,
            Exception::ReservedInstruction => 10,
            Exception::CoprocessorUnusable => 11,
            Exception::Overflow => 12,
        }
    }

    /// The exception of a code in Cause; `None` from 13 on.
    pub fn from_number(number: u8) -> Option<Exception>
        ensures value { result ≡ exception_with number }
        ensures back { IfSome result (λ e. number_of_exception e ≡ number) }
    {
        match number {
            0 => Some(Exception::Interrupt),
            1 => Some(Exception::TlbModified),
            2 => Some(Exception::TlbLoad),
            3 => Some(Exception::TlbStore),
            4 => Some(Exception::AddressErrorLoad),
            5 => Some(Exception::AddressErrorStore),
            6 => Some(Exception::BusErrorFetch),
            7 => Some(Exception::BusErrorData),
            8 => Some(Exception::SystemCall),
            9 => Some(Exception::Breakpoint),
            10 => Some(Exception::ReservedInstruction),
            11 => Some(Exception::CoprocessorUnusable),
            12 => Some(Exception::Overflow),
            _ => None,
        }
    }
}
