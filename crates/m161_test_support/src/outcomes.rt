//! What events answer, by names.

use m161_machine::{Conf, Event, Exception, LinkUnit, Outcome, Refusal};

/// Where programs begin.
pub const ENTRY: u32 = 0x8000_0200;

/// The smallest machine.
pub const SMALLEST: Conf = Conf {
    ram: 4096,
    processors: 1,
    log: 100,
    link: LinkUnit::Word,
    strict: false,
};

/// What a Step answers.
pub type Answer = Result<Outcome, Refusal>;

/// The Step executed its instruction.
pub const RAN: Answer = Ok(Outcome::Ran);

/// The Step did nothing: the processor rests.
pub const IDLE: Answer = Ok(Outcome::Idle);

/// The Step switched the machine off.
pub const OFF: Answer = Ok(Outcome::PoweredOff);

/// The input was taken.
pub const TAKEN: Answer = Ok(Outcome::Taken);

/// The Step trapped: interrupt.
pub const INTERRUPT: Answer = Ok(Outcome::Trapped {
    code: Exception::Interrupt,
    vector: 0x8000_0080,
});

/// The Step trapped: modified.
pub const MODIFIED: Answer = Ok(Outcome::Trapped {
    code: Exception::TlbModified,
    vector: 0x8000_0080,
});

/// No row of a page below 80000000 matches.
pub const LOAD_MISS: Answer = Ok(Outcome::Trapped {
    code: Exception::TlbLoad,
    vector: 0x8000_0000,
});

/// The Step trapped: store miss.
pub const STORE_MISS: Answer = Ok(Outcome::Trapped {
    code: Exception::TlbStore,
    vector: 0x8000_0000,
});

/// The Step trapped: tlb load.
pub const TLB_LOAD: Answer = Ok(Outcome::Trapped {
    code: Exception::TlbLoad,
    vector: 0x8000_0080,
});

/// The Step trapped: tlb store.
pub const TLB_STORE: Answer = Ok(Outcome::Trapped {
    code: Exception::TlbStore,
    vector: 0x8000_0080,
});

/// The Step trapped: address load.
pub const ADDRESS_LOAD: Answer = Ok(Outcome::Trapped {
    code: Exception::AddressErrorLoad,
    vector: 0x8000_0080,
});

/// The Step trapped: address store.
pub const ADDRESS_STORE: Answer = Ok(Outcome::Trapped {
    code: Exception::AddressErrorStore,
    vector: 0x8000_0080,
});

/// The Step trapped: bus fetch.
pub const BUS_FETCH: Answer = Ok(Outcome::Trapped {
    code: Exception::BusErrorFetch,
    vector: 0x8000_0080,
});

/// The Step trapped: bus data.
pub const BUS_DATA: Answer = Ok(Outcome::Trapped {
    code: Exception::BusErrorData,
    vector: 0x8000_0080,
});

/// The Step trapped: syscall.
pub const SYSCALL: Answer = Ok(Outcome::Trapped {
    code: Exception::SystemCall,
    vector: 0x8000_0080,
});

/// The Step trapped: breakpoint.
pub const BREAKPOINT: Answer = Ok(Outcome::Trapped {
    code: Exception::Breakpoint,
    vector: 0x8000_0080,
});

/// The Step trapped: reserved.
pub const RESERVED: Answer = Ok(Outcome::Trapped {
    code: Exception::ReservedInstruction,
    vector: 0x8000_0080,
});

/// The Step trapped: unusable.
pub const UNUSABLE: Answer = Ok(Outcome::Trapped {
    code: Exception::CoprocessorUnusable,
    vector: 0x8000_0080,
});

/// The Step trapped: overflow.
pub const OVERFLOW: Answer = Ok(Outcome::Trapped {
    code: Exception::Overflow,
    vector: 0x8000_0080,
});

/// An event, how many times it is made, and what is answered every time.
pub type Times = (Event, u32, Answer);
