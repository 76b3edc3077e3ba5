//! Why a session ends early.

use std::alloc::AllocError;

/// Why a session ends early.
#[derive(Drop)]
pub enum ServerFault<E> {
    /// The input can't be read.
    Input,
    /// The output failed.
    Output,
    /// Memory was refused.
    Memory,
    /// The run can't be gone along.
    Run(E),
}

impl<E> From<AllocError> for ServerFault<E> {
    ghost use Rattle.std.specs.Prelude.{◌≡◌};
    ghost use Rattle.m161_server.specs.declared.fault.ServerFault.TheVariants.{Memory};

    ghost from_gives = { λ _ fault. fault ≡ Memory };

    fn from(_error: AllocError) -> ServerFault<E> {
        ServerFault::Memory
    }
}
