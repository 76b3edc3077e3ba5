//! What a machine was booted from.

use crate::conf::Conf;
use std::marker::Model;

/// What a machine was booted from: a copy that doesn't change with the machine. The history of a
/// machine begins with it.
#[derive(Drop)]
pub struct Start {
    /// RAM as it was loaded, from physical address 0 on.
    pub bytes: Vec<u8>,
    /// The address of processor 0's first instruction.
    pub entry: u32,
    /// The size of the machine.
    pub conf: Conf,
}

impl Model for Start {
    ghost use Rattle.m161_machine.specs.History.{Start};

    ghost Value = { Start };

    ghost view = { λ s. record { bytes = s.bytes.items; entry = s.entry; conf = s.conf } };
}
