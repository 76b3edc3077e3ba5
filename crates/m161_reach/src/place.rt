//! A state of the exploration.

use crate::kept::WatchFlags;
use m161_bus::Console;
use m161_machine::Core;
use m161_tlb::Tlb;
use std::marker::Model;

/// A state of the exploration: a machine, and what is kept beside it. Contracts see it as before any
/// event: how many events its machine has accepted is no part of it.
#[derive(Drop)]
pub struct Place<T: Tlb, D: Console> {
    pub(crate) core: Core<T, D>,
    // How many keys were typed.
    pub(crate) typed: u32,
    // Of each watch.
    pub(crate) kept: Vec<WatchFlags>,
    // How many bytes the console has sent, where they are the first of the output that is asked for.
    pub(crate) agreed: Option<u32>,
}

impl<T: Tlb, D: Console> Model for Place<T, D> {
    ghost use Rattle.m161_states.specs.System.{Explored, fresh};

    ghost Value = { Explored };

    ghost view = { λ x. record {
      state = fresh x.core.state;
      typed = x.typed;
      flags = x.kept.items;
      agreed = x.agreed;
    } };
}
