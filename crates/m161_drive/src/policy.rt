//! What chooses the events of a driven run.

use m161_order::{Order, OrderError};
use std::marker::Model;

/// A policy: an order of Steps, when a transfer of the console ends, and which keys are typed, and
/// when.
#[derive(Drop)]
pub struct Policy<'a> {
    order: Order,
    transfer: u32,
    gap: Option<u32>,
    keys: &'a [u8],
}

impl<'a> Model for Policy<'a> {
    ghost use Rattle.std.specs.Prelude.{◌≡◌, None};
    ghost use Rattle.m161_order.specs.Order.{order_fault};
    ghost use Rattle.m161_drive.specs.Policy.{Rules};

    ghost Value = { Rules };

    ghost view = { λ p. record {
      order = p.order;
      transfer = p.transfer;
      gap = p.gap;
      keys = p.keys.now;
    } };

    ghost invariant = { λ p. order_fault p.order ≡ None };
}

impl<'a> Policy<'a> {
    ghost use Rattle.std.specs.Prelude.{◌≡◌, ◌-◌, ◌<◌, ◌^◌, None, Some, IfSome, MatchResult, slice_get};
    ghost use Rattle.m161_order.specs.Order.{order_fault};

    /// A policy. A byte in the console's latch is sent once `transfer` events were accepted after
    /// the one that put it there, and a key is typed once `gap` events were accepted after the last
    /// one; both also where no processor is ready. Without a gap a key is typed only there.
    ///
    /// # Errors
    /// The first number of the order that is outside its limits.
    pub fn new(
        order: Order,
        transfer: u32,
        gap: Option<u32>,
        keys: &'a [u8],
    ) -> Result<Policy<'a>, OrderError>
        ensures { MatchResult result
            (λ policy. (order_fault order ≡ None)
            × (policy ≡ record { order = order; transfer = transfer; gap = gap; keys = keys.now }))
            (λ e. order_fault order ≡ Some e) }
    {
        if let Some(error) = order.fault() {
            return Err(error);
        }
        Ok(Policy {
            order,
            transfer,
            gap,
            keys,
        })
    }

    /// Its order, whose numbers are within their limits.
    pub fn order(&self) -> Order
        ensures value { result ≡ self.now.order }
        ensures limits { order_fault result ≡ None }
    {
        self.order
    }

    /// After how many events a byte in the latch is sent.
    pub fn transfer(&self) -> u32
        ensures { result ≡ self.now.transfer }
    {
        self.transfer
    }

    /// After how many events a key is typed.
    pub fn gap(&self) -> Option<u32>
        ensures { result ≡ self.now.gap }
    {
        self.gap
    }

    /// A key by its number, if there is one.
    pub fn key(&self, i: usize) -> Option<u8>
        ensures value { result ≡ slice_get self.now.keys i }
        ensures within { IfSome result (λ _. i < 2 ^ 64 - 1) }
    {
        if i < self.keys.len() {
            Some(self.keys[i])
        } else {
            None
        }
    }
}
