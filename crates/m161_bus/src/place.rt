//! What the controller keeps for each processor.

ghost use Rattle.std.specs.Prelude.{◌≡◌, ◌<◌, length, slice_index, slice_set};
ghost use Rattle.m161_bus.specs.Board.{PlaceState, place_at_boot, lines_at};
ghost use Rattle.m161_bus.specs.Restore.{restored_place};

use crate::board::PlaceParts;
use std::marker::Model;

/// Words of a processor's CRAM.
const CRAM_WORDS: usize = 64;

/// The bus line of a processor, in Cause's IP.
const BUS_LINE: u32 = 0x400;

/// The interprocessor line of a processor, in Cause's IP.
const INTERPROCESSOR_LINE: u32 = 0x800;

/// The registers of one processor.
#[derive(Clone, Copy)]
pub(crate) struct Place {
    cirqe: u32,
    cipi: bool,
    cram: [u32; CRAM_WORDS],
}

impl Model for Place {
    ghost use Rattle.std.specs.Prelude.{◌≡◌, length};
    ghost use Rattle.m161_bus.specs.Board.{PlaceState};

    ghost Value = { PlaceState };

    ghost view = { λ p. record { cirqe = p.cirqe; cipi = p.cipi; cram = p.cram } };

    ghost invariant = { λ p. length p.cram ≡ 64 };

    ghost inverse = { λ s. record { cirqe = s.cirqe; cipi = s.cipi; cram = s.cram } };
}

impl Place {
    /// As at boot, except for CIRQE.
    pub(crate) fn at_boot(cirqe: u32) -> Place
        ensures { result ≡ place_at_boot cirqe }
    {
        Place {
            cirqe,
            cipi: false,
            cram: [0; CRAM_WORDS],
        }
    }

    /// Makes it one that holds this.
    pub(crate) fn restore(&mut self, parts: &PlaceParts)
        requires { length parts.now.cram ≡ 64 }
        ensures { self.new ≡ restored_place parts.now }
    {
        self.cirqe = parts.cirqe;
        self.cipi = parts.cipi;
        self.cram = parts.cram;
    }

    /// CIRQE.
    pub(crate) fn cirqe(&self) -> u32
        ensures { result ≡ self.now.cirqe }
    {
        self.cirqe
    }

    /// Whether CIPI is raised.
    pub(crate) fn cipi(&self) -> bool
        ensures { result ≡ self.now.cipi }
    {
        self.cipi
    }

    /// A word of CRAM.
    pub(crate) fn cram(&self, i: u32) -> u32
        requires { i < 64 }
        ensures { result ≡ slice_index self.now.cram i }
    {
        self.cram[i as usize]
    }

    /// Replaces CIRQE.
    pub(crate) fn set_cirqe(&mut self, word: u32)
        ensures { self.new ≡ record self.old { cirqe = word } }
    {
        self.cirqe = word;
    }

    /// Raises or drops CIPI.
    pub(crate) fn set_cipi(&mut self, raised: bool)
        ensures { self.new ≡ record self.old { cipi = raised } }
    {
        self.cipi = raised;
    }

    /// Replaces a word of CRAM.
    pub(crate) fn set_cram(&mut self, i: u32, word: u32)
        requires { i < 64 }
        ensures { self.new ≡ record self.old { cram = slice_set self.old.cram i word } }
    {
        self.cram[i as usize] = word;
    }

    /// The lines of the processor, if IRQE lets these bits of IRQS through.
    pub(crate) fn lines(&self, through: u32) -> u32
        ensures { result ≡ lines_at through self.now }
    {
        let bus = if through & self.cirqe != 0 {
            BUS_LINE
        } else {
            0
        };
        let interprocessor = if self.cipi { INTERPROCESSOR_LINE } else { 0 };
        bus + interprocessor
    }
}
