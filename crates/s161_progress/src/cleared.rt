//! Outputs that a meter makes room for.

ghost use Rattle.std.specs.Prelude.{◌≡◌};

use crate::meter::Meter;
use std::io;
use std::io::Write;
use std::sync::Wait;

/// An output, before whose first byte a meter ends, if there is one. It is that output: what the meter
/// shows is no part of it.
#[derive(Drop)]
pub struct Cleared<'a, R, W, E> {
    rt: &'a R,
    meter: Option<&'a Meter>,
    output: W,
    errors: E,
}

impl<'a, R: Wait, W: Write, E: Write> Cleared<'a, R, W, E> {
    /// An output, and where the meter's line is cleared.
    pub fn new(rt: &'a R, meter: Option<&'a Meter>, output: W, errors: E) -> Cleared<'a, R, W, E>
        ensures { result.output ≡ output }
    {
        Cleared {
            rt,
            meter,
            output,
            errors,
        }
    }

    // Ends the meter, once.
    fn clear(&mut self)
        ensures { self.new.output ≡ self.old.output }
    {
        if let Some(meter) = self.meter {
            meter.end(self.rt, &mut self.errors);
            self.meter = None;
        }
    }
}

impl<'a, R: Wait, W: Write, E: Write> Write for Cleared<'a, R, W, E> {
    ghost contents = { λ cleared. W.contents cleared.output };

    fn write(&mut self, buf: &[u8]) -> io::Result<usize> {
        self.clear();
        self.output.write(buf)
    }

    fn flush(&mut self) -> io::Result<()> {
        self.output.flush()
    }
}
