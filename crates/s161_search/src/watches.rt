//! Reading the text of watches.

ghost use Rattle.std.specs.Prelude.{IfErr, IfOk};
ghost use Rattle.m161_text.specs.Lines.{lines_of};
ghost use Rattle.m161_audit.specs.WatchText.{AreWatches};
ghost use Rattle.s161_search.specs.Audits.{IsWatchesFault};

use m161_audit::{Watch, read_watches};
use s161_base::fault::{Fault, fault_of_watches};
use std::alloc::Global;

/// The watches of a text.
///
/// # Errors
/// Its first bad line; or memory was refused.
pub fn watches_of<'a>(alloc: Global, text: &str) -> Result<Vec<Watch>, Fault<'a>>
    ensures found { IfOk result (λ watches. AreWatches (lines_of text.now) watches.items) }
    ensures fault { IfErr result (IsWatchesFault text.now) }
{
    match read_watches(alloc, text) {
        Ok(watches) => Ok(watches),
        Err(error) => Err(fault_of_watches(error)),
    }
}
