//! A processor whose last Steps all trapped.

ghost use Rattle.std.specs.Prelude.{◌≡◌, IfOk};
ghost use Rattle.m161_traps.specs.helpers.Watching.{after};

use m161_cop0::Exception;
use m161_cpu::Outcome;
use std::alloc::AllocError;

/// The last Steps of a processor, which all trapped.
#[derive(Clone, Copy, Debug, PartialEq, Eq)]
pub struct Trapping {
    /// The code of the last one's trap.
    pub code: Exception,
    /// How many they are, at least one.
    pub count: u64,
}

/// What a processor's last Steps are after one with this outcome.
///
/// # Errors
/// There are 2^64, which no machine makes.
pub(crate) fn after(
    before: Option<Trapping>,
    outcome: Outcome,
) -> Result<Option<Trapping>, AllocError>
    ensures { IfOk result (λ trapping. trapping ≡ after before outcome) }
{
    let Outcome::Trapped { code, vector: _ } = outcome else {
        return Ok(None);
    };
    let before = match before {
        Some(last) => last.count,
        None => 0,
    };
    match before.checked_add(1) {
        Some(count) => Ok(Some(Trapping { code, count })),
        None => Err(AllocError),
    }
}
