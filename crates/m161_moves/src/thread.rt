//! The processors of stops.

ghost use Rattle.std.specs.Prelude.{◌≡◌, ◌≤◌, ◌<◌, ◌^◌, length};
ghost use Rattle.m161_moves.specs.Threads.{least_resumed, thread_by, thread_of};

use crate::reason::Reason;
use crate::run::Run;
use crate::stopping::is_resumed;
use m161_gdb::Motion;

// The least processor that is resumed, 0 where none is.
fn least_resumed(chosen: &[Option<Motion>]) -> u32
    requires { length chosen.now < 2 ^ 32 }
    ensures { result ≡ least_resumed chosen.now }
{
    let mut count = 0;
    let mut rest = chosen;
    while let [first, behind @ ..] = rest {
        if first.is_some() {
            return count;
        }
        count += 1;
        rest = behind;
    }
    0
}

// The processor of a stop, where the last one before it is given.
fn thread_by(chosen: &[Option<Motion>], last: u32, reason: Reason) -> u32
    requires { length chosen.now < 2 ^ 32 }
    ensures { result ≡ thread_by chosen.now last reason }
{
    match reason {
        Reason::Step(processor) => processor,
        Reason::Break { processor, .. } => processor,
        Reason::Touch { processor, .. } => processor,
        Reason::Interrupt | Reason::Mark | Reason::End | Reason::Begin => {
            if is_resumed(chosen, last) {
                last
            } else {
                least_resumed(chosen)
            }
        }
    }
}

/// The processor of a stop: that of the Step which the reason names. Where it names none, that of the
/// last Step before the place where the run stands, if that one is resumed, and else the least that is.
pub fn thread_of<R: Run>(run: &R, chosen: &[Option<Motion>], reason: Reason) -> u32
    requires { length chosen.now < 2 ^ 32 }
    ensures { result ≡ thread_of (R.course run.now) chosen.now (R.place run.now) reason }
{
    thread_by(chosen, run.last_processor(), reason)
}
