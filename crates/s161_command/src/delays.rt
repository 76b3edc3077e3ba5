//! The option that says at which choices ready processors are passed over.

ghost use Rattle.std.specs.Prelude.{◌≡◌, ◌++◌, ◌∷◌, [], MatchOption, map};
ghost use Rattle.m161_order.specs.Delays.{delays_of};
ghost use Rattle.s161_command.specs.Delays.{IsList, number_of, parts_of};
ghost use Rattle.s161_command.specs.helpers.Delays.{CanFollow};

use m161_order::Delays;

// These delays with the number of a part behind them; nothing where it can't be added.
fn with_part(delays: Delays, part: &str) -> Option<Delays>
    ensures { MatchOption result (¬ CanFollow (delays_of delays) part.now)
        (λ more. CanFollow (delays_of delays) part.now
        × (delays_of more ≡ delays_of delays ++ number_of part.now ∷ [])) }
{
    let mut delays = delays;
    match part.parse::<u32>() {
        Ok(number) => match delays.push(number) {
            Ok(()) => Some(delays),
            Err(_) => None,
        },
        Err(_) => None,
    }
}

/// The delays of a list; nothing where the text isn't one.
pub(crate) fn delays_in(text: &str) -> Option<Delays>
    ensures { MatchOption result (¬ IsList text.now)
        (λ delays. IsList text.now × (delays_of delays ≡ map number_of (parts_of text.now))) }
{
    let mut delays = Delays::none();
    for part in text.split(',') {
        let Some(more) = with_part(delays, part) else {
            return None;
        };
        delays = more;
    }
    Some(delays)
}
