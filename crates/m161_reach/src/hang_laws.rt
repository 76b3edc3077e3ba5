//! Laws of lists that hang. The functions do nothing: their contracts are the laws.

ghost use Rattle.m161_reach.specs.Hangs.{CutKeepsHang, FreeBefore, HangingAreMade, HungIsHung, HungNeverEnds};

use crate::named::named_are_made;

/// A list that hangs is one that no events continue to an end, as an exploration from boot on says it.
pub fn hung_is_hung()
    ensures law { HungIsHung }
{}

/// No list that goes on with one that hangs is at an end.
pub fn hung_never_ends()
    ensures law { HungNeverEnds }
{}

/// Where a list doesn't hang, none of its first parts does; so bisection finds the least that does.
pub fn free_before()
    ensures law { FreeBefore }
{}

/// Events of which some hang are all accepted by the machine, from boot on.
pub fn hanging_are_made()
    ensures law { HangingAreMade }
{
    named_are_made();
}

/// Events that are cut behind the first of them that hang do it, too.
pub fn cut_keeps_hang()
    ensures law { CutKeepsHang }
{}
