//! Breakpoints and watches that are set and taken away.

use crate::tests::same;
use m161_gdb::{Breakpoint, Kind, StopError, Stops};

#[test]
fn breakpoints_by_kind_and_address(rt: HostRuntime) -> Result<(), StopError> {
    let mut stops = Stops::none(rt.alloc());
    stops.set(Kind::Software, 0x8000_0244, 4)?;
    stops.set(Kind::Hardware, 0x8000_0244, 4)?;
    stops.set(Kind::Software, 0x8000_0244, 0)?;
    same(&rt, stops.breakpoints().len(), 2);
    stops.delete(Kind::Software, 0x8000_0248, 4);
    stops.delete(Kind::Software, 0x8000_0244, 0);
    let left = Breakpoint {
        kind: Kind::Hardware,
        address: 0x8000_0244,
    };
    same(&rt, stops.breakpoints() == &[left][..], true);
    Ok(())
}

#[test]
fn watches_by_size_too(rt: HostRuntime) -> Result<(), StopError> {
    let mut stops = Stops::none(rt.alloc());
    stops.set(Kind::Write, 0x8000_3008, 4)?;
    stops.set(Kind::Write, 0x8000_3008, 1)?;
    stops.set(Kind::Write, 0x8000_3008, 4)?;
    stops.delete(Kind::Read, 0x8000_3008, 4);
    same(&rt, stops.watches().len(), 2);
    stops.delete(Kind::Write, 0x8000_3008, 4);
    same(&rt, stops.watches().len(), 1);
    Ok(())
}

#[test]
fn at_most_64_of_each(rt: HostRuntime) -> Result<(), StopError> {
    let mut stops = Stops::none(rt.alloc());
    for k in 0..64 {
        stops.set(Kind::Software, 4 * k, 4)?;
    }
    same(
        &rt,
        stops.set(Kind::Hardware, 0, 4),
        Err(StopError::TooMany),
    );
    same(&rt, stops.set(Kind::Software, 252, 4), Ok(()));
    same(&rt, stops.set(Kind::Write, 0, 4), Ok(()));
    stops.delete(Kind::Software, 0, 4);
    same(&rt, stops.set(Kind::Hardware, 0, 4), Ok(()));
    same(&rt, stops.breakpoints().len(), 64);
    Ok(())
}
