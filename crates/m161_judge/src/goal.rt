//! By what a run is judged.

use m161_audit::Watch;
use std::marker::Model;

/// By what a run is judged.
#[derive(Drop)]
pub struct Goal<'a> {
    /// The pages whose shootdowns are watched.
    pub watches: &'a [Watch],
    /// The virtual addresses that no Step is to reach.
    pub never: &'a [u32],
    /// The bytes that the console should have sent at the end, if any are asked for.
    pub output: Option<&'a [u8]>,
    /// All bytes that a policy could type.
    pub keys: &'a [u8],
}

impl<'a> Model for Goal<'a> {
    ghost use Rattle.m161_judge.specs.Judge.{bytes_of};
    ghost use Rattle.m161_judge.specs.Verdict.{Criteria};

    ghost Value = { Criteria };

    ghost view = { λ g. record {
      watches = g.watches.now;
      never = g.never.now;
      output = bytes_of g.output;
      keys = g.keys.now;
    } };
}
