//! Answers before they are framed.

ghost use Rattle.std.specs.Prelude.{◌≡◌, [], string_bytes, IfOk, MatchOption, None, Some};
ghost use Rattle.m161_server.specs.Sessions.{told};

use crate::texts::text;
use std::alloc::{AllocError, Global};
use std::marker::Model;

/// An answer. Contracts see its bytes.
#[derive(Drop)]
pub struct Reply {
    // the frames of what is told the client's user
    before: Vec<u8>,
    // the body of the packet behind them, if there is one
    last: Option<Vec<u8>>,
}

impl Model for Reply {
    ghost use Rattle.std.specs.Prelude.{option_map};
    ghost use Rattle.m161_server.specs.Sessions.{Answer};

    ghost Value = { Answer };

    ghost view = { λ reply. record { before = reply.before.items; last = option_map (λ bytes. bytes.items) reply.last } };
}

impl Reply {
    /// A packet behind these frames.
    pub(crate) fn behind(before: Vec<u8>, body: Vec<u8>) -> Reply
        ensures { result ≡ record { before = before.items; last = Some body.items } }
    {
        Reply {
            before,
            last: Some(body),
        }
    }

    /// One packet.
    pub(crate) fn of(alloc: Global, body: Vec<u8>) -> Reply
        ensures { result ≡ told body.items }
    {
        Reply::behind(Vec::new(alloc), body)
    }

    /// One packet of a text.
    pub(crate) fn said(alloc: Global, body: String) -> Reply
        ensures { result ≡ told (string_bytes body) }
    {
        Reply::of(alloc, body.into_bytes())
    }

    /// The frames of what is told the client's user.
    pub fn before(&self) -> &[u8]
        ensures { result.now ≡ self.now.before }
    {
        self.before.as_slice()
    }

    /// The body of the packet behind them, if there is one.
    pub fn last(&self) -> Option<&[u8]>
        ensures { MatchOption result (self.now.last ≡ None) (λ body. self.now.last ≡ Some body.now) }
    {
        match &self.last {
            Some(body) => Some(body.as_slice()),
            None => None,
        }
    }

    /// No packet.
    pub(crate) fn none(alloc: Global) -> Reply
        ensures { result ≡ record { before = []; last = None } }
    {
        Reply {
            before: Vec::new(alloc),
            last: None,
        }
    }
}

/// One packet of this body.
///
/// # Errors
/// Memory was refused.
pub(crate) fn tell(alloc: Global, body: &str) -> Result<Reply, AllocError>
    ensures { IfOk result (λ reply. reply ≡ told body.now) }
{
    Ok(Reply::said(alloc, text(alloc, body)?))
}
