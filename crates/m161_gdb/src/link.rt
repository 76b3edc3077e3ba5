//! Acknowledgements of frames.

ghost use Rattle.std.specs.Prelude.{◌≡◌, [], true, None, Some, MatchOption};
ghost use Rattle.m161_gdb.specs.declared.frames.Item.TheVariants as items;
ghost use Rattle.m161_gdb.specs.Links.{is_last_word, is_same, HasReceived, Receives};

use crate::body::Body;
use crate::frames::Item;
use std::alloc::Global;

/// What is to be done about an item.
#[derive(Clone, Copy, Debug, PartialEq, Eq)]
pub enum Duty {
    /// Nothing.
    Nothing,
    /// `-` is sent alone.
    Refuse,
    /// The last packet is sent again.
    Resend,
    /// The interrupt flag is set.
    Interrupt,
    /// The link's body is answered, behind a `+` if this is true. It was too long if it isn't kept.
    Answer(bool),
}

/// The side of a connection that acknowledges frames, and sends its last packet again.
#[derive(Drop)]
pub struct Link {
    acknowledging: bool,
    // The body of the last frame with a right sum, if it is kept and no `+` came since; where frames
    // aren't acknowledged, of the last frame.
    last: Option<Body>,
    // The last packet that was sent, with its frame.
    sent: Vec<u8>,
}

// Whether two bodies that are kept are the same.
fn is_same(a: &Option<Body>, b: &Option<Body>) -> bool
    ensures { result ≡ is_same a.now b.now }
{
    match (a, b) {
        (Some(a), Some(b)) => a.as_slice() == b.as_slice(),
        (Some(_), None) => false,
        (None, _) => false,
    }
}

// Whether a body asks for no acknowledgements.
fn is_last_word(body: &Option<Body>) -> bool
    ensures { result ≡ is_last_word body.now }
{
    match body {
        Some(body) => body.as_slice() == b"QStartNoAckMode".as_slice(),
        None => false,
    }
}

impl Link {
    /// A link that has received and sent nothing. Does not allocate.
    #[tactic(auto, using(crate::proofs::Receiving::nothing_received))]
    pub fn new(alloc: Global) -> Link
        ensures received { HasReceived result [] }
        ensures sent { result.sent.items ≡ [] }
    {
        Link {
            acknowledging: true,
            last: None,
            sent: Vec::new(alloc),
        }
    }

    // Receives a frame.
    #[tactic(auto, using(crate::proofs::Receiving::unacknowledged, crate::proofs::Receiving::wrong, crate::proofs::Receiving::repeated, crate::proofs::Receiving::answered))]
    fn receive_frame(&mut self, body: Option<Body>, right: bool) -> Duty
        ensures received { Receives self.old self.new (items.Frame body right) result }
        ensures sent { self.new.sent ≡ self.old.sent }
    {
        if !self.acknowledging {
            self.last = body;
            return Duty::Answer(false);
        }
        if !right {
            return Duty::Refuse;
        }
        if is_same(&self.last, &body) {
            return Duty::Nothing;
        }
        self.acknowledging = !is_last_word(&body);
        self.last = body;
        Duty::Answer(true)
    }

    /// Receives an item, and says what is to be done about it. What the link sent stays.
    #[tactic(auto, using(crate::proofs::Receiving::plus, crate::proofs::Receiving::minus, crate::proofs::Receiving::interrupt))]
    pub fn receive(&mut self, item: Item) -> Duty
        ensures received { Receives self.old self.new item result }
        ensures sent { self.new.sent ≡ self.old.sent }
    {
        match item {
            Item::Frame { body, right } => self.receive_frame(body, right),
            Item::Plus => {
                self.last = None;
                Duty::Nothing
            }
            Item::Minus => {
                if self.acknowledging {
                    Duty::Resend
                } else {
                    Duty::Nothing
                }
            }
            Item::Interrupt => Duty::Interrupt,
        }
    }

    /// The body that is to be answered; `None` if it was too long.
    pub fn body(&self) -> Option<&[u8]>
        ensures { MatchOption result (self.now.last ≡ None) (λ body. self.now.last ≡ Some body.now) }
    {
        match &self.last {
            Some(body) => Some(body.as_slice()),
            None => None,
        }
    }

    /// Keeps a packet that was sent, with its frame, as the last one.
    pub fn keep_sent(&mut self, frame: Vec<u8>)
        ensures sent { self.new.sent ≡ frame }
        ensures acknowledging { self.new.acknowledging ≡ self.old.acknowledging }
        ensures last { self.new.last ≡ self.old.last }
    {
        self.sent = frame;
    }

    /// The last packet that was sent, with its frame; no bytes if none was.
    pub fn sent(&self) -> &[u8]
        ensures { result.now ≡ self.now.sent.items }
    {
        self.sent.as_slice()
    }
}
