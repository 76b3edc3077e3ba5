//! Frames in a stream of bytes.

ghost use Rattle.std.specs.Prelude.{◌≡◌, ◌≢◌, ◌++◌, ◌∷◌, [], ℕ, List, None, Some, MatchResult, OnErr, OnOk};
ghost use Rattle.std.specs.Option.{option_to_list};
ghost use Rattle.m161_gdb.specs.declared.frames.Item.{Item};
ghost use Rattle.m161_gdb.specs.declared.frames.Stage.TheVariants as stages;
ghost use Rattle.m161_gdb.specs.Frames.{items_in, kept, HasRead, Single};
ghost use Rattle.m161_gdb.specs.helpers.Steps.{Steps};

use crate::body::Body;
use crate::hex::is_written;
use std::alloc::{AllocError, Global};

// How many bytes a body that is kept has at most.
const LONGEST: usize = 16_384;

/// What a stream of bytes has for its receiver.
#[derive(Drop)]
pub enum Item {
    /// A whole frame.
    Frame {
        /// Its body; `None` above 16,384 bytes.
        body: Option<Body>,
        /// Whether its digits are those of the body's sum.
        right: bool,
    },
    /// A `+` between frames.
    Plus,
    /// A `-` between frames.
    Minus,
    /// A byte 03 between frames.
    Interrupt,
}

/// Where a reader stands.
#[derive(Clone, Copy)]
pub(crate) enum Stage {
    /// Between frames.
    Between,
    /// Behind a frame's `$`, in its body.
    InBody,
    /// Behind its `#`.
    AtSum,
    /// Behind the first of its digits, which is this byte.
    InSum(u8),
}

/// A reader of a stream of bytes, a byte at a time. It keeps the bytes of one body at most.
#[derive(Drop)]
pub struct Reader {
    alloc: Global,
    stage: Stage,
    // The sum modulo 256 of the body so far.
    sum: u8,
    // The body so far; `None` if it is too long.
    body: Option<Body>,
}

// What a byte between frames is, other than `$`.
fn sign(byte: u8) -> Option<Item>
    ensures { option_to_list result ≡ items_in (Single byte) }
{
    match byte {
        b'+' => Some(Item::Plus),
        b'-' => Some(Item::Minus),
        3 => Some(Item::Interrupt),
        _ => None,
    }
}

// Adds a byte to a body, as far as it is kept.
fn keep(body: &mut Option<Body>, byte: u8) -> Result<(), AllocError>
    ensures ok { OnOk result ((bytes : List ℕ) → body.old ≡ kept bytes →
        body.new ≡ kept (bytes ++ byte ∷ [])) }
    ensures err { OnErr result (body.new ≡ body.old) }
{
    let Some(bytes) = body else {
        return Ok(());
    };
    if bytes.as_slice().len() == LONGEST {
        *body = None;
        return Ok(());
    }
    bytes.push(byte)
}

impl Reader {
    /// A reader that has read nothing. Does not allocate.
    #[tactic(auto, using(crate::proofs::Reading::nothing_read))]
    pub fn new(alloc: Global) -> Reader
        ensures { HasRead result [] [] }
    {
        Reader {
            alloc,
            stage: Stage::Between,
            sum: 0,
            body: None,
        }
    }

    // Begins a frame.
    fn begin(&mut self)
        ensures stage { self.new.stage ≡ stages.InBody }
        ensures sum { self.new.sum ≡ 0 }
        ensures body { self.new.body ≡ Some [] }
    {
        self.stage = Stage::InBody;
        self.sum = 0;
        self.body = Some(Body::empty(self.alloc));
    }

    // Reads a byte between frames.
    #[tactic(auto, using(crate::proofs::Reading::opens, crate::proofs::Reading::stays))]
    fn between(&mut self, byte: u8) -> Option<Item>
        requires { self.old.stage ≡ stages.Between }
        ensures { Steps self.old byte self.new result }
    {
        if byte == b'$' {
            self.begin();
            return None;
        }
        sign(byte)
    }

    // Reads a byte of a body, or the one that ends it.
    #[tactic(auto, using(crate::proofs::Reading::anew, crate::proofs::Reading::closes, crate::proofs::Reading::adds))]
    fn in_body(&mut self, byte: u8) -> Result<(), AllocError>
        requires { self.old.stage ≡ stages.InBody }
        ensures { MatchResult result
            (λ _. Steps self.old byte self.new None) (λ _. self.new ≡ self.old) }
    {
        if byte == b'$' {
            self.begin();
            return Ok(());
        }
        if byte == b'#' {
            self.stage = Stage::AtSum;
            return Ok(());
        }
        keep(&mut self.body, byte)?;
        self.sum = self.sum.wrapping_add(byte);
        Ok(())
    }

    // Reads the second digit of a sum.
    #[tactic(auto, using(crate::proofs::Reading::finishes))]
    fn finish(&mut self, first: u8, byte: u8) -> Item
        requires { self.old.stage ≡ stages.InSum first }
        ensures { Steps self.old byte self.new (Some result) }
    {
        self.stage = Stage::Between;
        Item::Frame {
            body: self.body.take(),
            right: is_written(first, byte, self.sum),
        }
    }

    // Reads a byte.
    #[tactic(auto, using(crate::proofs::Reading::halves))]
    fn step(&mut self, byte: u8) -> Result<Option<Item>, AllocError>
        ensures { MatchResult result
            (λ item. Steps self.old byte self.new item) (λ _. self.new ≡ self.old) }
    {
        match self.stage {
            Stage::Between => Ok(self.between(byte)),
            Stage::InBody => {
                self.in_body(byte)?;
                Ok(None)
            }
            Stage::AtSum => {
                self.stage = Stage::InSum(byte);
                Ok(None)
            }
            Stage::InSum(first) => Ok(Some(self.finish(first, byte))),
        }
    }

    /// Reads a byte, and gives the item that ends with it, if one does.
    ///
    /// # Errors
    /// Memory was refused for the byte of a body. The reader is as it was.
    #[tactic(auto, using(crate::proofs::Reading::pushed))]
    pub fn push(&mut self, byte: u8) -> Result<Option<Item>, AllocError>
        ensures { MatchResult result
            (λ item. (bytes : List ℕ) (items : List Item) → HasRead self.old bytes items →
            HasRead self.new (bytes ++ byte ∷ []) (items ++ option_to_list item))
            (λ _. self.new ≡ self.old) }
    {
        self.step(byte)
    }
}
