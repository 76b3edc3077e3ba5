//! What is told the client's user.

ghost use Rattle.std.specs.Prelude.{◌≡◌, ◌++◌, IfOk, OnOk, drop, take};
ghost use Rattle.m161_server.specs.Texts.{shown_packet, shown_packets};

use crate::texts::{push_bytes, text};
use m161_gdb::frame;
use std::alloc::{AllocError, Global};

// How many bytes of a text a packet has at most.
const MOST: usize = 8_191;

// The packet of a piece of a text.
fn shown_packet(alloc: Global, piece: &[u8]) -> Result<Vec<u8>, AllocError>
    ensures { IfOk result (λ bytes. bytes.items ≡ shown_packet piece.now) }
{
    let mut body = text(alloc, "O")?;
    push_bytes(&mut body, piece)?;
    frame(alloc, body.as_bytes())
}

// Appends it.
fn push_packet(alloc: Global, out: &mut Vec<u8>, piece: &[u8]) -> Result<(), AllocError>
    ensures { OnOk result (out.new.items ≡ out.old.items ++ shown_packet piece.now) }
{
    let packet = shown_packet(alloc, piece)?;
    out.extend_from_slice(&packet)?;
    Ok(())
}

// The piece that a text begins with, and what stands behind it.
fn split(text: &[u8], size: usize) -> (&[u8], &[u8])
    ensures piece { result.0.now ≡ take size text.now }
    ensures rest { result.1.now ≡ drop size text.now }
{
    text.split_at(size.min(text.len()))
}

/// The packets of a text.
///
/// # Errors
/// Memory was refused.
#[tactic(auto, using(crate::proofs::Pieces::piece_step, crate::proofs::Pieces::shorter))]
pub(crate) fn shown_packets(alloc: Global, text: &[u8]) -> Result<Vec<u8>, AllocError>
    ensures { IfOk result (λ bytes. bytes.items ≡ shown_packets text.now) }
{
    let mut out = Vec::new(alloc);
    let mut rest = text;
    while 0 < rest.len() {
        let (piece, behind) = split(rest, MOST);
        push_packet(alloc, &mut out, piece)?;
        rest = behind;
    }
    Ok(out)
}
