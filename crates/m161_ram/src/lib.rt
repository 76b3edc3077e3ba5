//! Physical memory.
//!
//! ```text
//! RAM         bytes, from physical address 0 on; fewer than 2^32
//! half-word   two bytes, the more significant first
//! word        four bytes, the most significant first
//! ```
//!
//! The content of a `Ram` is the list of its bytes. Each access has the condition that its bytes
//! are within the size; its address needn't be aligned. Only `new` allocates. Source: Kane, MIPS
//! RISC Architecture, data formats: the machine is big-endian.
#![tactic(auto)]

ghost use Rattle.std.specs.Prelude.{◌≡◌, ◌+◌, ◌^◌, ◌<◌, ◌≤◌, length, replicate, slice_index, slice_set, vec_len, IfOk};
ghost use Rattle.m161_ram.specs.Word.{half_at, with_half, word_at, with_word};

use std::alloc::{AllocError, Global};
use std::marker::Model;

/// RAM: a map from each physical address below its size to a byte.
#[derive(Drop)]
pub struct Ram {
    bytes: Vec<u8>,
}

impl Model for Ram {
    ghost use Rattle.std.specs.Prelude.{ℕ, List, length, ◌<◌, ◌^◌};

    ghost Value = { List ℕ };

    ghost view = { λ ram. ram.bytes.items };

    ghost invariant = { λ ram. length ram.bytes.items < 2 ^ 32 };
}

impl Ram {
    /// RAM of `size` bytes, all zero.
    pub fn new(alloc: Global, size: u32) -> Result<Ram, AllocError>
        ensures { IfOk result (λ ram. ram ≡ replicate size 0) }
    {
        let bytes = vec![in alloc; 0u8; size as usize]?;
        Ok(Ram { bytes })
    }

    /// RAM with these bytes, from address 0 on. Their number has to fit a `u32`.
    pub fn from_bytes(bytes: Vec<u8>) -> Ram
        requires { vec_len bytes < 2 ^ 32 }
        ensures { result ≡ bytes.items }
    {
        Ram { bytes }
    }

    /// A copy of it.
    pub fn copy(&self, alloc: Global) -> Result<Ram, AllocError>
        ensures { IfOk result (λ ram. ram ≡ self.now) }
    {
        let bytes = Vec::from_slice(alloc, self.bytes.as_slice())?;
        Ok(Ram { bytes })
    }

    /// Makes its bytes these, of which there are as many. Does not allocate.
    #[inline(never)]
    pub fn restore(&mut self, bytes: &[u8])
        requires { length bytes.now ≡ length self.old }
        ensures { self.new ≡ bytes.now }
    {
        self.bytes.copy_from_slice(bytes);
    }

    /// The number of bytes.
    #[inline(always)]
    pub fn size(&self) -> u32
        ensures { result ≡ length self.now }
    {
        self.bytes.len() as u32
    }

    /// The bytes, from address 0 on.
    #[inline(always)]
    pub fn as_bytes(&self) -> &[u8]
        ensures { result.now ≡ self.now }
    {
        self.bytes.as_slice()
    }

    /// The byte at a physical address.
    #[inline(always)]
    pub fn byte(&self, address: u32) -> u8
        requires { address < length self.now }
        ensures { result ≡ slice_index self.now address }
    {
        self.bytes[address as usize]
    }

    /// Writes a byte at a physical address.
    #[inline(always)]
    pub fn set_byte(&mut self, address: u32, byte: u8)
        requires { address < length self.old }
        ensures { self.new ≡ slice_set self.old address byte }
    {
        self.bytes[address as usize] = byte;
    }

    /// The half-word whose first byte is at a physical address.
    #[inline(always)]
    pub fn half(&self, address: u32) -> u16
        requires { address + 2 ≤ length self.now }
        ensures { result ≡ half_at self.now address }
    {
        let at = address as usize;
        u16::from_be_bytes([self.bytes[at], self.bytes[at + 1]])
    }

    /// Writes a half-word, its first byte at a physical address.
    #[inline(always)]
    pub fn set_half(&mut self, address: u32, half: u16)
        requires { address + 2 ≤ length self.old }
        ensures { self.new ≡ with_half self.old address half }
    {
        let at = address as usize;
        let [first, second] = half.to_be_bytes();
        let bytes = self.bytes.as_mut_slice();
        bytes[at] = first;
        bytes[at + 1] = second;
    }

    /// The word whose first byte is at a physical address.
    #[inline(always)]
    pub fn word(&self, address: u32) -> u32
        requires { address + 4 ≤ length self.now }
        ensures { result ≡ word_at self.now address }
    {
        let at = address as usize;
        u32::from_be_bytes([
            self.bytes[at],
            self.bytes[at + 1],
            self.bytes[at + 2],
            self.bytes[at + 3],
        ])
    }

    /// Writes a word, its first byte at a physical address.
    #[inline(always)]
    pub fn set_word(&mut self, address: u32, word: u32)
        requires { address + 4 ≤ length self.old }
        ensures { self.new ≡ with_word self.old address word }
    {
        let at = address as usize;
        let [first, second, third, fourth] = word.to_be_bytes();
        let bytes = self.bytes.as_mut_slice();
        bytes[at] = first;
        bytes[at + 1] = second;
        bytes[at + 2] = third;
        bytes[at + 3] = fourth;
    }
}
