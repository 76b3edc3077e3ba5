//! The inputs of a run by an order.

ghost use Rattle.std.specs.Prelude.{IfErr, IfOk};
ghost use Rattle.s161_base.specs.Asked.{AsksFor};
ghost use Rattle.s161_base.specs.Samples.{image_file};
ghost use Rattle.s161_run.specs.Driven.{AreInputs, IsOrderFault, order_files};

use crate::policy::read_keys;
use s161_base::fault::Fault;
use s161_base::files::FileSource;
use s161_base::input::read_text_if;
use s161_base::listed::{Planned, plan_first};
use s161_base::sample::read_image;
use s161_command::{AskedSize, Drive};
use std::alloc::Global;

/// The inputs of a run by an order.
#[derive(Drop)]
pub struct Inputs {
    /// The image's file.
    pub file: Vec<u8>,
    /// The bytes that are typed.
    pub keys: Vec<u8>,
    /// The events that come first, and the machine.
    pub first: Planned,
}

/// Reads an image, the text of the events that come first, and the keys; then lists those events, and
/// plans the machine.
///
/// # Errors
/// The first fault.
// For LLVM: a stack frame of its own.
#[inline(never)]
pub fn read_inputs<'a, F: FileSource>(
    alloc: Global,
    files: &mut F,
    image: &'a str,
    size: AskedSize,
    options: Drive<'a>,
) -> Result<Inputs, Fault<'a>>
    ensures ok { IfOk result (λ read. AreInputs size options.entry (F.known files.old)
        (image_file (F.known files.old) image.entry.now) read.file.items read.keys.items
        read.first.events read.first.conf) }
    ensures fault { IfErr result (IsOrderFault image.entry size options.entry (F.known files.old)
        (image_file (F.known files.old) image.entry.now)) }
    ensures asks { AsksFor (order_files image.entry.now options.entry) result (F.asked files.old)
        (F.asked files.new) }
{
    let file = read_image(alloc, files, image)?;
    let text = read_text_if(alloc, files, options.after)?;
    let keys = read_keys(alloc, files, options.keys)?;
    let first = plan_first(alloc, size, &file, text.as_deref())?;
    Ok(Inputs { file, keys, first })
}
