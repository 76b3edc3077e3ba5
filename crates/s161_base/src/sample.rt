//! The built-in sample kernel.

ghost use Rattle.std.specs.Prelude.{◌≡◌, ◌⊎◌, ℕ, List, IfErr, IfOk, IfSome, bytes_eq, codes};
ghost use Rattle.s161_base.specs.Asked.{Asks, image_files};
ghost use Rattle.s161_base.specs.Reading.{IsFileUnread, IsOfBytes};
ghost use Rattle.s161_base.specs.Samples.{image_file, sample_file, sample_labels, IsFileName};
ghost use Rattle.s161_base.specs.helpers.Samples.{IsSample};

use crate::fault::Fault;
use crate::files::FileSource;
use crate::input::read_file;
use m161_asm::{AsmError, Program, assemble};
use m161_elf_writer::{write, write_with_symbols};
use m161_symbols::Symbols;
use std::alloc::{AllocError, Global};

/// The name of the sample's image.
const NAME: &str = "@sample";

/// A kernel of two processors. Processor 0 moves page 0x00400 of identifier 5 from frame 0x00005 to
/// frame 0x00006, which processor 1 reads, and interrupts processor 1 so that it drops its row of
/// the page: a TLB shootdown as in Black and others, 1989; the code is this project's own.
const SOURCE: &str = "\
# words that the processors share
#   0x3000  the page's row, in EntryLo's form
#   0x3004  set once no processor has the old row any more
#   0x3008  set by the interrupted processor, once its row is dropped
#   0x300c  set by processor 1, once it has read the page
#   0x3010  what processor 1 read from the new frame
        .entry  main

# a miss of a user page: any row gets the page's words
        .org    0x80000000
        lui     $26, 0x8000
        lw      $26, 12288($26)
        mtc0    $26, $2
        tlbwr
        mfc0    $27, $14
        jr      $27
        rfe

# every other trap is the interrupt: the row of EntryHi's page, if there is one, becomes a row of
# kseg0, which no access uses
        .org    0x80000080
        tlbp
        mfc0    $24, $0
        mfc0    $25, $10
        bltz    $24, ack
        sll     $24, $24, 4
        lui     $26, 0x8000
        or      $24, $24, $26
        mtc0    $24, $10
        mtc0    $0, $2
        tlbwi
        mtc0    $25, $10
# the interrupt is taken back and acknowledged
ack:    lui     $26, 0xbfff
        ori     $26, $26, 0x8400
        sw      $0, 4($26)
        lui     $26, 0x8000
        addiu   $27, $0, 1
        sw      $27, 12296($26)
        mfc0    $27, $14
        jr      $27
        rfe

# processor 0: the page is in the old frame; processor 1 starts
        .org    0x80000200
main:   lui     $8, 0x8000
        ori     $9, $0, 0x5600
        sw      $9, 12288($8)
        lui     $10, 0xbfff
        ori     $11, $10, 0x8400
        lui     $12, 0x8000
        ori     $12, $12, 0x0280
        sw      $12, 768($11)
        ori     $13, $0, 2
        ori     $14, $10, 0x7c00
        sw      $13, 532($14)
# once processor 1 has read the page, it moves to the new frame
ready:  lw      $15, 12300($8)
        beq     $15, $0, ready
        nop
        ori     $9, $0, 0x6600
        sw      $9, 12288($8)
        sw      $13, 4($11)
# until processor 1 has dropped its row, the move isn't over
acked:  lw      $15, 12296($8)
        beq     $15, $0, acked
        nop
        sw      $13, 12292($8)
# once processor 1 has read the new frame, the machine goes off
last:   lw      $15, 12304($8)
        beq     $15, $0, last
        nop
        sw      $0, 520($14)

# processor 1: it reads the page over and over, open to interrupts for one instruction each time,
# until the word isn't 0
        .org    0x80000280
        ori     $8, $0, 0x0140
        mtc0    $8, $10
        ori     $8, $0, 0x0801
        lui     $9, 0x0040
        lui     $10, 0x8000
        ori     $12, $0, 1
        lw      $11, 0($9)
        sw      $12, 12300($10)
again:  lw      $11, 0($9)
        mtc0    $8, $12
        mtc0    $0, $12
        beq     $11, $0, again
        nop
        sw      $11, 12304($10)
stop:   wait
        beq     $0, $0, stop
        nop

# the first word of the new frame; that of the old one is 0
        .org    0x80006000
        .word   7
";

/// The sample's program.
fn sample_program(alloc: Global) -> Result<Program, AsmError>
    ensures { IsSample result }
{
    assemble(alloc, SOURCE)
}

/// The ELF file of the sample.
///
/// # Errors
/// Memory was refused.
pub fn sample_image<'a>(alloc: Global) -> Result<Vec<u8>, Fault<'a>>
    ensures ok { IfOk result (λ file. file.items ≡ sample_file) }
    ensures err { IfErr result (λ fault. fault ≡ Fault.Memory) }
{
    let Ok(program) = sample_program(alloc) else {
        return Err(Fault::Memory);
    };
    Ok(write(alloc, &program)?)
}

/// The labels of the sample's source.
///
/// # Errors
/// Memory was refused.
pub(crate) fn sample_symbols(alloc: Global) -> Result<Symbols, AllocError>
    ensures { IfOk result (λ symbols. symbols ≡ sample_labels) }
{
    let Ok(program) = sample_program(alloc) else {
        return Err(AllocError);
    };
    let labelled = write_with_symbols(alloc, &program)?;
    Symbols::new(alloc, &labelled)
}

/// Whether an image's name is that of the sample.
pub(crate) fn is_sample(name: &str) -> bool
    ensures { result ≡ bytes_eq name.now (codes "@sample") }
{
    name == NAME
}

/// The bytes of an image: the sample by its name, `@sample`, or else those of a file.
///
/// # Errors
/// The file can't be read; or memory was refused.
#[tactic(auto, unfolding(crate::specs::Samples::image_file, crate::specs::Samples::IsFileName, crate::specs::Asked::image_files))]
pub fn read_image<'a, F: FileSource>(
    alloc: Global,
    files: &mut F,
    name: &'a str,
) -> Result<Vec<u8>, Fault<'a>>
    ensures whole { IfOk result (λ file. IfSome (image_file (F.known files.old) name.entry.now)
        (λ known. file.items ≡ known)) }
    ensures still { (other : List ℕ) → F.known files.new other ≡ F.known files.old other }
    ensures asks { Asks (image_files name.entry.now) (F.asked files.old) (F.asked files.new) }
    ensures err { IfErr result (λ fault. (fault ≡ Fault.Memory)
        ⊎ (IsFileUnread name.entry IsOfBytes fault × IsFileName name.entry.now)) }
{
    if is_sample(name) {
        sample_image(alloc)
    } else {
        read_file(alloc, files, name)
    }
}
