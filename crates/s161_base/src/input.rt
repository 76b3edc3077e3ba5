//! Reading files and standard input.

ghost use Rattle.std.specs.Prelude.{◌≡◌, ◌≢◌, ◌⊎◌, ◌≤◌, ℕ, List, [], ◌∷◌, None, Some, IfErr, IfOk, IfSome, length, option_map, string_bytes};
ghost use Rattle.std.specs.IoError.{error_kind};
ghost use Rattle.s161_base.specs.Asked.{Asks, option_files};
ghost use Rattle.s161_base.specs.Known.{IsText};
ghost use Rattle.s161_base.specs.Listed.{IsTextOf};
ghost use Rattle.s161_base.specs.Reading.{IsFileUnread, IsInputUnread, IsOfBytes, IsOfText, IsTextUnread};

use crate::fault::{Fault, Unread};
use crate::files::FileSource;
use std::alloc::Global;
use std::io;
use std::io::{ErrorKind, Read};

/// The greatest number of bytes of an input, and of calls that read it.
const LIMIT: usize = 402_653_184;

/// The bytes of a reader, to its end.
///
/// # Errors
/// The reader's own; `FileTooLarge` if it has more than 402,653,184 bytes, or hasn't ended after
/// that number of calls; or memory was refused.
pub fn read_whole<R: Read>(alloc: Global, reader: &mut R) -> io::Result<Vec<u8>>
    ensures whole { IfOk result (λ bytes. IfSome (R.remaining reader.old) (λ known.
        bytes.items ≡ known)) }
    ensures limit { IfOk result (λ bytes. length bytes.items ≤ 402_653_184) }
{
    let mut bytes = Vec::new(alloc);
    for _call in 0..LIMIT {
        let mut chunk = [0u8; 8192];
        let n = match reader.read(&mut chunk) {
            Ok(n) => n,
            Err(error) if error.kind() == ErrorKind::Interrupted => continue,
            Err(error) => return Err(error),
        };
        if n == 0 {
            return Ok(bytes);
        }
        if bytes.len() + n > LIMIT {
            break;
        }
        bytes.extend_from_slice(&chunk[..n])?;
    }
    Err(io::Error::from(ErrorKind::FileTooLarge))
}

/// The bytes of a file.
///
/// # Errors
/// The file can't be read, or is too long; or memory was refused.
pub fn read_file<'a, F: FileSource>(
    alloc: Global,
    files: &mut F,
    name: &'a str,
) -> Result<Vec<u8>, Fault<'a>>
    ensures whole { IfOk result (λ bytes. IfSome (F.known files.old name.entry.now) (λ known.
        bytes.items ≡ known)) }
    ensures still { (other : List ℕ) → F.known files.new other ≡ F.known files.old other }
    ensures asks { Asks (name.entry.now ∷ []) (F.asked files.old) (F.asked files.new) }
    ensures err { IfErr result (λ fault. IsFileUnread name.entry IsOfBytes fault
        ⊎ (fault ≡ Fault.Memory)) }
{
    match files.read(alloc, name) {
        Ok(bytes) => Ok(bytes),
        Err(error) => Err(match unread(&error) {
            Some(why) => Fault::File(name, why),
            None => Fault::Memory,
        }),
    }
}

/// The text of a file.
///
/// # Errors
/// The file can't be read, is too long, or isn't UTF-8; or memory was refused.
pub fn read_text<'a, F: FileSource>(
    alloc: Global,
    files: &mut F,
    name: &'a str,
) -> Result<String, Fault<'a>>
    ensures whole { IfOk result (λ text. IfSome (F.known files.old name.entry.now) (λ known.
        string_bytes text ≡ known)) }
    ensures still { (other : List ℕ) → F.known files.new other ≡ F.known files.old other }
    ensures asks { Asks (name.entry.now ∷ []) (F.asked files.old) (F.asked files.new) }
    ensures err { IfErr result (λ fault.
        IsFileUnread name.entry (IsOfText (F.known files.old name.entry.now)) fault
        ⊎ (fault ≡ Fault.Memory)) }
{
    let bytes = read_file(alloc, files, name)?;
    text_of(bytes, Fault::File(name, Unread::NotUtf8))
}

/// The text of the file of an option, if it is given.
///
/// # Errors
/// Those of `read_text`.
#[tactic(auto, using(crate::proofs::Asking::asks_none))]
pub fn read_text_if<'a, F: FileSource>(
    alloc: Global,
    files: &mut F,
    name: Option<&'a str>,
) -> Result<Option<String>, Fault<'a>>
    ensures whole { IfOk result (λ text.
        IsTextOf name.entry (F.known files.old) (option_map string_bytes text)) }
    ensures still { (other : List ℕ) → F.known files.new other ≡ F.known files.old other }
    ensures asks { Asks (option_files name.entry) (F.asked files.old) (F.asked files.new) }
    ensures err { IfErr result (λ fault. IsTextUnread name.entry (F.known files.old) fault
        ⊎ (fault ≡ Fault.Memory)) }
{
    match name {
        Some(name) => Ok(Some(read_text(alloc, files, name)?)),
        None => Ok(None),
    }
}

/// The text of standard input.
///
/// # Errors
/// It can't be read, is too long, or isn't UTF-8; or memory was refused.
pub fn read_input<'a, I: Read>(alloc: Global, input: &mut I) -> Result<String, Fault<'a>>
    ensures whole { IfOk result (λ text. IfSome (I.remaining input.old) (λ known.
        string_bytes text ≡ known)) }
    ensures err { IfErr result (λ fault. IsInputUnread (I.remaining input.old) fault
        ⊎ (fault ≡ Fault.Memory)) }
{
    match read_whole(alloc, input) {
        Ok(bytes) => text_of(bytes, Fault::Input(Unread::NotUtf8)),
        Err(error) => Err(match unread(&error) {
            Some(why) => Fault::Input(why),
            None => Fault::Memory,
        }),
    }
}

// The text of these bytes; or the fault, if they aren't UTF-8.
fn text_of<'a>(bytes: Vec<u8>, fault: Fault<'a>) -> Result<String, Fault<'a>>
    ensures text { IfOk result (λ text. string_bytes text ≡ bytes.items) }
    ensures fault { IfErr result (λ found. (found ≡ fault.entry) × ¬ IsText bytes.items) }
{
    match String::from_utf8(bytes) {
        Ok(text) => Ok(text),
        Err(_) => Err(fault),
    }
}

// Why bytes aren't read; `None` if memory was refused.
fn unread(error: &io::Error) -> Option<Unread>
    ensures memory { error_kind error.now ≡ ErrorKind.OutOfMemory → result ≡ None }
    ensures long { error_kind error.now ≡ ErrorKind.FileTooLarge → result ≡ Some Unread.TooLong }
    ensures other { error_kind error.now ≢ ErrorKind.OutOfMemory
        → error_kind error.now ≢ ErrorKind.FileTooLarge → result ≡ Some Unread.Failed }
    ensures bytes { IfSome result IsOfBytes }
{
    if error.kind() == ErrorKind::OutOfMemory {
        None
    } else if error.kind() == ErrorKind::FileTooLarge {
        Some(Unread::TooLong)
    } else {
        Some(Unread::Failed)
    }
}
