//! The texts of answers.

ghost use Rattle.std.specs.Prelude.{◌≡◌, ◌<◌, ◌++◌, string_bytes, IfOk, OnOk};
ghost use Rattle.m161_server.specs.Texts.{activity_text, bytes_text, doing_text, listed, text_if, thread_line, thread_list, thread_text, threads_text, within};

use crate::target::Target;
use m161_moves::{Activity, Doing};
use m161_text::push_hex;
use std::alloc::{AllocError, Global};
use std::fmt::Write;

/// A text of these bytes.
///
/// # Errors
/// Memory was refused.
pub(crate) fn text(alloc: Global, bytes: &str) -> Result<String, AllocError>
    ensures { IfOk result (λ text. string_bytes text ≡ bytes.now) }
{
    let mut text = String::new(alloc);
    text.push_str(bytes)?;
    Ok(text)
}

/// A processor of this number, or 0 if there is none.
pub(crate) fn within<T: Target>(target: &T, processor: u32) -> u32
    ensures value { result ≡ within (T.course target.now).scene processor }
    ensures exists { result < (T.course target.now).scene.processors }
    ensures small { result < 32 }
{
    if processor < target.processors() {
        processor
    } else {
        0
    }
}

/// Appends a processor's number as a thread.
///
/// # Errors
/// Memory was refused.
pub(crate) fn push_thread(text: &mut String, processor: u32) -> Result<(), AllocError>
    requires { processor < 32 }
    ensures { OnOk result (string_bytes text.new ≡ string_bytes text.old ++ thread_text processor) }
{
    if processor + 1 < 16 {
        push_hex(text, 1, processor + 1)
    } else {
        push_hex(text, 2, processor + 1)
    }
}

/// Appends bytes in hexadecimal.
///
/// # Errors
/// Memory was refused.
pub(crate) fn push_bytes(text: &mut String, bytes: &[u8]) -> Result<(), AllocError>
    ensures { OnOk result (string_bytes text.new ≡ string_bytes text.old ++ bytes_text bytes.now) }
{
    for byte in bytes {
        push_hex(text, 2, u32::from(*byte))?;
    }
    Ok(())
}

// The word for what a processor does.
fn activity_text(activity: Activity) -> &'static str
    ensures { result.now ≡ activity_text activity }
{
    match activity {
        Activity::Running => "running",
        Activity::Waiting => "waiting",
        Activity::Stopped => "stopped",
    }
}

// A text, or none.
fn text_if(test: bool, text: &str) -> &str
    ensures { result.now ≡ text_if test text.now }
{
    if test { text } else { "" }
}

// Appends what a processor does.
fn push_doing(text: &mut String, doing: Doing) -> Result<(), AllocError>
    ensures { OnOk result (string_bytes text.new ≡ string_bytes text.old ++ doing_text doing) }
{
    let activity = activity_text(doing.activity);
    let user = text_if(doing.is_user, " user");
    let slot = text_if(doing.in_slot, " slot");
    write!(text, "{activity}{user}{slot}")
}

/// What a processor does, in hexadecimal.
///
/// # Errors
/// Memory was refused.
pub(crate) fn doing_text(alloc: Global, doing: Doing) -> Result<String, AllocError>
    ensures { IfOk result (λ text. string_bytes text ≡ bytes_text (doing_text doing)) }
{
    let mut plain = String::new(alloc);
    push_doing(&mut plain, doing)?;
    let mut text = String::new(alloc);
    push_bytes(&mut text, plain.as_bytes())?;
    Ok(text)
}

// A processor in a list of them.
fn listed(alloc: Global, processor: u32) -> Result<String, AllocError>
    requires { processor < 32 }
    ensures { IfOk result (λ text. string_bytes text ≡ listed processor) }
{
    let mut text = text(alloc, text_if(0 < processor, ","))?;
    push_thread(&mut text, processor)?;
    Ok(text)
}

/// All processors.
///
/// # Errors
/// Memory was refused.
#[tactic(auto, using(crate::proofs::Loops::one_more))]
pub(crate) fn threads_text(alloc: Global, processors: u32) -> Result<String, AllocError>
    requires { processors < 33 }
    ensures { IfOk result (λ text. string_bytes text ≡ threads_text processors) }
{
    let mut text = text(alloc, "m")?;
    for p in 0..processors {
        text.push_str(&listed(alloc, p)?)?;
    }
    Ok(text)
}

// The line of a processor.
#[tactic(auto, unfolding(crate::specs::Texts::thread_line))]
fn thread_line<T: Target>(alloc: Global, target: &T, processor: u32) -> Result<String, AllocError>
    requires exists { processor < (T.course target.now).scene.processors }
    requires small { processor < 32 }
    ensures { IfOk result (λ text. string_bytes text
        ≡ thread_line (T.course target.now).scene (T.place target.now) processor) }
{
    let mut text = text(alloc, "<thread id=\"")?;
    push_thread(&mut text, processor)?;
    text.push_str("\" core=\"")?;
    write!(text, "{processor}")?;
    text.push_str("\" name=\"cpu")?;
    write!(text, "{processor}")?;
    text.push_str("\">")?;
    push_doing(&mut text, target.doing(processor))?;
    text.push_str("</thread>\n")?;
    Ok(text)
}

/// The list of processors, as XML.
///
/// # Errors
/// Memory was refused.
#[tactic(auto, using(crate::proofs::Loops::one_more))]
pub(crate) fn thread_list<T: Target>(alloc: Global, target: &T) -> Result<String, AllocError>
    ensures { IfOk result (λ text. string_bytes text
        ≡ thread_list (T.course target.now).scene (T.place target.now)) }
{
    let mut text = text(alloc, "<?xml version=\"1.0\"?>\n<threads>\n")?;
    for p in 0..target.processors() {
        text.push_str(&thread_line(alloc, target, p)?)?;
    }
    text.push_str("</threads>\n")?;
    Ok(text)
}
