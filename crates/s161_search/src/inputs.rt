//! What a search reads.

ghost use Rattle.std.specs.Prelude.{◌≡◌, ◌⊎◌, ◌++◌, ◌∷◌, ℕ, [], List, IfErr, IfOk, OnOk, None, Some, option_map, string_bytes};
ghost use Rattle.m161_judge.specs.Begun.{keys_in};
ghost use Rattle.m161_judge.specs.Judge.{bytes_of};
ghost use Rattle.s161_base.specs.Asked.{Asks, AsksFor, option_files};
ghost use Rattle.s161_base.specs.Samples.{image_file};
ghost use Rattle.s161_run.specs.Driven.{IsKeysFile};
ghost use Rattle.s161_search.specs.Given.{IsOutputOf, IsRead, criteria_of, search_files};
ghost use Rattle.s161_search.specs.Runs.{most_of};
ghost use Rattle.m161_reach.specs.Told.{ends_of};
ghost use Rattle.s161_search.specs.helpers.Inputs.{given_of};
ghost use Rattle.s161_search.specs.Searches.{IsSearchFault};
ghost use Rattle.s161_search.specs.helpers.Watches.{AreWatchesIn, IsFaultIn};

use crate::watches::watches_of;
use m161_audit::Watch;
use m161_judge::Goal;
use m161_machine::{Event, Events};
use m161_reach::ends_of;
use s161_base::fault::Fault;
use s161_base::files::FileSource;
use s161_base::input::{read_file, read_text_if};
use s161_base::listed::{Planned, plan_first};
use s161_base::sample::read_image;
use s161_command::SearchTask;
use s161_run::policy::read_keys;
use std::alloc::{AllocError, Global};

/// What a search reads: the image, the events that come first, the keys, and by what runs are judged.
#[derive(Drop)]
pub(crate) struct Inputs {
    /// The image's bytes.
    pub file: Vec<u8>,
    /// The events that come first, and the machine.
    pub first: Planned,
    /// The bytes that an order types.
    pub keys: Vec<u8>,
    /// All bytes that are typed: those of the first events, and those of an order.
    pub all_keys: Vec<u8>,
    /// The watches.
    pub watches: Vec<Watch>,
    /// The addresses that no Step is to reach.
    pub never: Vec<u32>,
    /// The bytes that the console should send, if any are asked for.
    pub output: Option<Vec<u8>>,
}

impl Inputs {
    /// How many events an order chooses at most.
    pub(crate) fn most(&self, task: SearchTask<'_>) -> u64
        ensures { result ≡ most_of task.entry (given_of self.now) }
    {
        let left = 16_777_216u64.saturating_sub(self.first.events.len() as u64);
        task.drive.events.min(left)
    }

    /// The bytes that the console should send, if any are asked for.
    pub(crate) fn output(&self) -> Option<&[u8]>
        ensures { bytes_of result ≡ (given_of self.now).output }
    {
        match &self.output {
            Some(bytes) => Some(bytes.as_slice()),
            None => None,
        }
    }

    /// By what runs are judged.
    pub(crate) fn goal(&self) -> Goal<'_>
        ensures { result ≡ criteria_of (given_of self.now) }
    {
        Goal {
            watches: &self.watches,
            never: &self.never,
            output: self.output(),
            keys: &self.all_keys,
        }
    }

    /// By what the states behind a run are looked at.
    pub(crate) fn ends(&self) -> Goal<'_>
        ensures { result ≡ ends_of (criteria_of (given_of self.now)) }
    {
        ends_of(&self.goal())
    }
}

// Types the byte of an event, if it is a key.
fn push_key(keys: &mut Vec<u8>, event: Event) -> Result<(), AllocError>
    ensures { OnOk result (keys.new.items ≡ keys.old.items ++ keys_in (event ∷ [])) }
{
    match event {
        Event::Key(byte) => keys.push(byte)?,
        Event::Step(_) | Event::Done => {}
    }
    Ok(())
}

// The bytes that events type.
fn keys_in(alloc: Global, events: &[Event]) -> Result<Vec<u8>, AllocError>
    ensures { IfOk result (λ keys. keys.items ≡ keys_in events.now) }
{
    let mut keys = Vec::new(alloc);
    for event in events {
        push_key(&mut keys, *event)?;
    }
    Ok(keys)
}

// All keys: those of the events that come first, and those that an order types.
fn all_keys(alloc: Global, first: &Events, keys: &[u8]) -> Result<Vec<u8>, AllocError>
    ensures { IfOk result (λ all. all.items ≡ keys_in first.now ++ keys.now) }
{
    let events = first.to_vec(alloc)?;
    let mut all = keys_in(alloc, &events)?;
    all.extend_from_slice(keys)?;
    Ok(all)
}

// The bytes that the console should send, if any are asked for.
#[tactic(auto, using(s161_base::proofs::Asking::asks_none))]
fn read_output<'a, F: FileSource>(
    alloc: Global,
    files: &mut F,
    name: Option<&'a str>,
) -> Result<Option<Vec<u8>>, Fault<'a>>
    ensures whole { IfOk result (λ output. IsOutputOf name.entry (F.known files.old)
        (option_map (λ bytes. bytes.items) output)) }
    ensures asks { Asks (option_files name.entry) (F.asked files.old) (F.asked files.new) }
    ensures err { IfErr result (λ fault. IsKeysFile name.entry fault ⊎ (fault ≡ Fault.Memory)) }
{
    match name {
        Some(name) => Ok(Some(read_file(alloc, files, name)?)),
        None => Ok(None),
    }
}

// The watches of the text.
fn watches_in<'a>(alloc: Global, text: Option<String>) -> Result<Vec<Watch>, Fault<'a>>
    ensures found { IfOk result (λ watches. AreWatchesIn (option_map string_bytes text) watches.items) }
    ensures fault { IfErr result (IsFaultIn (option_map string_bytes text)) }
{
    match text {
        Some(text) => watches_of(alloc, text.as_str()),
        None => Ok(Vec::new(alloc)),
    }
}

/// Reads the files: the image, the text of the events that come first, the keys, the watches, the output;
/// and then the lines of those events and of the watches.
///
/// # Errors
/// The first fault.
pub(crate) fn read_inputs<'a, F: FileSource>(
    alloc: Global,
    files: &mut F,
    task: SearchTask<'a>,
) -> Result<Inputs, Fault<'a>>
    ensures ok { IfOk result (λ inputs. IsRead task.entry (F.known files.old)
        (image_file (F.known files.old) task.entry.image.now) (given_of inputs)) }
    ensures fault { (never : List (List ℕ)) → IfErr result (IsSearchFault task.entry never (F.known files.old)
        (image_file (F.known files.old) task.entry.image.now)) }
    ensures asks { AsksFor (search_files task.entry) result (F.asked files.old)
        (F.asked files.new) }
{
    let file = read_image(alloc, files, task.image)?;
    let after = read_text_if(alloc, files, task.drive.after)?;
    let keys = read_keys(alloc, files, task.drive.keys)?;
    let text = read_text_if(alloc, files, task.watches)?;
    let output = read_output(alloc, files, task.output)?;
    let first = plan_first(alloc, task.size, &file, after.as_deref())?;
    let watches = watches_in(alloc, text)?;
    let all_keys = all_keys(alloc, &first.events, &keys)?;
    Ok(Inputs {
        file,
        first,
        keys,
        all_keys,
        watches,
        never: Vec::new(alloc),
        output,
    })
}
