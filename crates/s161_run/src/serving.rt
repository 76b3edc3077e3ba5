//! A driven run that reads its keys and writes what its console sends.

ghost use Rattle.std.specs.Prelude.{◌≡◌, ◌<◌, ◌-◌, ◌^◌, false, true, [], None, IfErr, IfOk, IfSome};
ghost use Rattle.std.specs.Io.KnownBytes.{Consumes, IsAtEnd};
ghost use Rattle.m161_drive.specs.Choice.{wants_key};
ghost use Rattle.m161_order.specs.Order.{order_fault};
ghost use Rattle.s161_run.specs.Consoles.{Fails, Serves};
ghost use Rattle.s161_base.specs.Streams.{AppendsSome, streams};
ghost use Rattle.s161_run.specs.helpers.Consoles.{GivesKey, Goes, Makes, Turn, last_stop, place, sent_since};

use crate::keys::read_key;
use m161::Core;
use m161_drive::{Cursor, Driven, PackedEntry, Policy, Stop, turn};
use s161_base::fault::{Fault, Unread};
use s161_base::streams::send;
use s161_command::Drive;
use std::io::{Read, Write};

// The next key, if one is wanted and the input has one.
fn next_key<'a, I: Read>(
    core: &Core,
    policy: &Policy,
    cursor: &Cursor,
    input: &mut I,
    ended: &mut bool,
) -> Result<Option<u8>, Fault<'a>>
    requires { ended.old ≡ true → IsAtEnd (I.remaining input.old) }
    ensures ok { IfOk result (λ key.
        GivesKey (wants_key policy.now cursor.now core.now.state) ended.old
        (I.remaining input.old) key ended.new (I.remaining input.new)) }
    ensures err { IfErr result (λ fault. (fault ≡ Fault.Input Unread.Failed)
        × (wants_key policy.now cursor.now core.now.state ≡ true) × (ended.old ≡ false)
        × Consumes (I.remaining input.old) (I.remaining input.new) []) }
{
    if cursor.wants_key(policy, core) {
        read_key(input, ended)
    } else {
        Ok(None)
    }
}

// Makes the event that the policy chooses, if the next key is this one, and writes the bytes that the
// console has sent by it; or says why there is none.
fn make_event<'a, O: Write>(
    core: &mut Core,
    policy: &Policy,
    cursor: &mut Cursor,
    key: Option<u8>,
    output: &mut O,
) -> Result<Option<Stop>, Fault<'a>>
    requires on { core.old.state.board.off ≡ false }
    requires few { IfSome key (λ _. cursor.old.typed < 2 ^ 64 - 1) }
    ensures ok { IfOk result (λ stop. Turn policy.now key cursor.old core.old.state
        (O.contents output.old) stop cursor.new core.new.state (O.contents output.new)) }
    ensures err { IfErr result (λ fault. (fault ≡ Fault.Output)
        × Makes policy.now key cursor.old core.old.state cursor.new core.new.state
        × AppendsSome (O.contents output.old) (O.contents output.new)
        (sent_since core.old.state core.new.state)) }
{
    let sent = core.output().len();
    let mut entry = [PackedEntry::blank()];
    match turn(core, policy, cursor, key, &mut entry) {
        Ok(_) => {
            send(output, &core.output()[sent..])?;
            Ok(None)
        }
        Err(stop) => Ok(Some(stop)),
    }
}

// Makes the next event, or says why there is none.
fn serve_once<'a, I: Read, O: Write>(
    core: &mut Core,
    policy: &Policy,
    cursor: &mut Cursor,
    input: &mut I,
    ended: &mut bool,
    output: &mut O,
) -> Result<Option<Stop>, Fault<'a>>
    requires end { ended.old ≡ true → IsAtEnd (I.remaining input.old) }
    requires few { cursor.old.typed < 2 ^ 64 - 1 }
    ensures { Goes policy.now
        (place cursor.old core.old.state ended.old (I.remaining input.old) (O.contents output.old))
        result
        (place cursor.new core.new.state ended.new (I.remaining input.new) (O.contents output.new)) }
{
    if core.is_off() {
        return Ok(Some(Stop::Off));
    }
    let key = next_key(core, policy, cursor, input, ended)?;
    make_event(core, policy, cursor, key, output)
}

/// Makes the events that the options' policy chooses, with the input's bytes as its keys, and writes
/// what the console sends.
///
/// # Errors
/// The input can't be read, or the output failed.
pub(crate) fn serve<'a, I: Read, O: Write>(
    core: &mut Core,
    options: Drive<'_>,
    input: &mut I,
    output: &mut O,
) -> Result<Driven, Fault<'a>>
    requires limits { order_fault options.order ≡ None }
    requires silent { core.old.state.board.console.output ≡ [] }
    ensures ok { IfOk result (λ driven. Serves options.entry options.entry.events core.old.state
        (streams (I.remaining input.old) (I.remaining input.new) (O.contents output.old)
        (O.contents output.new)) driven core.new.state []) }
    ensures err { IfErr result (Fails options.entry core.old.state
        (streams (I.remaining input.old) (I.remaining input.new) (O.contents output.old)
        (O.contents output.new))) }
{
    let Ok(policy) = Policy::new(options.order, options.transfer, options.gap, &[]) else {
        unreachable!()
    };
    let mut cursor = Cursor::new(&policy, core);
    let mut ended = false;
    for made in 0..options.events {
        let stop = serve_once(core, &policy, &mut cursor, input, &mut ended, output)?;
        if let Some(stop) = stop {
            return Ok(Driven { made, stop });
        }
    }
    Ok(Driven {
        made: options.events,
        stop: last_stop(core),
    })
}

// Why a run stops of which all events were made that were asked for.
fn last_stop(core: &Core) -> Stop
    ensures { result ≡ last_stop core.now.state }
{
    if core.is_off() { Stop::Off } else { Stop::End }
}
