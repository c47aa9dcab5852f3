//! The messages of nodes: each is read, and what it says is done.

ghost use Rattle.std.specs.Prelude.{◌≡◌, ◌≤◌, IfOk, OnOk};
ghost use Rattle.lard_base.specs.declared.limits.TheConstants.{MAX_STREAM_BYTES};
ghost use Rattle.lard_dispatch.specs.Sound.{AreBefore};
ghost use Rattle.lard_rules.specs.Front.{front_asked, front_taken};
ghost use Rattle.lard_rules.specs.FrontPlace.{front_deed, front_env, front_part, front_told, message_comes};
ghost use Rattle.lard_rules.specs.FrontSound.{IsAsk, IsFrontSound, MayCloseBy, MayCloseOn};
ghost use Rattle.lard_front.specs.Bounds.{IsFrontOut};
ghost use Rattle.lard_front.specs.Place.{front_setting_seen};
ghost use Rattle.lard_message.specs.declared.fault.MsgFault.TheVariants as fault_kind;
ghost use Rattle.lard_message.specs.Message.{IsOfTable};
ghost use Rattle.lard_message.specs.Reading.{decoded_message};
ghost use Rattle.lard_rules.specs.Outs.{nothing_done};

use crate::asking::asked;
use crate::joining::ended;
use crate::passing::taken;
use crate::returning::{given, refused};
use crate::step::Setting;
use crate::turns::{Around, armed_at, out_by};
use lard_base::{ConnId, Epoch, NoMemory, NodeId, Place};
use lard_dispatch::Ask;
use lard_endpoint::Final;
use lard_message::{Body, Message, MsgFault, decode};
use lard_rules::{FrontState, Out};
use lard_seq::Seq;
use lard_serving::{Env, nothing};
use std::alloc::Global;

/// A message of a node comes. What does not decode is dropped. Without memory the state is of no use any more but to be
/// spent.
pub fn message_comes(
    state: &mut FrontState,
    alloc: Global,
    setting: &Setting<'_>,
    from: NodeId,
    bytes: &[u8],
) -> Result<Out, NoMemory>
    requires sound { IsFrontSound state.old }
    requires clock { AreBefore setting.now.now.0 state.old.dispatch.books.sets }
    requires stream { setting.now.stream ≤ MAX_STREAM_BYTES }
    requires closes { MayCloseOn state.old from (decoded_message bytes.now) }
    ensures out { IfOk result (λ out. (state.new, out) ≡ message_comes (front_setting_seen setting.entry.now) state.old from (decoded_message bytes.now)) }
    ensures fits { IfOk result IsFrontOut }
{
    match decode(alloc, bytes) {
        Ok(message) => return told(state, alloc, setting, from, message),
        Err(fault) => return drops(alloc, fault),
    }
}

/// What does not decode is dropped, unless memory ran out while it was read.
fn drops(alloc: Global, fault: MsgFault) -> Result<Out, NoMemory>
    ensures out { IfOk result (λ out. out ≡ nothing_done) }
    ensures read { IfOk result (λ out. fault ≡ fault_kind.NoMemory → ⊥) }
    ensures fits { IfOk result IsFrontOut }
{
    was_read(fault)?;
    Ok(nothing(alloc))
}

/// Bytes with this fault were read to it. `NoMemory` where memory ran out before.
pub fn was_read(fault: MsgFault) -> Result<(), NoMemory>
    ensures { OnOk result (fault ≡ fault_kind.NoMemory → ⊥) }
{
    match fault {
        MsgFault::NoMemory => return Err(NoMemory),
        MsgFault::Short => return Ok(()),
        MsgFault::Version => return Ok(()),
        MsgFault::Kind => return Ok(()),
        MsgFault::Length => return Ok(()),
        MsgFault::Trailing => return Ok(()),
        MsgFault::Field => return Ok(()),
    }
}

/// What a message says is done, by each kind that a node sends to the front end; any other is dropped.
fn told(
    state: &mut FrontState,
    alloc: Global,
    setting: &Setting<'_>,
    from: NodeId,
    message: Message,
) -> Result<Out, NoMemory>
    requires sound { IsFrontSound state.old }
    requires clock { AreBefore setting.now.now.0 state.old.dispatch.books.sets }
    requires stream { setting.now.stream ≤ MAX_STREAM_BYTES }
    requires table { IsOfTable message.body }
    requires closes { MayCloseBy state.old from message.body }
    ensures out { IfOk result (λ out. (state.new, out) ≡ front_told (front_setting_seen setting.entry.now) state.old from message.c message.epoch.0 message.body) }
    ensures fits { IfOk result IsFrontOut }
{
    let Message { c, epoch, body } = message;
    match body {
        Body::Taken => return take(state, alloc, c, epoch),
        Body::Ask {
            number,
            queue,
            size,
            paths,
        } => {
            let ask = Ask {
                c,
                home: from,
                number,
                queue,
                size,
                paths,
            };
            return answer(state, alloc, setting, epoch, ask);
        }
        Body::Ended {
            reason,
            snd,
            rcv,
            count: _,
        } => {
            let last = Final {
                reason,
                snd: Seq(snd),
                rcv: Seq(rcv),
            };
            return ended(state, alloc, setting, c, from, epoch, last);
        }
        Body::Offer(_) => return Ok(nothing(alloc)),
        Body::Forward(_) => return Ok(nothing(alloc)),
        Body::Tag { .. } => return Ok(nothing(alloc)),
        Body::Fetch { .. } => return Ok(nothing(alloc)),
        Body::Content { .. } => return Ok(nothing(alloc)),
        Body::EndedAck => return Ok(nothing(alloc)),
        Body::Refused => return refused(state, alloc, setting, c, from, epoch),
        Body::Give(parts) => return given(state, alloc, setting, c, from, epoch, &parts),
        Body::Given => return Ok(nothing(alloc)),
    }
}

/// A Taken comes. The connection is moved where its Offer of this epoch has no answer yet. Without memory the state is
/// of no use any more but to be spent.
pub fn take(state: &mut FrontState, alloc: Global, c: ConnId, epoch: Epoch) -> Result<Out, NoMemory>
    requires { IsFrontSound state.old }
    ensures out { IfOk result (λ out. (state.new, out) ≡ front_deed state.old c (front_taken (front_part state.old c) epoch.0)) }
    ensures fits { IfOk result IsFrontOut }
{
    let was = armed_at(state, c);
    let turn = taken(state, alloc, c, epoch);
    out_by(alloc, state, c, was, turn)
}

/// An Ask comes.
fn answer(
    state: &mut FrontState,
    alloc: Global,
    setting: &Setting<'_>,
    epoch: Epoch,
    ask: Ask,
) -> Result<Out, NoMemory>
    requires sound { IsFrontSound state.old }
    requires clock { AreBefore setting.now.now.0 state.old.dispatch.books.sets }
    requires ask { IsAsk ask }
    ensures out { IfOk result (λ out. (state.new, out) ≡ front_deed state.old ask.c
        (front_asked (front_env (front_setting_seen setting.entry.now) state.old ask.c 0) (front_part state.old ask.c) ask.home epoch.0 ask)) }
    ensures fits { IfOk result IsFrontOut }
{
    let c = ask.c;
    let around = Around {
        serve: Env {
            place: Place::Front,
            c,
            files: setting.files,
            stream: setting.stream,
        },
        iss: Seq(0),
        time: setting.now,
    };
    let was = armed_at(state, c);
    let turn = asked(state, alloc, &around, epoch, ask)?;
    out_by(alloc, state, c, was, turn)
}
