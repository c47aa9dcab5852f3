//! The end of a turn: what the endpoint may send goes out, and it ends where it may, or at the stream limit. The endpoint
//! comes back in each case, also without memory.

ghost use Rattle.std.specs.Prelude.{◌≡◌, ◌+◌, ◌^◌, ◌≤◌, false, [], ◌∷◌, ◌++◌, length, None, IfOk};
ghost use Rattle.lard_base.specs.declared.limits.TheConstants.{MAX_SEGMENT_BYTES, MAX_SEGMENT_DATA, MAX_STREAM_BYTES};
ghost use Rattle.lard_rules.specs.Serving.{cut_off, is_serving_armed, limit_said, rested, serving_settled, spoken, serving_told};
ghost use Rattle.lard_rules.specs.Speaking.{AreShort};
ghost use Rattle.lard_segment.specs.Segment.{said};
ghost use Rattle.lard_serving.specs.Serving.{IsCounted, env_seen, service_of};
ghost use Rattle.lard_serving.specs.Bounds.{IsTurn};

use crate::answering::{Env, Service};
use crate::speaking::{packet, speak, speak_symbols};
use lard_base::{Bytes, NoMemory, Place, Sends};
use lard_endpoint::{Endpoint, Final};
use lard_rules::{Ending, Turn};
use lard_segment::{Dir, Flags, Segment};
use std::alloc::Global;

/// Where the connection is, and the place's turn; `NoMemory` in the place of the turn where memory ran out.
pub type Ends = (Ending, Result<Turn, NoMemory>);

/// Whether some symbol of the endpoint is not acknowledged.
pub fn is_armed(ending: &Ending) -> bool
    ensures { result ≡ is_serving_armed ending.now }
{
    match ending {
        Ending::Here { endpoint, .. } => !endpoint.clear(),
        Ending::Over(_) => false,
    }
}

/// The endpoint, ended where it may end.
fn rested(endpoint: Endpoint, count: u32) -> Ending
    ensures { result ≡ rested endpoint count }
{
    match endpoint.end() {
        Ok(last) => Ending::Over(last),
        Err(endpoint) => Ending::Here { endpoint, count },
    }
}

/// These packets go out, and then what the endpoint may send. `NoMemory` in the place of the turn where memory runs
/// out.
pub fn spoken(
    alloc: Global,
    env: &Env<'_>,
    mut endpoint: Endpoint,
    service: Service,
    before: Sends,
) -> Ends
    requires short { AreShort before }
    requires few { length before ≤ 1 }
    requires counted { IsCounted endpoint service }
    ensures turn { IfOk result.1 (λ turn. (result.0, turn) ≡ spoken (env_seen env.now) (service_of endpoint service) before) }
    ensures fits { IfOk result.1 IsTurn }
{
    let Service {
        count,
        notes,
        answered,
        over: _,
    } = service;
    match speak(alloc, env.c, &mut endpoint, before) {
        Ok(segments) => {
            let turn = Turn {
                notes,
                segments,
                answered,
            };
            return (rested(endpoint, count), Ok(turn));
        }
        Err(NoMemory) => return (rested(endpoint, count), Err(NoMemory)),
    }
}

/// At the stream limit what has a symbol is still sent, then the RST ends the connection.
fn cut_off(alloc: Global, env: &Env<'_>, mut endpoint: Endpoint, service: Service) -> Ends
    requires counted { IsCounted endpoint service }
    ensures turn { IfOk result.1 (λ turn. (result.0, turn) ≡ cut_off (env_seen env.now) (service_of endpoint service)) }
    ensures fits { IfOk result.1 IsTurn }
{
    let sends = speak_symbols(alloc, env.c, &mut endpoint);
    let last = endpoint.kill();
    match sends {
        Ok(sends) => {
            let turn = limit_turn(alloc, env, last, service, sends);
            return (Ending::Over(last), turn);
        }
        Err(NoMemory) => return (Ending::Over(last), Err(NoMemory)),
    }
}

/// The turn at the stream limit: these packets, and the RST.
fn limit_turn(
    alloc: Global,
    env: &Env<'_>,
    last: Final,
    service: Service,
    sends: Sends,
) -> Result<Turn, NoMemory>
    requires short { AreShort sends }
    requires few { length sends ≤ MAX_STREAM_BYTES + 3 }
    requires counted { service.answered ≤ MAX_STREAM_BYTES }
    ensures turn { IfOk result (λ turn. turn ≡ record { notes = service.notes; segments = sends ++ serving_told (env_seen env.now) (limit_said last) ∷ []; answered = service.answered }) }
    ensures fits { IfOk result IsTurn }
{
    let mut segments = sends;
    segments.push(told(alloc, env, &limit_segment(last))?)?;
    Ok(Turn {
        notes: service.notes,
        segments,
        answered: service.answered,
    })
}

/// The packet of a segment to the client, which names no maximum segment size. `NoMemory` where memory runs out.
pub fn told(alloc: Global, env: &Env<'_>, segment: &Segment<'_>) -> Result<(Place, Bytes), NoMemory>
    requires plain { segment.now.mss ≡ None }
    requires small { length segment.now.payload.now ≤ MAX_SEGMENT_DATA }
    requires no_ack { segment.now.flags.ack ≡ false → segment.now.ack.0 ≡ 0 }
    ensures packet { IfOk result (λ packet. packet ≡ serving_told (env_seen env.now) (said segment.now)) }
    ensures short { IfOk result (λ packet. length packet.1 ≤ MAX_SEGMENT_BYTES) }
{
    let bytes = packet(alloc, segment, env.c, Dir::ToClient)?;
    Ok((Place::Client(env.c), bytes))
}

/// The RST at the stream limit: <SEQ=SND.NXT><ACK=RCV.NXT><CTL=RST,ACK> (RFC 9293, 3.10.5).
fn limit_segment(last: Final) -> Segment<'static>
    ensures { said result ≡ limit_said last }
{
    Segment::control(last.snd, last.rcv, Flags::RST_ACK, 0)
}

/// The end of a turn in which requests were read: the stream limit ends the connection by a RST (RFC 9293, 3.10.5),
/// else it goes on. `NoMemory` in the place of the turn where memory runs out.
pub fn settled(alloc: Global, env: &Env<'_>, endpoint: Endpoint, service: Service) -> Ends
    requires counted { IsCounted endpoint service }
    ensures turn { IfOk result.1 (λ turn. (result.0, turn) ≡ serving_settled (env_seen env.now) (service_of endpoint service)) }
    ensures fits { IfOk result.1 IsTurn }
{
    match service.over {
        None => return spoken(alloc, env, endpoint, service, Sends::new(alloc)),
        Some(_) => return cut_off(alloc, env, endpoint, service),
    }
}
