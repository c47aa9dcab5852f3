//! How a place answers the requests of a connection.

ghost use Rattle.std.specs.Prelude.{◌≡◌, ◌+◌, ◌-◌, ◌^◌, ◌≤◌, ◌<◌, false, [], ◌∷◌, ◌++◌, IsTrue, OnOk, Some, if◌then◌else◌};
ghost use Rattle.lard_answers.specs.Answers.{answer_code};
ghost use Rattle.lard_base.specs.declared.limits.TheConstants.{MAX_STREAM_BYTES};
ghost use Rattle.lard_files.specs.Files.{file_at};
ghost use Rattle.lard_endpoint.specs.Control.{finishing};
ghost use Rattle.lard_rules.specs.Serving.{answered, closed_behind, may_read};
ghost use Rattle.lard_response.specs.Response.{number};
ghost use Rattle.lard_serving.specs.Serving.{IsCounted, env_seen, service_of};

use crate::outgoing::Outgoing;
use lard_base::{ConnId, NoMemory, Place, Via};
use lard_endpoint::Endpoint;
use lard_files::Files;
use lard_journal::{Rec, Recs};
use lard_request::{Code, Verdict};
use std::alloc::Global;

/// What serving rests on beside a connection's state.
#[derive(Clone, Copy)]
pub struct Env<'a> {
    /// The place that serves.
    pub place: Place,
    /// The connection's number.
    pub c: ConnId,
    pub files: &'a Files,
    /// The most bytes of responses on one connection.
    pub stream: u32,
}

/// What was served of a connection.
#[derive(Debug, Drop)]
pub struct Service {
    /// How many responses were queued since the connection began.
    pub count: u32,
    /// The records of this turn.
    pub notes: Recs,
    /// How many bytes of responses this turn queued.
    pub answered: u32,
    /// The count of bytes that would have passed the stream limit, where a response would have.
    pub over: Option<u32>,
}

impl Service {
    /// Nothing was served in this turn yet; `count` responses were queued before it.
    pub fn new(alloc: Global, count: u32) -> Service
        ensures { (result.count ≡ count) × (result.notes ≡ []) × (result.answered ≡ 0) × (result.over ≡ None) }
    {
        Service {
            count,
            notes: Recs::new(alloc),
            answered: 0,
            over: None,
        }
    }
}

/// Whether it is read on: the client did not reset the connection, and the cluster neither closed it nor is to reset it.
pub fn may_read(endpoint: &Endpoint, service: &Service) -> bool
    ensures test { result ≡ may_read (service_of endpoint.now service.now) }
    ensures open { IsTrue result → endpoint.now.send.finished ≡ false }
    ensures within { IsTrue result → service.now.over ≡ None }
{
    !endpoint.was_reset() && !endpoint.finished() && service.over.is_none()
}

/// Behind the client's FIN the cluster's follows.
pub fn end_at_fin(endpoint: &mut Endpoint)
    ensures { endpoint.new ≡ (if endpoint.old.recv.fin then finishing endpoint.old else endpoint.old) }
{
    if endpoint.peer_done() {
        endpoint.finish();
    }
}

/// Answers a verdict, where its content came by this way. The cluster has not closed the connection, nor is to reset
/// it. `NoMemory` where memory runs out; nothing is said of the endpoint and the service then.
pub fn answer(
    alloc: Global,
    env: &Env<'_>,
    endpoint: &mut Endpoint,
    service: &mut Service,
    via: Via,
    verdict: &Verdict,
) -> Result<(), NoMemory>
    requires stream { env.now.stream ≤ MAX_STREAM_BYTES }
    requires counted { IsCounted endpoint.old service.old }
    requires open { endpoint.old.send.finished ≡ false }
    requires within { service.old.over ≡ None }
    ensures answered { OnOk result (service_of endpoint.new service.new ≡ answered (env_seen env.now) via verdict.now (service_of endpoint.old service.old)) }
    ensures counted { OnOk result (IsCounted endpoint.new service.new) }
{
    let code = code_of(env.files, verdict);
    let outgoing = Outgoing::new(alloc, env.files, verdict)?;
    let length = outgoing.len();
    let total = endpoint.total() + length;
    if env.stream < total {
        return pass_over(env, service, total);
    }
    outgoing.queue(endpoint)?;
    close_behind(endpoint, verdict);
    note(env, service, code, length, via)
}

/// The response would pass the stream limit: the connection is to be reset in its place.
fn pass_over(env: &Env<'_>, service: &mut Service, total: u32) -> Result<(), NoMemory>
    ensures { OnOk result (service.new ≡ record service.old {
      notes = service.old.notes ++ Rec.Reset env.now.place env.now.c total ∷ [];
      over = Some total;
    }) }
{
    service.notes.push(Rec::Reset {
        place: env.place,
        c: env.c,
        count: total,
    })?;
    service.over = Some(total);
    Ok(())
}

/// Notes a response that was queued.
fn note(
    env: &Env<'_>,
    service: &mut Service,
    code: u16,
    length: u32,
    via: Via,
) -> Result<(), NoMemory>
    requires count { service.old.count < 2 ^ 32 - 1 }
    requires answered { service.old.answered + length < 2 ^ 32 }
    ensures { OnOk result (service.new ≡ record service.old {
      count = service.old.count + 1;
      notes = service.old.notes ++ Rec.Served env.now.place env.now.c (service.old.count + 1) code length via ∷ [];
      answered = service.old.answered + length;
    }) }
{
    service.count += 1;
    service.answered += length;
    service.notes.push(Rec::Served {
        place: env.place,
        c: env.c,
        r: service.count,
        code,
        length,
        via,
    })
}

/// Behind an answer that closes, what comes is discarded, and the FIN follows (RFC 9112, 9.6).
fn close_behind(endpoint: &mut Endpoint, verdict: &Verdict)
    ensures { endpoint.new ≡ closed_behind verdict.now endpoint.old }
{
    if verdict.closes() {
        endpoint.discard_on();
        endpoint.finish();
    }
}

/// The code of the answer to a verdict.
fn code_of(files: &Files, verdict: &Verdict) -> u16
    ensures { result ≡ answer_code (file_at files.now) verdict.now }
{
    match verdict {
        Verdict::Serve { path, .. } => match files.get(path.as_slice()) {
            None => number(Code::NotFound),
            Some(_) => number(Code::Ok),
        },
        Verdict::Fault(code) => number(*code),
    }
}

fn number(code: Code) -> u16
    ensures { result ≡ number code }
{
    match code {
        Code::Ok => 200,
        Code::BadRequest => 400,
        Code::NotFound => 404,
        Code::TooLarge => 413,
        Code::FieldsTooLarge => 431,
        Code::NotImplemented => 501,
    }
}
