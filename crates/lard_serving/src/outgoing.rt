//! The response to a verdict, as it is queued: its head, and its content, which the file goes on to own.

ghost use Rattle.std.specs.Prelude.{◌≡◌, ◌+◌, ◌^◌, ◌≤◌, false, true, [], length, IfOk, IfSome, OnOk};
ghost use Rattle.lard_answers.specs.Answers.{answer, found};
ghost use Rattle.lard_base.specs.declared.limits.TheConstants.{MAX_STREAM_BYTES};
ghost use Rattle.lard_endpoint.specs.Control.{queueing};
ghost use Rattle.lard_files.specs.Files.{IsContent, file_at};
ghost use Rattle.lard_response.specs.Response.{IsClosing, response};

use lard_base::{Bytes, NoMemory};
use lard_endpoint::Endpoint;
use lard_files::Files;
use lard_request::{Code, Verdict};
use lard_shared::Shared;
use std::alloc::Global;
use std::marker::Model;

/// A response that is to be queued, which is nowhere in one piece.
#[derive(Drop)]
pub struct Outgoing {
    /// All up to and with the empty line.
    head: Bytes,
    /// The content, where any is sent: a file's, and not in the answer to HEAD.
    body: Option<Shared>,
}

impl Model for Outgoing {
    ghost use Rattle.std.specs.Prelude.{ℕ, List, ◌++◌};
    ghost use Rattle.lard_serving.specs.Serving.{content_of};

    ghost Value = { List ℕ };

    ghost view = { λ o. o.head ++ content_of o.body };
}

impl Outgoing {
    /// The response to a verdict: at least one byte, and at most the longest file and a head. `NoMemory` where memory
    /// runs out.
    #[tactic(auto, using(crate::proofs::Responses::response_fits))]
    pub fn new(alloc: Global, files: &Files, verdict: &Verdict) -> Result<Outgoing, NoMemory>
        ensures response { IfOk result (λ outgoing. outgoing ≡ answer (file_at files.now) verdict.now) }
        ensures size { IfOk result (λ outgoing. (1 ≤ length outgoing) × (length outgoing ≤ 2 ^ 27)) }
    {
        match verdict {
            Verdict::Serve { path, head, close } => {
                let body = files.share(path.as_slice())?;
                return found(alloc, body, *head, *close);
            }
            Verdict::Fault(code) => return bare(alloc, *code, false, true),
        }
    }

    /// How many bytes it has.
    pub fn len(&self) -> u32
        requires { length self.now ≤ 2 ^ 27 }
        ensures { result ≡ length self.now }
    {
        match &self.body {
            None => self.head.len() as u32,
            Some(body) => self.head.len() as u32 + body.len() as u32,
        }
    }

    /// Queues the head, and behind it the content, which is not copied; not after `finish`, and at most 2^30 bytes over
    /// one connection. `NoMemory` where memory runs out; nothing is said of the endpoint then.
    #[tactic(auto, using(crate::proofs::Responses::queued_behind))]
    pub fn queue(self, endpoint: &mut Endpoint) -> Result<(), NoMemory>
        requires unfinished { endpoint.old.send.finished ≡ false }
        requires fits { endpoint.old.send.total + length self ≤ MAX_STREAM_BYTES }
        ensures { OnOk result (endpoint.new ≡ queueing endpoint.old self) }
    {
        let Outgoing { head, body } = self;
        endpoint.queue(head.as_slice())?;
        match body {
            None => Ok(()),
            // Without memory for it the head is queued alone. That harms nobody: a world without memory is spoiled and takes
            // no step any more, so nothing of it is sent.
            Some(body) => endpoint.queue_shared(body),
        }
    }
}

/// The response to a request for a path that names this file, or none.
#[tactic(auto, using(crate::proofs::Responses::response_fits))]
fn found(alloc: Global, body: Option<Shared>, head: bool, close: bool) -> Result<Outgoing, NoMemory>
    requires { IfSome body IsContent }
    ensures response { IfOk result (λ outgoing. outgoing ≡ found body head close) }
    ensures size { IfOk result (λ outgoing. (1 ≤ length outgoing) × (length outgoing ≤ 2 ^ 27)) }
{
    match body {
        None => return bare(alloc, Code::NotFound, head, close),
        Some(body) => return whole(alloc, body, head, close),
    }
}

/// The response to a request for a file with this content.
#[tactic(auto, unfolding(lard_response::specs::Response::response))]
fn whole(alloc: Global, body: Shared, head: bool, close: bool) -> Result<Outgoing, NoMemory>
    ensures { IfOk result (λ outgoing. outgoing ≡ response Code.Ok body head close) }
{
    let first = lard_response::head(alloc, Code::Ok, body.len() as u64, close)?;
    Ok(Outgoing {
        head: first,
        body: if head { None } else { Some(body) },
    })
}

/// The response of a code without content, which is the same in the answer to HEAD.
#[tactic(auto, unfolding(lard_response::specs::Response::response))]
fn bare(alloc: Global, code: Code, head: bool, close: bool) -> Result<Outgoing, NoMemory>
    requires { IsClosing code close }
    ensures { IfOk result (λ outgoing. outgoing ≡ response code [] head close) }
{
    let first = lard_response::head(alloc, code, 0, close)?;
    Ok(Outgoing {
        head: first,
        body: None,
    })
}
