//! How the front end reads the requests of a connection that it holds: block by block, each answered as it is found, until
//! one is to be placed.

ghost use Rattle.std.specs.Prelude.{◌≡◌, ◌+◌, ◌≤◌, false, length, take, drop, IfErr, IfOk, None, OnOk, Some};
ghost use Rattle.lard_answers.specs.Answers.{good_path};
ghost use Rattle.lard_base.specs.declared.limits.TheConstants.{MAX_STREAM_BYTES};
ghost use Rattle.lard_block.specs.Blocks.{cut_of};
ghost use Rattle.lard_files.specs.Files.{file_at};
ghost use Rattle.lard_rules.specs.FrontReading.{MayMove, block_at, front_reads, reads_block, reads_found};
ghost use Rattle.lard_front.specs.Hand.{MayGo, reading_of, step_seen};
ghost use Rattle.lard_request.specs.Verdict.{verdict};
ghost use Rattle.lard_serving.specs.Serving.{IsCounted, env_seen, service_of};

use lard_base::{NoMemory, Path, Via};
use lard_block::{Found, cut};
use lard_endpoint::Endpoint;
use lard_files::Files;
use lard_request::{Code, Verdict, judge};
use lard_serving::{Env, Service, answer, end_at_fin, may_read};
use std::alloc::Global;

/// What a turn of reading comes to.
#[derive(Debug, Drop)]
pub enum Going {
    /// It goes on.
    On,
    /// It was the last. Here is the path of the next request, where that is to be placed.
    Last(Option<Path>),
}

/// Reads block by block, and answers, until no whole block is left or a good request is to be placed (RFC 9112, 9.3.2).
/// That one is left unread, and its path is answered; else `None`. `NoMemory` where memory runs out; nothing is said of
/// the endpoint and the service then.
pub fn read(
    alloc: Global,
    env: &Env<'_>,
    endpoint: &mut Endpoint,
    service: &mut Service,
) -> Result<Option<Path>, NoMemory>
    requires stream { env.now.stream ≤ MAX_STREAM_BYTES }
    requires counted { IsCounted endpoint.old service.old }
    ensures read { IfOk result (λ target. reading_of endpoint.new service.new target ≡ front_reads (env_seen env.now) (reading_of endpoint.old service.old None)) }
    ensures counted { OnOk result (IsCounted endpoint.new service.new) }
    ensures may { IfOk result (λ target. MayMove endpoint.new target) }
{
    'reading: while may_read(endpoint, service) {
        match turn(alloc, env, endpoint, service)? {
            Going::On => {}
            Going::Last(target) => return Ok(target),
        }
    }
    Ok(None)
}

/// One turn of reading: what is found at the front of the unread bytes.
fn turn(
    alloc: Global,
    env: &Env<'_>,
    endpoint: &mut Endpoint,
    service: &mut Service,
) -> Result<Going, NoMemory>
    requires stream { env.now.stream ≤ MAX_STREAM_BYTES }
    requires counted { IsCounted endpoint.old service.old }
    requires open { endpoint.old.send.finished ≡ false }
    requires within { service.old.over ≡ None }
    ensures turn { IfOk result (λ going. step_seen endpoint.new service.new going ≡ reads_found (env_seen env.now) (reading_of endpoint.old service.old None) (cut_of endpoint.old.recv.unread)) }
    ensures counted { OnOk result (IsCounted endpoint.new service.new) }
    ensures may { IfOk result (λ going. MayGo endpoint.new going) }
{
    match cut(endpoint.unread()) {
        Found::More { skip } => {
            endpoint.consume(skip);
            end_at_fin(endpoint);
            return Ok(Going::Last(None));
        }
        Found::Block { skip, len } => {
            return read_block(alloc, env, endpoint, service, skip, len);
        }
        Found::TooLong { skip: _ } => {
            let all = endpoint.unread().len();
            endpoint.consume(all);
            let verdict = Verdict::Fault(Code::FieldsTooLarge);
            answer(alloc, env, endpoint, service, Via::Own, &verdict)?;
            return Ok(Going::On);
        }
    }
}

/// A block is read and answered, unless it asks for a file: then it is left unread, with the bytes that are skipped before it,
/// and is placed once the endpoint may move.
fn read_block(
    alloc: Global,
    env: &Env<'_>,
    endpoint: &mut Endpoint,
    service: &mut Service,
    skip: usize,
    len: usize,
) -> Result<Going, NoMemory>
    requires stream { env.now.stream ≤ MAX_STREAM_BYTES }
    requires counted { IsCounted endpoint.old service.old }
    requires open { endpoint.old.send.finished ≡ false }
    requires within { service.old.over ≡ None }
    requires there { skip + len ≤ length endpoint.old.recv.unread }
    ensures turn { IfOk result (λ going. step_seen endpoint.new service.new going ≡ reads_block (env_seen env.now) (reading_of endpoint.old service.old None) (skip + len)
        (block_at (reading_of endpoint.old service.old None) skip len) (good_path (file_at env.now.files.now) (block_at (reading_of endpoint.old service.old None) skip len))) }
    ensures counted { OnOk result (IsCounted endpoint.new service.new) }
    ensures may { IfOk result (λ going. MayGo endpoint.new going) }
{
    let verdict = verdict_at(alloc, endpoint.unread(), skip, len)?;
    match good(env.files, verdict) {
        Ok(path) => {
            if endpoint.can_freeze() {
                return Ok(Going::Last(Some(path)));
            }
            return Ok(Going::Last(None));
        }
        Err(verdict) => {
            endpoint.consume(skip + len);
            answer(alloc, env, endpoint, service, Via::Own, &verdict)?;
            return Ok(Going::On);
        }
    }
}

/// The verdict on a block.
fn verdict_at(alloc: Global, bytes: &[u8], skip: usize, len: usize) -> Result<Verdict, NoMemory>
    requires { skip + len ≤ length bytes.now }
    ensures { IfOk result (λ v. v ≡ verdict (take len (drop skip bytes.now))) }
{
    judge(alloc, &bytes[skip..skip + len])
}

/// The path of a request for a file; else the verdict comes back.
fn good(files: &Files, verdict: Verdict) -> Result<Path, Verdict>
    ensures good { IfOk result (λ path. good_path (file_at files.now) verdict ≡ Some path) }
    ensures other { IfErr result (λ same. (good_path (file_at files.now) verdict ≡ None) × (same ≡ verdict)) }
{
    match verdict {
        Verdict::Serve { path, head, close } => {
            if files.get(path.as_slice()).is_some() {
                return Ok(path);
            }
            return Err(Verdict::Serve { path, head, close });
        }
        Verdict::Fault(code) => return Err(Verdict::Fault(code)),
    }
}
