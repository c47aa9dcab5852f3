//! Turn by turn: a batch is read, its requests are served in order, and the next batch is read once all of them are.

ghost use Rattle.std.specs.Prelude.{◌≡◌, ◌+◌, ◌≤◌, ◌<◌, ◌^◌, [], false, true, None, length, drop, IfOk, OnOk, ◌≢◌};
ghost use Rattle.lard_base.specs.declared.limits.TheConstants.{MAX_STREAM_BYTES};
ghost use Rattle.lard_endpoint.specs.Control.{ControlBlock};
ghost use Rattle.lard_rules.specs.Node.{is_to_read};
ghost use Rattle.lard_rules.specs.Stay.{asking, enters, goes_on, next_by, next_of, reads_batch, stay_serves};
ghost use Rattle.lard_rules.specs.Loop.{state_of, step_of};
ghost use Rattle.lard_seq.specs.Seq.{one_if};
ghost use Rattle.lard_stay.specs.Work.{HasAsked, HasEntered, IsInHandSound, stay_env_seen, work_seen};

use crate::paths::named_paths;
use crate::starting::enter;
use crate::work::{Env, Work};
use lard_base::{Items, NoMemory};
use lard_endpoint::Endpoint;
use lard_reader::batch;
use lard_reader::laws::each_verdict_uses_a_byte;
use lard_request::Verdicts;
use lard_rules::{Asked, Entry, Next, Progress};
use lard_serving::{answer, end_at_fin, may_read};
use std::alloc::Global;
use std::mem::replace;

/// Begins a stay: reads the first batch, whose first request for a file was assigned to this node with the connection,
/// and goes on. It adds at most one job, and no content to fetch. `NoMemory` where memory runs out; nothing is said of
/// the endpoint and the work then.
pub fn begin(
    alloc: Global,
    env: &Env<'_>,
    endpoint: &mut Endpoint,
    work: &mut Work,
) -> Result<(), NoMemory>
    requires stream { env.now.serve.stream ≤ MAX_STREAM_BYTES }
    requires sound { IsInHandSound endpoint.old work.old }
    requires none { work.old.batch ≡ [] }
    requires queue { env.now.queue + length work.old.jobs + 1 < 2 ^ 32 }
    ensures turns { OnOk result (work_seen endpoint.new work.new ≡ goes_on (stay_env_seen env.now) (state_of (reads_batch (stay_env_seen env.now) true (work_seen endpoint.old work.old)))) }
    ensures sound { OnOk result (IsInHandSound endpoint.new work.new) }
    ensures jobs { OnOk result (length work.new.jobs ≤ length work.old.jobs + 1) }
    ensures wants { OnOk result (work.new.wants ≡ work.old.wants) }
{
    let _more = read(alloc, env, true, endpoint, work)?;
    go_on(alloc, env, endpoint, work)
}

/// Serves and reads, as long as the next request can be served or a batch is to be read (RFC 9112, 9.3.2); a node that
/// leaves reads none. It adds no job, and no content to fetch. `NoMemory` where memory runs out; nothing is said of the
/// endpoint and the work then.
pub fn go_on(
    alloc: Global,
    env: &Env<'_>,
    endpoint: &mut Endpoint,
    work: &mut Work,
) -> Result<(), NoMemory>
    requires stream { env.now.serve.stream ≤ MAX_STREAM_BYTES }
    requires sound { IsInHandSound endpoint.old work.old }
    requires queue { env.now.queue + length work.old.jobs < 2 ^ 32 }
    ensures turns { OnOk result (work_seen endpoint.new work.new ≡ goes_on (stay_env_seen env.now) (work_seen endpoint.old work.old)) }
    ensures sound { OnOk result (IsInHandSound endpoint.new work.new) }
    ensures jobs { OnOk result (work.new.jobs ≡ work.old.jobs) }
    ensures wants { OnOk result (work.new.wants ≡ work.old.wants) }
{
    'turns: loop {
        match next(endpoint, work) {
            Next::Serve => {
                serve(alloc, env, endpoint, work)?;
            }
            Next::Read => {
                if env.leaving {
                    return Ok(());
                }
                if !read(alloc, env, false, endpoint, work)? {
                    return Ok(());
                }
            }
            Next::Stop => return Ok(()),
        }
    }
}

/// Whether a batch is to be read: all that was read is served, and it is read on.
pub fn is_to_read(endpoint: &Endpoint, work: &Work) -> bool
    ensures { result ≡ is_to_read (next_of (work_seen endpoint.now work.now)) }
{
    match next(endpoint, work) {
        Next::Serve => false,
        Next::Read => true,
        Next::Stop => false,
    }
}

/// What is done next.
fn next(endpoint: &Endpoint, work: &Work) -> Next
    ensures next { result ≡ next_of (work_seen endpoint.now work.now) }
    ensures open { result ≢ Next.Stop → endpoint.now.send.finished ≡ false }
    ensures within { result ≢ Next.Stop → work.now.service.over ≡ None }
    ensures served { result ≡ Next.Read → work.now.batch ≡ [] }
{
    if !may_read(endpoint, &work.service) {
        return Next::Stop;
    }
    match work.batch.as_slice() {
        [] => Next::Read,
        [entry, ..] => next_by(entry.progress),
    }
}

/// What is done for the first request.
fn next_by(progress: Progress) -> Next
    ensures next { result ≡ next_by progress }
    ensures some { result ≢ Next.Read }
{
    match progress {
        Progress::Ready(_) => Next::Serve,
        Progress::Named => Next::Stop,
        Progress::Reading => Next::Stop,
        Progress::Awaited(_) => Next::Stop,
    }
}

/// Serves the first request of the batch, if it is ready. It leaves the batch, unless its response would pass the stream limit.
fn serve(
    alloc: Global,
    env: &Env<'_>,
    endpoint: &mut Endpoint,
    work: &mut Work,
) -> Result<(), NoMemory>
    requires stream { env.now.serve.stream ≤ MAX_STREAM_BYTES }
    requires sound { IsInHandSound endpoint.old work.old }
    requires open { endpoint.old.send.finished ≡ false }
    requires within { work.old.service.over ≡ None }
    ensures served { OnOk result (work_seen endpoint.new work.new ≡ stay_serves (stay_env_seen env.now) (work_seen endpoint.old work.old)) }
    ensures sound { OnOk result (IsInHandSound endpoint.new work.new) }
    ensures jobs { OnOk result (work.new.jobs ≡ work.old.jobs) }
    ensures wants { OnOk result (work.new.wants ≡ work.old.wants) }
{
    let [entry, ..] = work.batch.as_slice() else {
        return Ok(());
    };
    let Progress::Ready(via) = entry.progress else {
        return Ok(());
    };
    answer(
        alloc,
        &env.serve,
        endpoint,
        &mut work.service,
        via,
        &entry.verdict,
    )?;
    if work.service.over.is_none() {
        drop_first(alloc, &mut work.batch);
    }
    Ok(())
}

/// Drops the first entry.
fn drop_first(alloc: Global, batch: &mut Items<Entry>)
    requires { 0 < length batch.old }
    ensures { batch.new ≡ drop 1 batch.old }
{
    let mut entries = replace(batch, Items::new(alloc)).into_vec();
    let _first = entries.remove(0);
    *batch = Items::from_vec(entries);
}

/// Reads the next batch of at most eight requests, and answers whether there was one. `here`: the first one for a file was
/// assigned to this node with the connection. Where no whole block is left, the cluster's FIN follows the client's.
fn read(
    alloc: Global,
    env: &Env<'_>,
    here: bool,
    endpoint: &mut Endpoint,
    work: &mut Work,
) -> Result<bool, NoMemory>
    requires sound { IsInHandSound endpoint.old work.old }
    requires none { work.old.batch ≡ [] }
    requires queue { env.now.queue + length work.old.jobs + one_if here < 2 ^ 32 }
    ensures turn { IfOk result (λ more. step_of more (work_seen endpoint.new work.new) ≡ reads_batch (stay_env_seen env.now) here (work_seen endpoint.old work.old)) }
    ensures sound { OnOk result (IsInHandSound endpoint.new work.new) }
    ensures jobs { OnOk result (length work.new.jobs ≤ length work.old.jobs + one_if here) }
    ensures same { OnOk result (here ≡ false → work.new.jobs ≡ work.old.jobs) }
    ensures wants { OnOk result (work.new.wants ≡ work.old.wants) }
{
    endpoint.law();
    let reading = batch(alloc, endpoint.unread())?;
    each_verdict_uses_a_byte();
    endpoint.consume(reading.used);
    let size = reading.verdicts.len();
    if size == 0 {
        end_at_fin(endpoint);
        return Ok(false);
    }
    enter_all(alloc, env, here, reading.verdicts, work)?;
    ask(alloc, env, size as u8, work)?;
    Ok(true)
}

/// Enters the requests of a batch, in order.
#[tactic(auto, unfolding(lard_rules::specs::Stay::enters))]
fn enter_all(
    alloc: Global,
    env: &Env<'_>,
    mut here: bool,
    verdicts: Verdicts,
    work: &mut Work,
) -> Result<(), NoMemory>
    requires { work.old.service.count + length verdicts < 2 ^ 31 }
    ensures entered { OnOk result ((b : ControlBlock) → work_seen b work.new ≡ enters (stay_env_seen env.now) here (work.old.service.count + 1) verdicts (work_seen b work.old)) }
    ensures all { OnOk result (HasEntered (length verdicts) work.old work.new) }
    ensures jobs { OnOk result (length work.new.jobs ≤ length work.old.jobs + one_if here) }
    ensures same { OnOk result (here ≡ false → work.new.jobs ≡ work.old.jobs) }
    ensures wants { OnOk result (work.new.wants ≡ work.old.wants) }
{
    let mut r = work.service.count + 1;
    for verdict in verdicts.into_vec() {
        here = enter(alloc, env, here, r, verdict, work)?;
        r += 1;
    }
    Ok(())
}

/// Makes the Ask for the requests of the batch that are to be assigned, where there are some.
fn ask(alloc: Global, env: &Env<'_>, size: u8, work: &mut Work) -> Result<(), NoMemory>
    requires small { size ≤ 8 }
    requires all { length work.old.batch ≤ size }
    requires asks { work.old.asks < 2 ^ 31 }
    requires queue { env.now.queue + length work.old.jobs < 2 ^ 32 }
    ensures asked { OnOk result ((b : ControlBlock) → work_seen b work.new ≡ asking (stay_env_seen env.now) size (work_seen b work.old)) }
    ensures one { OnOk result (HasAsked work.old work.new) }
{
    let paths = named_paths(alloc, env.serve.files, work.batch.as_slice())?;
    if paths.len() == 0 {
        return Ok(());
    }
    work.asks += 1;
    work.asked = Some(Asked {
        number: work.asks,
        queue: env.queue + work.jobs.len() as u32,
        size,
        paths,
    });
    Ok(())
}
