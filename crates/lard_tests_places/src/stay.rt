//! Each call once, with ample memory.

ghost use Rattle.std.specs.Prelude.{◌≡◌, ◌<◌, ◌≤◌, [], length};
ghost use Rattle.lard_base.specs.declared.limits.TheConstants.{MAX_STREAM_BYTES};
ghost use Rattle.lard_endpoint.specs.Control.{ControlBlock};
ghost use Rattle.lard_stay.specs.Work.{IsInHandSound};

use lard_base::{Bytes, ConnId, EndpointParts, Epoch, Items, NoMemory, NodeId, Path, Place, Via};
use lard_cache::Cache;
use lard_endpoint::Endpoint;
use lard_files::Files;
use lard_journal::Rec;
use lard_rules::{Progress, Stay};
use lard_stay::{Env, Work, begin, come, complete, count_named, go_on, tag};
use std::alloc::Global;

/// Requests for two files, and for none.
const REQUESTS: &[u8] =
    b"GET /a HTTP/1.1\r\nHost: h\r\n\r\nGET /b HTTP/1.1\r\nHost: h\r\n\r\nGET /c HTTP/1.1\r\nHost: h\r\n\r\n";

/// A request that was served: its number, the code, the length of the response, and the way by which its content came.
type Served = (u32, u16, u32, Via);

/// What an endpoint is made of on which the requests came, and nothing was answered.
fn parts(alloc: Global) -> Result<EndpointParts, NoMemory> {
    Ok(EndpointParts {
        irs: 1000,
        iss: 5000,
        got: 84,
        fin: false,
        una: 1,
        wnd: 65_535,
        wl1: 1001,
        wl2: 5001,
        mss: 1460,
        served: 0,
        unread: Bytes::from_slice(alloc, REQUESTS)?,
    })
}

fn adopt(alloc: Global) -> Result<Endpoint, NoMemory> {
    let parts = parts(alloc)?;
    if !parts.is_valid() {
        return Err(NoMemory);
    }
    Endpoint::adopt(alloc, &parts)
}

/// Two files.
fn files(alloc: Global) -> Result<Files, NoMemory> {
    let mut files = Files::new(alloc);
    if files.add(b"/a", b"alpha").is_err() || files.add(b"/b", b"be").is_err() {
        return Err(NoMemory);
    }
    Ok(files)
}

/// A cache with these paths.
fn cache_of(alloc: Global, cached: &[&[u8]]) -> Result<Cache, NoMemory> {
    let mut cache = Cache::new(alloc, 100)?;
    for path in cached {
        put(&mut cache, alloc, path)?;
    }
    Ok(cache)
}

fn put(cache: &mut Cache, alloc: Global, path: &[u8]) -> Result<(), NoMemory> {
    let path = Path::from_slice(alloc, path)?;
    cache.put(&path, 5)
}

/// Whether the requests of the batch are as far as that.
fn stands(work: &Work, progress: &[Progress]) -> bool {
    let batch = work.batch.as_slice();
    batch.len() == progress.len()
        && batch
            .iter()
            .zip(progress)
            .all(|(entry, want)| entry.progress == *want)
}

/// What the notes say of a request that was served, where the note at this place does.
fn served(work: &Work, at: usize) -> Option<Served> {
    match work.service.notes.as_slice().get(at) {
        Some(
            Rec::Served {
                place: _,
                c: _,
                r,
                code,
                length,
                via,
            },
        ) => Some((*r, *code, *length, *via)),
        _ => None,
    }
}

/// Whether the Ask is this one, for the path `/b`.
fn asks(work: &Work, number: u32, queue: u32, size: u8) -> bool {
    match &work.asked {
        None => false,
        Some(asked) => {
            asked.number == number
                && asked.queue == queue
                && asked.size == size
                && asked.paths.len() == 1
                && asked
                    .paths
                    .as_slice()
                    .iter()
                    .all(|path| path.as_slice() == b"/b".as_slice())
        }
    }
}

/// What is in hand of a stay that begins.
fn begun(alloc: Global) -> Work
    ensures sound { (b : ControlBlock) → length b.recv.unread ≤ b.recv.got → IsInHandSound b result }
    ensures none { (result.batch ≡ []) × (result.jobs ≡ []) }
{
    Work::new(
        alloc,
        Stay {
            served: 0,
            batch: Items::new(alloc),
            asks: 0,
        },
    )
}

/// What is not as it is to be, if something is not.
type Wrong = Option<&'static str>;

/// The first file is cached, the second one comes from another node, and the third request is for none.
fn serve_by_nodes(
    alloc: Global,
    env: &Env<'_>,
    endpoint: &mut Endpoint,
    work: &mut Work,
    nodes: [NodeId; 3],
) -> Result<Wrong, NoMemory>
    requires stream { env.now.serve.stream ≤ MAX_STREAM_BYTES }
    requires queue { env.now.queue < 1000 }
    requires whole { IsInHandSound endpoint.old work.old }
    requires none { (work.old.batch ≡ []) × (work.old.jobs ≡ []) }
{
    let [_, two, three] = nodes;
    begin(alloc, env, endpoint, work)?;
    if !stands(work, &[Progress::Named, Progress::Ready(Via::Own)]) || !asks(work, 1, 5, 3) {
        return Ok(Some("a first batch, and the Ask for it"));
    }
    if served(work, 1) != Some((1, 200, 43, Via::Cache))
        || count_named(env.serve.files, work.batch.as_slice()) != 1
    {
        return Ok(Some("the first response, and one path to be assigned"));
    }
    tag(alloc, env, endpoint, work, &[two])?;
    come(alloc, work, three, 2);
    let awaited = Progress::Awaited(two);
    if !stands(work, &[awaited, Progress::Ready(Via::Own)]) || !wants(work, two) {
        return Ok(Some("a content that is wanted"));
    }
    come(alloc, work, two, 2);
    if work.jobs.len() != 0 {
        return Ok(Some("no job"));
    }
    go_on(alloc, env, endpoint, work)?;
    if served(work, 2) != Some((2, 200, 40, Via::Node(two)))
        || served(work, 3) != Some((3, 404, 45, Via::Own))
        || !stands(work, &[])
    {
        return Ok(Some("the other responses"));
    }
    Ok(None)
}

/// Whether the content of the second request is wanted from this node, and no other.
fn wants(work: &Work, node: NodeId) -> bool {
    match work.wants.as_slice() {
        [want] => want.r == 2 && want.node == node && want.path.as_slice() == b"/b".as_slice(),
        _ => false,
    }
}

/// No file is cached, so that a job of the disk reads the first.
fn serve_by_disk(
    alloc: Global,
    env: &Env<'_>,
    endpoint: &mut Endpoint,
    work: &mut Work,
) -> Result<Wrong, NoMemory>
    requires stream { env.now.serve.stream ≤ MAX_STREAM_BYTES }
    requires queue { env.now.queue < 1000 }
    requires whole { IsInHandSound endpoint.old work.old }
    requires none { (work.old.batch ≡ []) × (work.old.jobs ≡ []) }
{
    begin(alloc, env, endpoint, work)?;
    let read = [
        Progress::Reading,
        Progress::Named,
        Progress::Ready(Via::Own),
    ];
    if !stands(work, &read) || !asks(work, 1, 6, 3) {
        return Ok(Some("a request that awaits the disk"));
    }
    complete(alloc, work, 1);
    if work.jobs.len() != 1 {
        return Ok(Some("one job"));
    }
    go_on(alloc, env, endpoint, work)?;
    let left = [Progress::Named, Progress::Ready(Via::Own)];
    if served(work, 1) != Some((1, 200, 43, Via::Disk)) || !stands(work, &left) {
        return Ok(Some("the first response"));
    }
    Ok(None)
}

/// A node that leaves reads none of the requests.
fn read_none(
    alloc: Global,
    env: &Env<'_>,
    endpoint: &mut Endpoint,
    work: &mut Work,
) -> Result<Wrong, NoMemory>
    requires stream { env.now.serve.stream ≤ MAX_STREAM_BYTES }
    requires queue { env.now.queue < 1000 }
    requires whole { IsInHandSound endpoint.old work.old }
    requires none { work.old.jobs ≡ [] }
{
    go_on(alloc, env, endpoint, work)?;
    if endpoint.unread() != REQUESTS || !stands(work, &[]) || work.asked.is_some() {
        return Ok(Some("requests that are not read"));
    }
    Ok(None)
}

/// Serves the requests by other nodes, where a file is cached, and else by the disk; a node that leaves does not.
fn serve(
    alloc: Global,
    env: &Env<'_>,
    endpoint: &mut Endpoint,
    nodes: [NodeId; 3],
    is_cached: bool,
) -> Result<Wrong, NoMemory>
    requires stream { env.now.serve.stream ≤ MAX_STREAM_BYTES }
    requires queue { env.now.queue < 1000 }
    requires whole { length endpoint.old.recv.unread ≤ endpoint.old.recv.got }
{
    let mut work = begun(alloc);
    if env.leaving {
        return read_none(alloc, env, endpoint, &mut work);
    }
    if is_cached {
        serve_by_nodes(alloc, env, endpoint, &mut work, nodes)
    } else {
        serve_by_disk(alloc, env, endpoint, &mut work)
    }
}

/// Serves the requests at node 1, whose disk has five jobs, with these paths cached.
fn serve_at_node(
    alloc: Global,
    cached: &[&[u8]],
    nodes: [NodeId; 3],
    c: ConnId,
    leaving: bool,
) -> Result<Wrong, NoMemory> {
    let [node, _, _] = nodes;
    let files = files(alloc)?;
    let cache = cache_of(alloc, cached)?;
    let env = Env {
        serve: lard_serving::Env {
            place: Place::Node(node),
            c,
            files: &files,
            stream: 1000,
        },
        node,
        epoch: Epoch(2),
        cache: &cache,
        queue: 5,
        leaving,
    };
    let mut endpoint = adopt(alloc)?;
    endpoint.law();
    let done = serve(alloc, &env, &mut endpoint, nodes, cached.len() > 0);
    let _last = endpoint.kill();
    done
}

fn three_nodes() -> Option<[NodeId; 3]> {
    Some([NodeId::new(1)?, NodeId::new(2)?, NodeId::new(3)?])
}

#[test]
fn requests_are_served_in_their_order(rt: HostRuntime) {
    let nodes = three_nodes().expect(&rt, "the numbers of nodes");
    let c = ConnId::new(7).expect(&rt, "the number of a connection");
    assert_eq!(rt;
        serve_at_node(rt.alloc(), &[b"/a"], nodes, c, false),
        Ok(None)
    );
}

#[test]
fn a_job_makes_its_request_ready(rt: HostRuntime) {
    let nodes = three_nodes().expect(&rt, "the numbers of nodes");
    let c = ConnId::new(7).expect(&rt, "the number of a connection");
    assert_eq!(rt; serve_at_node(rt.alloc(), &[], nodes, c, false), Ok(None));
}

#[test]
fn a_node_that_leaves_reads_no_batch(rt: HostRuntime) {
    let nodes = three_nodes().expect(&rt, "the numbers of nodes");
    let c = ConnId::new(7).expect(&rt, "the number of a connection");
    assert_eq!(rt;
        serve_at_node(rt.alloc(), &[b"/a"], nodes, c, true),
        Ok(None)
    );
}
