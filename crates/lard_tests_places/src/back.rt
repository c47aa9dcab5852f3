//! A node that no connection was offered to: what comes for one is dropped, and what another node asks for is read once. And a
//! stay, step by step, to its end, and to where a node that leaves gives it back.
//! No event makes a node leave yet; its table does.

ghost use Rattle.std.specs.Prelude.{◌≡◌, ◌≤◌, OnOk};
ghost use Rattle.lard_back.specs.Sound.{IsNodeSound};
ghost use Rattle.lard_base.specs.declared.limits.TheConstants.{MAX_STREAM_BYTES};

use lard_back::{Setting, begin, finish, step};
use lard_base::{Bytes, ConnId, EndpointParts, Epoch, NoMemory, NodeId, Nodes, Path, Place};
use lard_files::Files;
use lard_message::{Body, Message, encode};
use lard_rules::{BackIn, NodeState};
use lard_segment::{Dir, Flags, Segment};
use lard_seq::Seq;
use lard_serving::packet;
use std::alloc::Global;

/// How many records, messages, segments and records of timers a step has.
type Told = (usize, usize, usize, usize);

/// What a node does with what comes to it.
fn does(
    state: &mut NodeState,
    alloc: Global,
    setting: &Setting<'_>,
    input: BackIn,
) -> Result<Told, NoMemory>
    requires sound { IsNodeSound state.old }
    requires stream { setting.now.stream ≤ MAX_STREAM_BYTES }
    ensures sound { OnOk result (IsNodeSound state.new) }
{
    if state.disk.len() > 8 {
        return Err(NoMemory);
    }
    let out = step(state, alloc, setting, input)?;
    let (notes, messages) = (out.notes.len(), out.messages.len());
    Ok((notes, messages, out.segments.len(), out.timers.len()))
}

/// What a place writes of a connection that stays in its second epoch.
fn written(alloc: Global, c: ConnId, body: Body) -> Result<Bytes, NoMemory> {
    if !body.is_of_table() {
        return Err(NoMemory);
    }
    let epoch = Epoch(2);
    encode(alloc, &Message { c, epoch, body })
}

/// What a node does where a place says this.
fn hears(
    state: &mut NodeState,
    alloc: Global,
    setting: &Setting<'_>,
    from: Place,
    c: ConnId,
    body: Body,
) -> Result<Told, NoMemory>
    requires sound { IsNodeSound state.old }
    requires stream { setting.now.stream ≤ MAX_STREAM_BYTES }
    ensures sound { OnOk result (IsNodeSound state.new) }
{
    let bytes = written(alloc, c, body)?;
    does(state, alloc, setting, BackIn::Message { from, bytes })
}

/// Bytes that are no segment, for a connection that is not here.
fn drops_segment(
    state: &mut NodeState,
    alloc: Global,
    setting: &Setting<'_>,
    c: ConnId,
) -> Result<Told, NoMemory>
    requires sound { IsNodeSound state.old }
    requires stream { setting.now.stream ≤ MAX_STREAM_BYTES }
    ensures sound { OnOk result (IsNodeSound state.new) }
{
    let bytes = Bytes::from_slice(alloc, b"the bytes of no segment")?;
    hears(state, alloc, setting, Place::Front, c, Body::Forward(bytes))
}

/// One node alone.
fn alone(alloc: Global, n: NodeId) -> Result<Nodes, NoMemory> {
    let mut nodes = Nodes::new(alloc);
    nodes.push(n)?;
    Ok(nodes)
}

/// The nodes of a batch, for such a connection.
fn drops_tag(
    state: &mut NodeState,
    alloc: Global,
    setting: &Setting<'_>,
    c: ConnId,
) -> Result<Told, NoMemory>
    requires sound { IsNodeSound state.old }
    requires stream { setting.now.stream ≤ MAX_STREAM_BYTES }
    ensures sound { OnOk result (IsNodeSound state.new) }
{
    let nodes = alone(alloc, setting.n)?;
    let tag = Body::Tag { number: 1, nodes };
    hears(state, alloc, setting, Place::Front, c, tag)
}

/// A content from a node, for such a connection.
fn drops_content(
    state: &mut NodeState,
    alloc: Global,
    setting: &Setting<'_>,
    c: ConnId,
) -> Result<Told, NoMemory>
    requires sound { IsNodeSound state.old }
    requires stream { setting.now.stream ≤ MAX_STREAM_BYTES }
    ensures sound { OnOk result (IsNodeSound state.new) }
{
    let bytes = Bytes::from_slice(alloc, b"alpha")?;
    let content = Body::Content { r: 1, bytes };
    hears(state, alloc, setting, Place::Node(setting.n), c, content)
}

/// All that may come for such a connection.
fn drops_all(
    state: &mut NodeState,
    alloc: Global,
    setting: &Setting<'_>,
    c: ConnId,
) -> Result<[Told; 4], NoMemory>
    requires sound { IsNodeSound state.old }
    requires stream { setting.now.stream ≤ MAX_STREAM_BYTES }
    ensures sound { OnOk result (IsNodeSound state.new) }
{
    let segment = drops_segment(state, alloc, setting, c)?;
    let tag = drops_tag(state, alloc, setting, c)?;
    let content = drops_content(state, alloc, setting, c)?;
    let timer = does(state, alloc, setting, BackIn::Timer(c))?;
    Ok([segment, tag, content, timer])
}

/// A Fetch of request `r` for `/a`: how many records and messages it brings, and how many jobs the disk has then.
fn asks(
    state: &mut NodeState,
    alloc: Global,
    setting: &Setting<'_>,
    c: ConnId,
    r: u32,
) -> Result<(usize, usize, u32), NoMemory>
    requires sound { IsNodeSound state.old }
    requires stream { setting.now.stream ≤ MAX_STREAM_BYTES }
    ensures sound { OnOk result (IsNodeSound state.new) }
{
    let path = Path::from_slice(alloc, b"/a")?;
    let other = Place::Node(setting.n);
    let (notes, messages, _, _) = hears(state, alloc, setting, other, c, Body::Fetch { r, path })?;
    Ok((notes, messages, state.disk.len()))
}

/// The same twice, before the disk has read it and behind that.
fn asks_again(
    state: &mut NodeState,
    alloc: Global,
    setting: &Setting<'_>,
    c: ConnId,
) -> Result<[(usize, usize, u32); 3], NoMemory>
    requires sound { IsNodeSound state.old }
    requires stream { setting.now.stream ≤ MAX_STREAM_BYTES }
{
    let first = asks(state, alloc, setting, c, 1)?;
    let again = asks(state, alloc, setting, c, 1)?;
    let (_notes, _messages, _segments, _timers) = does(state, alloc, setting, BackIn::Disk(1))?;
    Ok([first, again, asks(state, alloc, setting, c, 2)?])
}

/// Both, one after the other.
fn drops_and_asks(
    state: &mut NodeState,
    alloc: Global,
    setting: &Setting<'_>,
    c: ConnId,
) -> Result<([Told; 4], [(usize, usize, u32); 3]), NoMemory>
    requires sound { IsNodeSound state.old }
    requires stream { setting.now.stream ≤ MAX_STREAM_BYTES }
{
    let dropped = drops_all(state, alloc, setting, c)?;
    let asked = asks_again(state, alloc, setting, c)?;
    Ok((dropped, asked))
}

/// One file.
fn files(alloc: Global) -> Result<Files, NoMemory> {
    let mut files = Files::new(alloc);
    if files.add(b"/a", b"alpha").is_err() {
        return Err(NoMemory);
    }
    Ok(files)
}

/// What a node says to all of that, with ample memory.
fn dropped_and_asked(
    alloc: Global,
    n: NodeId,
    c: ConnId,
) -> Result<([Told; 4], [(usize, usize, u32); 3]), NoMemory> {
    let files = files(alloc)?;
    let setting = Setting {
        n,
        files: &files,
        stream: 1000,
    };
    let mut state = begin(alloc, 100)?;
    let told = drops_and_asks(&mut state, alloc, &setting, c);
    finish(state);
    told
}

#[test]
fn nothing_is_here_and_a_file_is_read_once(rt: HostRuntime) {
    let n = NodeId::new(2).expect(&rt, "the number of a node");
    let c = ConnId::new(1).expect(&rt, "the number of a connection");
    let asked = [(1, 0, 1), (0, 0, 1), (1, 1, 0)];
    assert_eq!(rt;
        dropped_and_asked(rt.alloc(), n, c),
        Ok(([(0, 0, 0, 0); 4], asked))
    );
}

/// A reset of the client, whose next byte is 1032.
const RESET: Segment<'static> = Segment {
    seq: Seq(1032),
    ack: Seq(5001),
    flags: Flags {
        syn: false,
        ack: true,
        fin: false,
        rst: true,
        psh: false,
    },
    wnd: 65_535,
    mss: None,
    payload: b"",
};

/// What the front end hands over: a request for `/a` is not read yet.
fn parts(alloc: Global) -> Result<EndpointParts, NoMemory> {
    Ok(EndpointParts {
        irs: 1000,
        iss: 5000,
        got: 31,
        fin: false,
        una: 1,
        wnd: 65_535,
        wl1: 1001,
        wl2: 5001,
        mss: 1460,
        served: 0,
        unread: Bytes::from_slice(alloc, b"GET /a HTTP/1.1\r\nHost: lard\r\n\r\n")?,
    })
}

/// A connection is offered.
fn offered(
    state: &mut NodeState,
    alloc: Global,
    setting: &Setting<'_>,
    c: ConnId,
) -> Result<Told, NoMemory>
    requires sound { IsNodeSound state.old }
    requires stream { setting.now.stream ≤ MAX_STREAM_BYTES }
    ensures sound { OnOk result (IsNodeSound state.new) }
{
    let parts = parts(alloc)?;
    hears(state, alloc, setting, Place::Front, c, Body::Offer(parts))
}

/// A connection is offered twice, and its file is read.
fn stays(
    state: &mut NodeState,
    alloc: Global,
    setting: &Setting<'_>,
    c: ConnId,
) -> Result<[Told; 4], NoMemory>
    requires sound { IsNodeSound state.old }
    requires stream { setting.now.stream ≤ MAX_STREAM_BYTES }
    ensures sound { OnOk result (IsNodeSound state.new) }
{
    let new = offered(state, alloc, setting, c)?;
    let again = offered(state, alloc, setting, c)?;
    let read = does(state, alloc, setting, BackIn::Disk(1))?;
    let fired = does(state, alloc, setting, BackIn::Timer(c))?;
    Ok([new, again, read, fired])
}

/// The client resets it.
fn resets(
    state: &mut NodeState,
    alloc: Global,
    setting: &Setting<'_>,
    c: ConnId,
) -> Result<Told, NoMemory>
    requires sound { IsNodeSound state.old }
    requires stream { setting.now.stream ≤ MAX_STREAM_BYTES }
    ensures sound { OnOk result (IsNodeSound state.new) }
{
    let segment = packet(alloc, &RESET, c, Dir::ToCluster)?;
    hears(
        state,
        alloc,
        setting,
        Place::Front,
        c,
        Body::Forward(segment),
    )
}

/// The client resets it, and the front end comes to know.
fn ends(
    state: &mut NodeState,
    alloc: Global,
    setting: &Setting<'_>,
    c: ConnId,
) -> Result<[Told; 4], NoMemory>
    requires sound { IsNodeSound state.old }
    requires stream { setting.now.stream ≤ MAX_STREAM_BYTES }
{
    let ended = resets(state, alloc, setting, c)?;
    let again = does(state, alloc, setting, BackIn::Timer(c))?;
    let known = hears(state, alloc, setting, Place::Front, c, Body::EndedAck)?;
    let quiet = does(state, alloc, setting, BackIn::Timer(c))?;
    Ok([ended, again, known, quiet])
}

/// Both, one after the other.
fn stays_and_ends(
    state: &mut NodeState,
    alloc: Global,
    setting: &Setting<'_>,
    c: ConnId,
) -> Result<([Told; 4], [Told; 4]), NoMemory>
    requires sound { IsNodeSound state.old }
    requires stream { setting.now.stream ≤ MAX_STREAM_BYTES }
{
    let here = stays(state, alloc, setting, c)?;
    let over = ends(state, alloc, setting, c)?;
    Ok((here, over))
}

/// What a node says to all of that, with ample memory.
fn stayed_and_ended(
    alloc: Global,
    n: NodeId,
    c: ConnId,
) -> Result<([Told; 4], [Told; 4]), NoMemory> {
    let files = files(alloc)?;
    let setting = Setting {
        n,
        files: &files,
        stream: 1000,
    };
    let mut state = begin(alloc, 100)?;
    let told = stays_and_ends(&mut state, alloc, &setting, c);
    finish(state);
    told
}

#[test]
fn a_connection_stays_and_ends(rt: HostRuntime) {
    let n = NodeId::new(2).expect(&rt, "the number of a node");
    let c = ConnId::new(1).expect(&rt, "the number of a connection");
    let here = [(2, 1, 1, 0), (0, 1, 0, 0), (2, 0, 1, 1), (0, 0, 1, 0)];
    let over = [(0, 1, 0, 2), (0, 1, 0, 0), (0, 0, 0, 1), (0, 0, 0, 0)];
    assert_eq!(rt; stayed_and_ended(rt.alloc(), n, c), Ok((here, over)));
}

// ---- a node that leaves

/// It refuses a connection, each time that it is offered; nothing is awaited of the front end.
fn refuses(
    state: &mut NodeState,
    alloc: Global,
    setting: &Setting<'_>,
    c: ConnId,
) -> Result<[Told; 4], NoMemory>
    requires sound { IsNodeSound state.old }
    requires stream { setting.now.stream ≤ MAX_STREAM_BYTES }
{
    state.conns.leave();
    let refused = offered(state, alloc, setting, c)?;
    let again = offered(state, alloc, setting, c)?;
    let given = hears(state, alloc, setting, Place::Front, c, Body::Given)?;
    let quiet = does(state, alloc, setting, BackIn::Timer(c))?;
    Ok([refused, again, given, quiet])
}

/// The client acknowledges the response, whose 43 bytes stand behind 5001.
const TAKEN: Segment<'static> = Segment {
    seq: Seq(1032),
    ack: Seq(5044),
    flags: Flags {
        syn: false,
        ack: true,
        fin: false,
        rst: false,
        psh: false,
    },
    wnd: 65_535,
    mss: None,
    payload: b"",
};

/// It serves what it read, and gives the connection back once the client took that.
fn gives_back(
    state: &mut NodeState,
    alloc: Global,
    setting: &Setting<'_>,
    c: ConnId,
) -> Result<[Told; 4], NoMemory>
    requires sound { IsNodeSound state.old }
    requires stream { setting.now.stream ≤ MAX_STREAM_BYTES }
    ensures sound { OnOk result (IsNodeSound state.new) }
{
    let new = offered(state, alloc, setting, c)?;
    state.conns.leave();
    let read = does(state, alloc, setting, BackIn::Disk(1))?;
    let bytes = packet(alloc, &TAKEN, c, Dir::ToCluster)?;
    let given = hears(state, alloc, setting, Place::Front, c, Body::Forward(bytes))?;
    let again = does(state, alloc, setting, BackIn::Timer(c))?;
    Ok([new, read, given, again])
}

/// The front end comes to know, by a Given alone.
fn is_known(
    state: &mut NodeState,
    alloc: Global,
    setting: &Setting<'_>,
    c: ConnId,
) -> Result<[Told; 4], NoMemory>
    requires sound { IsNodeSound state.old }
    requires stream { setting.now.stream ≤ MAX_STREAM_BYTES }
{
    let other = hears(state, alloc, setting, Place::Front, c, Body::EndedAck)?;
    let known = hears(state, alloc, setting, Place::Front, c, Body::Given)?;
    let quiet = does(state, alloc, setting, BackIn::Timer(c))?;
    let taken = offered(state, alloc, setting, c)?;
    Ok([other, known, quiet, taken])
}

/// Both, one after the other.
fn gives_back_and_is_known(
    state: &mut NodeState,
    alloc: Global,
    setting: &Setting<'_>,
    c: ConnId,
) -> Result<([Told; 4], [Told; 4]), NoMemory>
    requires sound { IsNodeSound state.old }
    requires stream { setting.now.stream ≤ MAX_STREAM_BYTES }
{
    let back = gives_back(state, alloc, setting, c)?;
    let known = is_known(state, alloc, setting, c)?;
    Ok((back, known))
}

/// What a node says that leaves, with ample memory: first of a connection that is new, then of one that it has.
fn refused(alloc: Global, n: NodeId, c: ConnId) -> Result<[Told; 4], NoMemory> {
    let files = files(alloc)?;
    let setting = Setting {
        n,
        files: &files,
        stream: 1000,
    };
    let mut state = begin(alloc, 100)?;
    let told = refuses(&mut state, alloc, &setting, c);
    finish(state);
    told
}

fn given_back(alloc: Global, n: NodeId, c: ConnId) -> Result<([Told; 4], [Told; 4]), NoMemory> {
    let files = files(alloc)?;
    let setting = Setting {
        n,
        files: &files,
        stream: 1000,
    };
    let mut state = begin(alloc, 100)?;
    let told = gives_back_and_is_known(&mut state, alloc, &setting, c);
    finish(state);
    told
}

#[test]
fn a_node_that_leaves_refuses(rt: HostRuntime) {
    let n = NodeId::new(2).expect(&rt, "the number of a node");
    let c = ConnId::new(1).expect(&rt, "the number of a connection");
    let told = [(0, 1, 0, 0), (0, 1, 0, 0), (0, 0, 0, 0), (0, 0, 0, 0)];
    assert_eq!(rt; refused(rt.alloc(), n, c), Ok(told));
}

#[test]
fn a_node_that_leaves_gives_back(rt: HostRuntime) {
    let n = NodeId::new(2).expect(&rt, "the number of a node");
    let c = ConnId::new(1).expect(&rt, "the number of a connection");
    let back = [(2, 1, 1, 0), (2, 0, 1, 1), (0, 1, 0, 2), (0, 1, 0, 0)];
    let known = [(0, 0, 0, 0), (0, 0, 0, 1), (0, 0, 0, 0), (0, 1, 0, 0)];
    assert_eq!(rt; given_back(rt.alloc(), n, c), Ok((back, known)));
}
