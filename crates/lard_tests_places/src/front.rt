//! Two connections through every rule of a front end with room for one, with ample memory, a node that is closed, and
//! connections that come back.

ghost use Rattle.std.specs.Prelude.{◌≡◌, ◌≤◌, length, IfOk, Ok, OnOk};
ghost use Rattle.lard_base.specs.Config.{config_check};
ghost use Rattle.lard_base.specs.declared.limits.TheConstants.{MAX_SEGMENT_BYTES, MAX_STREAM_BYTES};
ghost use Rattle.lard_dispatch.specs.Sound.{AreBefore};
ghost use Rattle.lard_rules.specs.FrontSound.{IsFrontSound, MayClose, MayCloseOn};
ghost use Rattle.lard_message.specs.Reading.{decoded_message};
ghost use Rattle.lard_front.specs.Bounds.{IsShort};

use lard_base::limits::MAX_SEGMENT_BYTES;
use lard_base::{Bytes, Config, ConnId, Millis, NoMemory, NodeId};
use lard_files::Files;
use lard_front::place::{begin, finish};
use lard_front::step::{Setting, step};
use lard_message::{Body, Message, MsgFault, decode};
use lard_rules::{FrontIn, FrontState, Out};
use lard_seq::Seq;
use std::alloc::Global;

/// What comes: a segment or the timer of the first or the second client, a message of the node, or that the node is closed.
#[derive(Clone, Copy)]
enum Input {
    Segment(Client, &'static [u8]),
    Message(&'static [u8]),
    Timer(Client),
    Drain,
}

#[derive(Clone, Copy)]
enum Client {
    First,
    Second,
}

/// Those who speak with the front end.
#[derive(Clone, Copy)]
struct Others {
    first: ConnId,
    second: ConnId,
    node: NodeId,
}

/// How many notes, segments, records of connections given up, messages and records of timers.
type Told = (usize, usize, usize, usize, usize);

const SYN_1: &[u8] =
    b"\x9c@\x00P\x00\x00\x03\xe8\x00\x00\x00\x00`\x02\xff\xff\xe3\xab\x00\x00\x02\x04\x05\xb4";

const GET_1: &[u8] =
    b"\x9c@\x00P\x00\x00\x03\xe9\x00\x00\x13\x89P\x18\xff\xff\r\xd5\x00\x00GET /x HTTP/1.1\r\nHost: lard\r\n\r\n";

const SYN_2: &[u8] =
    b"\x9c@\x00P\x00\x00\x03\xe8\x00\x00\x00\x00`\x02\xff\xff\xe3\xaa\x00\x00\x02\x04\x05\xb4";

const GET_2: &[u8] =
    b"\x9c@\x00P\x00\x00\x03\xe9\x00\x00\x13\x89P\x18\xff\xff\r\xd4\x00\x00GET /x HTTP/1.1\r\nHost: lard\r\n\r\n";

const ACK: &[u8] = b"\x9c@\x00P\x00\x00\x04\x08\x00\x00\x13\x89P\x10\xff\xff\xe7\xb0\x00\x00";

const TAKEN: &[u8] = b"\x01\x02\x00\x01\x00\x02\x00\x00\x00\x00";

const ASK: &[u8] =
    b"\x01\x05\x00\x01\x00\x02\x00\x00\x00\x0e\x00\x00\x00\x01\x00\x00\x00\x00\x01\x01\x00\x02/x";

const ENDED: &[u8] =
    b"\x01\x09\x00\x01\x00\x02\x00\x00\x00\r\x00\x00\x00\x13\xbd\x00\x00\x04\x08\x00\x00\x00\x00";

const INPUTS: &[(Input, Told)] = &[
    (Input::Timer(Client::First), (0, 0, 0, 0, 0)),
    (Input::Segment(Client::First, SYN_1), (1, 1, 0, 0, 1)),
    (
        Input::Segment(Client::First, b"no segment"),
        (0, 0, 0, 0, 0),
    ),
    (Input::Segment(Client::First, GET_1), (2, 0, 1, 1, 2)),
    (Input::Timer(Client::First), (0, 0, 0, 1, 0)),
    (Input::Message(b"no message"), (0, 0, 0, 0, 0)),
    (Input::Message(TAKEN), (0, 0, 0, 0, 1)),
    (Input::Segment(Client::Second, SYN_2), (1, 1, 0, 0, 1)),
    (Input::Segment(Client::Second, GET_2), (1, 1, 0, 0, 1)),
    (Input::Message(ASK), (1, 0, 0, 1, 0)),
    (Input::Message(ASK), (0, 0, 0, 1, 0)),
    (Input::Segment(Client::First, ACK), (0, 0, 0, 1, 0)),
    (Input::Message(ENDED), (4, 0, 1, 2, 1)),
    (Input::Message(ENDED), (0, 0, 0, 1, 0)),
    (Input::Segment(Client::First, SYN_1), (0, 1, 0, 0, 0)),
];

/// A node is closed once; a connection that comes then goes to the other one.
const DRAINED: &[(Input, Told)] = &[
    (Input::Drain, (1, 0, 0, 0, 0)),
    (Input::Drain, (0, 0, 0, 0, 0)),
    (Input::Segment(Client::First, SYN_1), (1, 1, 0, 0, 1)),
    (Input::Segment(Client::First, GET_1), (2, 0, 1, 1, 2)),
    (Input::Message(TAKEN), (0, 0, 0, 0, 1)),
    (Input::Message(ASK), (0, 0, 0, 0, 0)),
];

const REFUSED: &[u8] = b"\x02\x03\x00\x01\x00\x02\x00\x00\x00\x00";

const GIVE: &[u8] =
    b"\x02\x0b\x00\x01\x00\x02\x00\x00\x00#\x00\x00\x03\xe8\x00\x00\x13\x88\x00\x00\x00\x1f\x00\x00\x00\x00,\xff\xff\x00\x00\x04\x08\x00\x00\x13\xb4\x05\xb4\x00\x00\x00\x01\x00\x00";

/// A node that refuses a connection is closed, and the connection goes to the other one in the same step.
const TURNED_AWAY: &[(Input, Told)] = &[
    (Input::Segment(Client::First, SYN_1), (1, 1, 0, 0, 1)),
    (Input::Segment(Client::First, GET_1), (2, 0, 1, 1, 2)),
    (Input::Message(REFUSED), (5, 0, 1, 1, 0)),
    (Input::Message(REFUSED), (0, 0, 0, 0, 0)),
];

/// One that gives it back is closed and answered, each time, and the client is told what is owed.
const GIVEN_BACK: &[(Input, Told)] = &[
    (Input::Segment(Client::First, SYN_1), (1, 1, 0, 0, 1)),
    (Input::Segment(Client::First, GET_1), (2, 0, 1, 1, 2)),
    (Input::Message(TAKEN), (0, 0, 0, 0, 1)),
    (Input::Message(GIVE), (3, 1, 0, 1, 0)),
    (Input::Message(GIVE), (0, 0, 0, 1, 0)),
];

fn number_of(others: &Others, client: Client) -> ConnId {
    match client {
        Client::First => others.first,
        Client::Second => others.second,
    }
}

/// The bytes of a segment, where they fit a packet.
fn make_bytes(alloc: Global, bytes: &[u8]) -> Result<Bytes, NoMemory>
    ensures { IfOk result (λ copy. length copy ≤ MAX_SEGMENT_BYTES) }
{
    if bytes.len() > MAX_SEGMENT_BYTES {
        return Err(NoMemory);
    }
    Ok(Bytes::from_slice(alloc, bytes)?)
}

/// Nothing where another node is open, or where what the node says does not close it.
fn check_message(
    state: &FrontState,
    alloc: Global,
    from: NodeId,
    bytes: &[u8],
) -> Result<(), NoMemory>
    ensures { OnOk result (MayCloseOn state.now from (decoded_message bytes.now)) }
{
    if state.dispatch.loads().has_other_open(from) {
        return Ok(());
    }
    match decode(alloc, bytes) {
        Ok(
            Message {
                body: Body::Refused,
                ..
            },
        ) => return Err(NoMemory),
        Ok(
            Message {
                body: Body::Give(_),
                ..
            },
        ) => return Err(NoMemory),
        Ok(_) => return Ok(()),
        Err(MsgFault::NoMemory) => return Err(NoMemory),
        Err(_) => return Ok(()),
    }
}

/// What comes to the front end, where it may: the node is closed while another one is open.
fn make_input(
    state: &FrontState,
    alloc: Global,
    others: &Others,
    input: Input,
) -> Result<FrontIn, NoMemory>
    ensures short { IfOk result IsShort }
    ensures closes { IfOk result (MayClose state.now) }
{
    match input {
        Input::Segment(client, bytes) => {
            let c = number_of(others, client);
            let (iss, bytes) = (Seq(5000), make_bytes(alloc, bytes)?);
            return Ok(FrontIn::Segment { c, iss, bytes });
        }
        Input::Message(bytes) => {
            let from = others.node;
            check_message(state, alloc, from, bytes)?;
            let bytes = Bytes::from_slice(alloc, bytes)?;
            return Ok(FrontIn::Message { from, bytes });
        }
        Input::Timer(client) => return Ok(FrontIn::Timer(number_of(others, client))),
        Input::Drain => {
            if !state.dispatch.loads().has_other_open(others.node) {
                return Err(NoMemory);
            }
            return Ok(FrontIn::Drain(others.node));
        }
    }
}

fn told(out: &Out) -> Told {
    (
        out.notes.len(),
        out.segments.len(),
        out.gave.len(),
        out.messages.len(),
        out.timers.len(),
    )
}

/// What the front end does with an input.
fn does(
    state: &mut FrontState,
    alloc: Global,
    setting: &Setting<'_>,
    others: &Others,
    input: Input,
) -> Result<Told, NoMemory>
    requires sound { IsFrontSound state.old }
    requires clock { AreBefore setting.now.now.0 state.old.dispatch.books.sets }
    requires stream { setting.now.stream ≤ MAX_STREAM_BYTES }
    ensures sound { OnOk result (IsFrontSound state.new) }
    ensures clock { OnOk result (AreBefore setting.entry.now.now.0 state.new.dispatch.books.sets) }
{
    let input = make_input(state, alloc, others, input)?;
    let out = step(state, alloc, setting, input)?;
    Ok(told(&out))
}

/// The place of the first of these inputs, one after another, that comes to something else than stands beside it.
fn first_wrong(
    state: &mut FrontState,
    alloc: Global,
    setting: &Setting<'_>,
    others: &Others,
    inputs: &[(Input, Told)],
) -> Result<Option<usize>, NoMemory>
    requires sound { IsFrontSound state.old }
    requires clock { AreBefore setting.now.now.0 state.old.dispatch.books.sets }
    requires stream { setting.now.stream ≤ MAX_STREAM_BYTES }
{
    'inputs: for (at, (input, wanted)) in inputs.iter().enumerate() {
        if does(state, alloc, setting, others, *input)? != *wanted {
            return Ok(Some(at));
        }
    }
    Ok(None)
}

/// So many nodes; where there is one, there is room for one connection.
fn config(nodes: u8) -> Result<Config, NoMemory>
    ensures { IfOk result (λ config. config_check config ≡ Ok tt) }
{
    let config = Config {
        nodes,
        low: 2,
        ..Config::standard()
    };
    if config.check().is_err() {
        return Err(NoMemory);
    }
    Ok(config)
}

/// One file.
fn files(alloc: Global) -> Result<Files, NoMemory> {
    let mut files = Files::new(alloc);
    if files.add(b"/x", b"a file").is_err() {
        return Err(NoMemory);
    }
    Ok(files)
}

/// The place of the first of these inputs to a front end of so many nodes that comes to something else.
fn run(
    alloc: Global,
    others: &Others,
    nodes: u8,
    inputs: &[(Input, Told)],
) -> Result<Option<usize>, NoMemory> {
    let files = files(alloc)?;
    let setting = Setting {
        files: &files,
        stream: 1 << 20,
        now: Millis(0),
    };
    let mut state = begin(alloc, config(nodes)?)?;
    let wrong = first_wrong(&mut state, alloc, &setting, others, inputs);
    finish(state);
    wrong
}

fn make_others() -> Option<Others> {
    Some(Others {
        first: ConnId::new(1)?,
        second: ConnId::new(2)?,
        node: NodeId::new(1)?,
    })
}

#[test]
fn two_connections(rt: HostRuntime) {
    let others = make_others().expect(&rt, "numbers in range");
    assert_eq!(rt; run(rt.alloc(), &others, 1, INPUTS), Ok(None));
}

#[test]
fn a_node_is_closed(rt: HostRuntime) {
    let others = make_others().expect(&rt, "numbers in range");
    assert_eq!(rt; run(rt.alloc(), &others, 2, DRAINED), Ok(None));
}

#[test]
fn a_node_refuses(rt: HostRuntime) {
    let others = make_others().expect(&rt, "numbers in range");
    assert_eq!(rt; run(rt.alloc(), &others, 2, TURNED_AWAY), Ok(None));
}

#[test]
fn a_node_gives_back(rt: HostRuntime) {
    let others = make_others().expect(&rt, "numbers in range");
    assert_eq!(rt; run(rt.alloc(), &others, 2, GIVEN_BACK), Ok(None));
}
