//! The words of a record, and its line.

ghost use Rattle.std.specs.Prelude.{◌≡◌, ◌++◌, [], ◌∷◌, IfOk, OnOk, OnErr, codes, decimal};
ghost use Rattle.hex.specs.Hex.{encode_lower};
ghost use Rattle.std.specs.List.{fold};
ghost use Rattle.lard_base.specs.Spelling.{spaced, place_word, event_words};
ghost use Rattle.lard_journal.specs.Report.{node_word, choice_word, via_word, kind_word, rec_words, rec_line};
ghost use Rattle.lard_journal.specs.Text.{with_words, BeginsWith};

use crate::event::{event, offered};
use crate::rec::Rec;
use crate::text::{bytes, choice, connection, hex, kind, node, number, path, place, via, word};
use itoa::Integer;
use lard_base::{Bytes, ConnId, Epoch, Event, NoMemory, NodeId, Path, Place, TimerKind, Via};
use std::alloc::Global;

/// The line of a record, with its line feed. `NoMemory` where memory runs out.
pub fn line(alloc: Global, rec: &Rec) -> Result<Bytes, NoMemory>
    ensures { IfOk result (λ text. text ≡ rec_line rec.now) }
{
    let mut text = Vec::new(alloc);
    push_line(&mut text, rec)?;
    Ok(Bytes::from_vec(text))
}

/// Appends the line of a record, with its line feed. Without memory the text is as it was.
pub fn push_line(text: &mut Vec<u8>, rec: &Rec) -> Result<(), NoMemory>
    ensures ok { OnOk result (text.new.items ≡ text.old.items ++ rec_line rec.now) }
    ensures err { OnErr result (text.new.items ≡ text.old.items) }
{
    let start = text.len();
    match whole(text, rec) {
        Ok(()) => Ok(()),
        Err(fault) => {
            text.truncate(start);
            Err(fault)
        }
    }
}

/// The line of a record. Without memory a part of it stands behind the text.
#[tactic(auto, using(crate::proofs::Words::line_behind, crate::proofs::Begins::begins_words))]
fn whole(out: &mut Vec<u8>, rec: &Rec) -> Result<(), NoMemory>
    ensures ok { OnOk result (out.new.items ≡ out.old.items ++ rec_line rec.now) }
    ensures err { OnErr result (BeginsWith out.old.items out.new.items) }
{
    words(out, rec)?;
    bytes(out, b"\n")
}

/// The words of a record's line.
fn words(out: &mut Vec<u8>, rec: &Rec) -> Result<(), NoMemory>
    ensures ok { OnOk result (out.new.items ≡ with_words out.old.items (rec_words rec.now)) }
    ensures err { OnErr result (BeginsWith out.old.items out.new.items) }
{
    match rec {
        Rec::Event { i, event } => numbered(out, *i, event),
        Rec::Inner(event) => inner(out, event),
        Rec::Opened {
            c,
            isn,
            iss,
            wnd,
            mss,
        } => opened(out, *c, *isn, *iss, *wnd, *mss),
        Rec::Wrote { c, bytes } => of_bytes(out, b"wrote", *c, bytes.as_slice()),
        Rec::Sent { k, from, to, bytes } => sent(out, *k, *from, *to, bytes.as_slice()),
        Rec::Got(k) => of_number(out, b"got", *k),
        Rec::Lost(k) => of_number(out, b"lost", *k),
        Rec::Accepted { c, bytes } => of_bytes(out, b"accepted", *c, bytes.as_slice()),
        Rec::Eof(c) => of_connection(out, b"eof", *c),
        Rec::Took { place, c, epoch } => of_owner(out, b"took", *place, *c, *epoch),
        Rec::Gave { place, c, epoch } => of_owner(out, b"gave", *place, *c, *epoch),
        Rec::Waits(c) => of_connection(out, b"waits", *c),
        Rec::Admitted(c) => of_connection(out, b"admitted", *c),
        Rec::Released(c) => of_connection(out, b"released", *c),
        Rec::AssignedFirst {
            c,
            r,
            path,
            n,
            add,
            remove,
        } => {
            assigned(out, *c, *r, b"first", path, *n, *add)?;
            choice(out, *remove)
        }
        Rec::AssignedLater {
            c,
            r,
            path,
            n,
            add,
            size,
            queue,
        } => {
            assigned(out, *c, *r, b"later", path, *n, *add)?;
            batch(out, *size, *queue)
        }
        Rec::BatchOver(c) => of_connection(out, b"batchover", *c),
        Rec::Served {
            place,
            c,
            r,
            code,
            length,
            via,
        } => served(out, *place, *c, *r, *code, *length, *via),
        Rec::Hit { n, path } => hit(out, *n, path),
        Rec::Queued { n, m, c, r, path } => of_job(out, b"queued", *n, *m, *c, *r, path),
        Rec::Read { n, m, c, r, path } => of_job(out, b"read", *n, *m, *c, *r, path),
        Rec::Closed(n) => closed(out, *n),
        Rec::Armed { place, c, kind } => of_timer(out, b"armed", *place, *c, *kind),
        Rec::Cleared { place, c, kind } => of_timer(out, b"cleared", *place, *c, *kind),
        Rec::Reset { place, c, count } => reset(out, *place, *c, *count),
        Rec::Aborted(c) => of_connection(out, b"aborted", *c),
        Rec::Injected(c) => of_connection(out, b"injected", *c),
        Rec::Clock(time) => of_number(out, b"clock", time.0),
        Rec::Settled(rounds) => of_number(out, b"settled", *rounds),
        Rec::Unsettled { rounds, left } => unsettled(out, *rounds, *left),
    }
}

/// An event of the schedule.
fn numbered(out: &mut Vec<u8>, i: u64, line: &Event) -> Result<(), NoMemory>
    ensures ok { OnOk result (out.new.items ≡ with_words out.old.items
        (codes "event" ∷ decimal i ∷ event_words line.now)) }
    ensures err { OnErr result (BeginsWith out.old.items out.new.items) }
{
    bytes(out, b"event")?;
    number(out, i)?;
    event(out, line)
}

/// An inner step.
fn inner(out: &mut Vec<u8>, line: &Event) -> Result<(), NoMemory>
    ensures ok { OnOk result (out.new.items ≡ with_words out.old.items
        (codes "inner" ∷ event_words line.now)) }
    ensures err { OnErr result (BeginsWith out.old.items out.new.items) }
{
    bytes(out, b"inner")?;
    event(out, line)
}

/// A client that opens.
fn opened(
    out: &mut Vec<u8>,
    c: ConnId,
    isn: u32,
    iss: u32,
    wnd: u32,
    mss: u32,
) -> Result<(), NoMemory>
    ensures ok { OnOk result (out.new.items ≡ with_words out.old.items
        (codes "opened" ∷ decimal c ∷ decimal isn ∷ decimal iss ∷ decimal wnd ∷ decimal mss ∷ [])) }
    ensures err { OnErr result (BeginsWith out.old.items out.new.items) }
{
    bytes(out, b"opened")?;
    offered(out, c, isn, iss, wnd, mss)
}

/// A packet on its way.
fn sent(out: &mut Vec<u8>, k: u32, from: Place, to: Place, packet: &[u8]) -> Result<(), NoMemory>
    ensures ok { OnOk result (out.new.items ≡ with_words out.old.items
        (codes "sent" ∷ decimal k ∷ place_word from ∷ place_word to ∷ encode_lower packet.now ∷ [])) }
    ensures err { OnErr result (BeginsWith out.old.items out.new.items) }
{
    bytes(out, b"sent")?;
    number(out, k)?;
    place(out, from)?;
    place(out, to)?;
    hex(out, packet)
}

/// What both kinds of assignments begin with.
fn assigned(
    out: &mut Vec<u8>,
    c: ConnId,
    r: u32,
    round: &[u8],
    target: &Path,
    n: NodeId,
    add: Option<NodeId>,
) -> Result<(), NoMemory>
    ensures ok { OnOk result (out.new.items ≡ with_words out.old.items
        (codes "assigned" ∷ decimal c ∷ decimal r ∷ round.now ∷ target.now ∷ decimal n ∷ choice_word add ∷ [])) }
    ensures err { OnErr result (BeginsWith out.old.items out.new.items) }
{
    bytes(out, b"assigned")?;
    connection(out, c)?;
    number(out, r)?;
    word(out, round)?;
    path(out, target)?;
    number(out, n.number())?;
    choice(out, add)
}

/// The size and the queue of a batch.
fn batch(out: &mut Vec<u8>, size: u32, queue: u32) -> Result<(), NoMemory>
    ensures ok { OnOk result (out.new.items ≡ fold spaced out.old.items
        (decimal size ∷ decimal queue ∷ [])) }
    ensures err { OnErr result (BeginsWith out.old.items out.new.items) }
{
    number(out, size)?;
    number(out, queue)
}

/// A response.
#[tactic(auto, using(crate::proofs::Begins::begins_less))]
fn served(
    out: &mut Vec<u8>,
    at: Place,
    c: ConnId,
    r: u32,
    code: u16,
    length: u32,
    source: Via,
) -> Result<(), NoMemory>
    ensures ok { OnOk result (out.new.items ≡ with_words out.old.items
        (codes "served" ∷ place_word at ∷ decimal c ∷ decimal r ∷ decimal code ∷ decimal length ∷ via_word source ∷ [])) }
    ensures err { OnErr result (BeginsWith out.old.items out.new.items) }
{
    at_place(out, b"served", at, c)?;
    number(out, r)?;
    number(out, code)?;
    number(out, length)?;
    via(out, source)
}

/// A path that a cache has.
fn hit(out: &mut Vec<u8>, n: NodeId, target: &Path) -> Result<(), NoMemory>
    ensures ok { OnOk result (out.new.items ≡ with_words out.old.items
        (codes "hit" ∷ node_word n ∷ target.now ∷ [])) }
    ensures err { OnErr result (BeginsWith out.old.items out.new.items) }
{
    bytes(out, b"hit")?;
    node(out, n)?;
    path(out, target)
}

/// A node that was closed.
fn closed(out: &mut Vec<u8>, n: NodeId) -> Result<(), NoMemory>
    ensures ok { OnOk result (out.new.items ≡ with_words out.old.items
        (codes "closed" ∷ node_word n ∷ [])) }
    ensures err { OnErr result (BeginsWith out.old.items out.new.items) }
{
    bytes(out, b"closed")?;
    node(out, n)
}

/// A reset at the stream limit.
fn reset(out: &mut Vec<u8>, at: Place, c: ConnId, count: u32) -> Result<(), NoMemory>
    ensures ok { OnOk result (out.new.items ≡ with_words out.old.items
        (codes "reset" ∷ place_word at ∷ decimal c ∷ decimal count ∷ [])) }
    ensures err { OnErr result (BeginsWith out.old.items out.new.items) }
{
    at_place(out, b"reset", at, c)?;
    number(out, count)
}

/// A settle that left something.
fn unsettled(out: &mut Vec<u8>, rounds: u32, left: u64) -> Result<(), NoMemory>
    ensures ok { OnOk result (out.new.items ≡ with_words out.old.items
        (codes "unsettled" ∷ decimal rounds ∷ decimal left ∷ [])) }
    ensures err { OnErr result (BeginsWith out.old.items out.new.items) }
{
    bytes(out, b"unsettled")?;
    number(out, rounds)?;
    number(out, left)
}

/// A record that has only its connection.
fn of_connection(out: &mut Vec<u8>, name: &[u8], c: ConnId) -> Result<(), NoMemory>
    ensures ok { OnOk result (out.new.items ≡ with_words out.old.items
        (name.now ∷ decimal c ∷ [])) }
    ensures err { OnErr result (BeginsWith out.old.items out.new.items) }
{
    bytes(out, name)?;
    connection(out, c)
}

/// A record that has only a number.
fn of_number<I: Integer>(out: &mut Vec<u8>, name: &[u8], n: I) -> Result<(), NoMemory>
    ensures ok { OnOk result (out.new.items ≡ with_words out.old.items (name.now ∷ I.text n ∷ [])) }
    ensures err { OnErr result (BeginsWith out.old.items out.new.items) }
{
    bytes(out, name)?;
    number(out, n)
}

/// Bytes that a client wrote or accepted.
fn of_bytes(out: &mut Vec<u8>, name: &[u8], c: ConnId, stream: &[u8]) -> Result<(), NoMemory>
    ensures ok { OnOk result (out.new.items ≡ with_words out.old.items
        (name.now ∷ decimal c ∷ encode_lower stream.now ∷ [])) }
    ensures err { OnErr result (BeginsWith out.old.items out.new.items) }
{
    bytes(out, name)?;
    connection(out, c)?;
    hex(out, stream)
}

/// A begin or an end of ownership.
fn of_owner(
    out: &mut Vec<u8>,
    name: &[u8],
    at: Place,
    c: ConnId,
    epoch: Epoch,
) -> Result<(), NoMemory>
    ensures ok { OnOk result (out.new.items ≡ with_words out.old.items
        (name.now ∷ place_word at ∷ decimal c ∷ decimal epoch.0 ∷ [])) }
    ensures err { OnErr result (BeginsWith out.old.items out.new.items) }
{
    at_place(out, name, at, c)?;
    number(out, epoch.0)
}

/// A disk job.
fn of_job(
    out: &mut Vec<u8>,
    name: &[u8],
    n: NodeId,
    m: NodeId,
    c: ConnId,
    r: u32,
    target: &Path,
) -> Result<(), NoMemory>
    ensures ok { OnOk result (out.new.items ≡ with_words out.old.items
        (name.now ∷ node_word n ∷ node_word m ∷ decimal c ∷ decimal r ∷ target.now ∷ [])) }
    ensures err { OnErr result (BeginsWith out.old.items out.new.items) }
{
    bytes(out, name)?;
    node(out, n)?;
    node(out, m)?;
    connection(out, c)?;
    number(out, r)?;
    path(out, target)
}

/// A timer.
fn of_timer(
    out: &mut Vec<u8>,
    name: &[u8],
    at: Place,
    c: ConnId,
    what: TimerKind,
) -> Result<(), NoMemory>
    ensures ok { OnOk result (out.new.items ≡ with_words out.old.items
        (name.now ∷ place_word at ∷ decimal c ∷ kind_word what ∷ [])) }
    ensures err { OnErr result (BeginsWith out.old.items out.new.items) }
{
    at_place(out, name, at, c)?;
    kind(out, what)
}

/// A record that begins with a place and a connection.
fn at_place(out: &mut Vec<u8>, name: &[u8], at: Place, c: ConnId) -> Result<(), NoMemory>
    ensures ok { OnOk result (out.new.items ≡ with_words out.old.items
        (name.now ∷ place_word at ∷ decimal c ∷ [])) }
    ensures err { OnErr result (BeginsWith out.old.items out.new.items) }
{
    bytes(out, name)?;
    place(out, at)?;
    connection(out, c)
}
