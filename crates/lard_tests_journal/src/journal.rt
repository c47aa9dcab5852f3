//! Each kind of record beside its line, and each public function once.

use crate::compare::same_bytes;
use lard_base::{
    Bytes, Config, ConnId, Epoch, Event, Items, Millis, NoMemory, NodeId, Path, Place, TimerKind,
    Via,
};
use lard_journal::{
    Journal, Rec, file_line, heading, line, push_line, report_grows, report_tells_all,
};
use lard_shared::Shared;
use std::alloc::Global;
use std::process::Abort;
use std::test::Fail;

fn conn(rt: &impl Abort, number: u32) -> ConnId {
    ConnId::new(number).expect(rt, "the number of a connection")
}

fn node(rt: &impl Abort, number: u32) -> NodeId {
    NodeId::new(number).expect(rt, "the number of a node")
}

fn bytes(rt: &impl Abort, alloc: Global, text: &[u8]) -> Bytes {
    Bytes::from_slice(alloc, text).ok().expect(rt, "memory")
}

fn shared(rt: &impl Abort, alloc: Global, text: &[u8]) -> Shared {
    Shared::from_slice(alloc, text).ok().expect(rt, "memory")
}

fn path(rt: &impl Abort, alloc: Global, text: &[u8]) -> Path {
    Path::from_slice(alloc, text).ok().expect(rt, "memory")
}

/// Ends the test where the record's line is another.
fn reads(rt: &impl Abort, alloc: Global, rec: Rec, want: &str) {
    let told = line(alloc, &rec).ok().expect(rt, "memory");
    same_bytes(rt, told.as_slice(), want.as_bytes());
}

/// Ends the test where the line of an inner step is another.
fn inner(rt: &impl Abort, alloc: Global, event: Event, want: &str) {
    reads(rt, alloc, Rec::Inner(event), want);
}

#[test]
fn records_of_events(rt: HostRuntime) {
    let (one, place) = (conn(&rt, 1), Place::Node(node(&rt, 64)));
    clients_act(&rt, rt.alloc(), one);
    inner(
        &rt,
        rt.alloc(),
        Event::Deliver(4_294_967_295),
        "inner deliver 4294967295\n",
    );
    inner(&rt, rt.alloc(), Event::Lose(0), "inner lose 0\n");
    let timer = Event::Timer { place, c: one };
    inner(&rt, rt.alloc(), timer, "inner timer n64 1\n");
    inner(
        &rt,
        rt.alloc(),
        Event::Disk { n: 1, j: 8 },
        "inner disk 1 8\n",
    );
    inner(&rt, rt.alloc(), Event::Drain(2), "inner drain 2\n");
    inner(&rt, rt.alloc(), Event::Clock(20_001), "inner clock 20001\n");
    inner(&rt, rt.alloc(), Event::Settle(3000), "inner settle 3000\n");
}

fn clients_act(rt: &impl Abort, alloc: Global, c: ConnId) {
    let open = Event::Open {
        c,
        isn: 1000,
        iss: 5000,
        wnd: 65535,
        mss: 1460,
    };
    inner(rt, alloc, open, "inner open 1 1000 5000 65535 1460\n");
    inner(rt, alloc, Event::Shut(c), "inner shut 1\n");
    inner(rt, alloc, Event::Abort(c), "inner abort 1\n");
    inner(rt, alloc, Event::Hold(c), "inner hold 1\n");
    inner(rt, alloc, Event::Take(c), "inner take 1\n");
}

#[test]
fn records_of_connections(rt: HostRuntime) {
    let (one, two) = (conn(&rt, 1), conn(&rt, 2));
    let (first, second) = (Place::Client(one), Place::Node(node(&rt, 2)));
    let front = Place::Front;
    connections_go_on(&rt, rt.alloc(), one, two);
    owners_change(&rt, rt.alloc(), one, &second);
    timers_run(&rt, rt.alloc(), &first, one, TimerKind::Tcp, "c1 1 tcp");
    timers_run(
        &rt,
        rt.alloc(),
        &front,
        one,
        TimerKind::Offer,
        "front 1 offer",
    );
    timers_run(&rt, rt.alloc(), &second, two, TimerKind::Ask, "n2 2 ask");
    timers_run(
        &rt,
        rt.alloc(),
        &second,
        two,
        TimerKind::Fetch,
        "n2 2 fetch",
    );
    timers_run(
        &rt,
        rt.alloc(),
        &second,
        two,
        TimerKind::Ended,
        "n2 2 ended",
    );
    timers_run(&rt, rt.alloc(), &second, two, TimerKind::Give, "n2 2 give");
    connections_are_reset(&rt, rt.alloc(), two, &second);
    packets_and_settles(&rt, rt.alloc());
}

fn connections_go_on(rt: &impl Abort, alloc: Global, one: ConnId, two: ConnId) {
    let event = Event::Shut(one);
    reads(rt, alloc, Rec::Event { i: 12, event }, "event 12 shut 1\n");
    let opened = Rec::Opened {
        c: two,
        isn: 1000,
        iss: 5000,
        wnd: 65535,
        mss: 1460,
    };
    reads(rt, alloc, opened, "opened 2 1000 5000 65535 1460\n");
    reads(rt, alloc, Rec::Eof(one), "eof 1\n");
    reads(rt, alloc, Rec::Waits(two), "waits 2\n");
    reads(rt, alloc, Rec::Admitted(two), "admitted 2\n");
    reads(rt, alloc, Rec::Released(two), "released 2\n");
    reads(rt, alloc, Rec::BatchOver(two), "batchover 2\n");
}

fn owners_change(rt: &impl Abort, alloc: Global, c: ConnId, place: &Place) {
    let took = Rec::Took {
        place: Place::Front,
        c,
        epoch: Epoch(3),
    };
    reads(rt, alloc, took, "took front 1 3\n");
    let gave = Rec::Gave {
        place: *place,
        c,
        epoch: Epoch(2),
    };
    reads(rt, alloc, gave, "gave n2 1 2\n");
}

/// A timer is armed, and cleared.
fn timers_run(
    rt: &impl Abort,
    alloc: Global,
    place: &Place,
    c: ConnId,
    kind: TimerKind,
    words: &str,
) {
    let armed = format!(in alloc; "armed {words}\n")
        .ok()
        .expect(rt, "memory");
    let rec = Rec::Armed {
        place: *place,
        c,
        kind,
    };
    reads(rt, alloc, rec, armed.as_str());
    let cleared = format!(in alloc; "cleared {words}\n")
        .ok()
        .expect(rt, "memory");
    let rec = Rec::Cleared {
        place: *place,
        c,
        kind,
    };
    reads(rt, alloc, rec, cleared.as_str());
}

fn connections_are_reset(rt: &impl Abort, alloc: Global, c: ConnId, place: &Place) {
    let count = 201;
    let reset = Rec::Reset {
        place: *place,
        c,
        count,
    };
    reads(rt, alloc, reset, "reset n2 2 201\n");
    reads(rt, alloc, Rec::Aborted(c), "aborted 2\n");
    reads(rt, alloc, Rec::Injected(c), "injected 2\n");
}

fn packets_and_settles(rt: &impl Abort, alloc: Global) {
    reads(rt, alloc, Rec::Got(9), "got 9\n");
    reads(rt, alloc, Rec::Lost(40), "lost 40\n");
    let latest = Millis(18_446_744_073_709_551_615);
    reads(
        rt,
        alloc,
        Rec::Clock(latest),
        "clock 18446744073709551615\n",
    );
    reads(rt, alloc, Rec::Settled(4), "settled 4\n");
    let unsettled = Rec::Unsettled {
        rounds: 10,
        left: 3,
    };
    reads(rt, alloc, unsettled, "unsettled 10 3\n");
}

#[test]
fn records_of_bytes(rt: HostRuntime) {
    let (one, last) = (conn(&rt, 1), conn(&rt, 16_384));
    let wrote = Rec::Wrote {
        c: last,
        bytes: bytes(&rt, rt.alloc(), b"GET \xff\x00\n"),
    };
    reads(&rt, rt.alloc(), wrote, "wrote 16384 47455420ff000a\n");
    let sent = Rec::Sent {
        k: 9,
        from: Place::Front,
        to: Place::Node(node(&rt, 2)),
        bytes: shared(&rt, rt.alloc(), &[1, 10, 0, 255]),
    };
    reads(&rt, rt.alloc(), sent, "sent 9 front n2 010a00ff\n");
    let accepted = Rec::Accepted {
        c: one,
        bytes: shared(&rt, rt.alloc(), b"HTTP/1.1"),
    };
    reads(&rt, rt.alloc(), accepted, "accepted 1 485454502f312e31\n");
    clients_send(&rt, rt.alloc(), one);
}

fn clients_send(rt: &impl Abort, alloc: Global, c: ConnId) {
    let get = Event::Get {
        c,
        path: path(rt, alloc, b"/x?y"),
    };
    inner(rt, alloc, get, "inner get 1 /x?y\n");
    let write = Event::Write {
        c,
        bytes: bytes(rt, alloc, b"a"),
    };
    inner(rt, alloc, write, "inner write 1 61\n");
    let inject = Event::Inject {
        c,
        bytes: bytes(rt, alloc, &[0x9c, 0x40]),
    };
    inner(rt, alloc, inject, "inner inject 1 9c40\n");
}

#[test]
fn records_of_choices(rt: HostRuntime) {
    let (c, one, two) = (conn(&rt, 3), node(&rt, 1), node(&rt, 2));
    chosen_first(&rt, rt.alloc(), c, one, two);
    chosen_later(&rt, rt.alloc(), c, one, two);
    reads(&rt, rt.alloc(), Rec::Closed(two), "closed n2\n");
}

fn chosen_first(rt: &impl Abort, alloc: Global, c: ConnId, one: NodeId, two: NodeId) {
    let joins = Rec::AssignedFirst {
        c,
        r: 1,
        path: path(rt, alloc, b"/a"),
        n: one,
        add: Some(one),
        remove: None,
    };
    reads(rt, alloc, joins, "assigned 3 1 first /a 1 1 -\n");
    let leaves = Rec::AssignedFirst {
        c,
        r: 1,
        path: path(rt, alloc, b"/a"),
        n: one,
        add: None,
        remove: Some(two),
    };
    reads(rt, alloc, leaves, "assigned 3 1 first /a 1 - 2\n");
}

fn chosen_later(rt: &impl Abort, alloc: Global, c: ConnId, one: NodeId, two: NodeId) {
    let stays = Rec::AssignedLater {
        c,
        r: 2,
        path: path(rt, alloc, b"/b"),
        n: two,
        add: None,
        size: 2,
        queue: 5,
    };
    reads(rt, alloc, stays, "assigned 3 2 later /b 2 - 2 5\n");
    let joins = Rec::AssignedLater {
        c,
        r: 8,
        path: path(rt, alloc, b"/h"),
        n: one,
        add: Some(one),
        size: 8,
        queue: 1,
    };
    reads(rt, alloc, joins, "assigned 3 8 later /h 1 1 8 1\n");
}

/// A response to a request of connection 3, of which the code is 200 where it has content.
fn served(c: ConnId, place: &Place, r: u32, length: u32, via: Via) -> Rec {
    let code = if via == Via::Own { 404 } else { 200 };
    Rec::Served {
        place: *place,
        c,
        r,
        code,
        length,
        via,
    }
}

#[test]
fn records_of_requests(rt: HostRuntime) {
    let (c, one, two) = (conn(&rt, 3), node(&rt, 1), node(&rt, 2));
    let (front, place) = (Place::Front, Place::Node(one));
    let own = served(c, &front, 1, 45, Via::Own);
    reads(&rt, rt.alloc(), own, "served front 3 1 404 45 own\n");
    let cached = served(c, &place, 1, 39, Via::Cache);
    reads(&rt, rt.alloc(), cached, "served n1 3 1 200 39 cache\n");
    let read = served(c, &place, 1, 43, Via::Disk);
    reads(&rt, rt.alloc(), read, "served n1 3 1 200 43 disk\n");
    let fetched = served(c, &place, 2, 39, Via::Node(two));
    reads(&rt, rt.alloc(), fetched, "served n1 3 2 200 39 node2\n");
    contents_are_read(&rt, rt.alloc(), c, one, two);
}

fn contents_are_read(rt: &impl Abort, alloc: Global, c: ConnId, one: NodeId, two: NodeId) {
    let hit = Rec::Hit {
        n: two,
        path: path(rt, alloc, b"/b"),
    };
    reads(rt, alloc, hit, "hit n2 /b\n");
    let queued = Rec::Queued {
        n: two,
        m: one,
        c,
        r: 2,
        path: path(rt, alloc, b"/b"),
    };
    reads(rt, alloc, queued, "queued n2 n1 3 2 /b\n");
    let read = Rec::Read {
        n: two,
        m: one,
        c,
        r: 2,
        path: path(rt, alloc, b"/b"),
    };
    reads(rt, alloc, read, "read n2 n1 3 2 /b\n");
}

#[test]
fn report_of_a_journal(rt: HostRuntime) -> Result<(), Fail> {
    let journal = two_records(rt.alloc(), conn(&rt, 1))?;
    assert!(rt; matches!(journal.get(0), Some(Rec::Got(1))));
    assert!(rt; matches!(journal.get(1), Some(Rec::Eof(_))));
    assert!(rt; journal.len() == 2 && journal.get(2).is_none());
    let text = report(rt.alloc(), &journal)?;
    let want =
        "report 1 nodes 2 low 25 high 65 age 20000 idle 25 over 130 miss 50 cache 1048576 stream 1073741824\nfile /a 5\ngot 1\neof 1\n";
    same_bytes(&rt, text.as_slice(), want.as_bytes());
    report_grows();
    report_tells_all();
    Ok(())
}

fn two_records(alloc: Global, c: ConnId) -> Result<Journal, NoMemory> {
    let mut recs = Items::new(alloc);
    recs.push(Rec::Got(1))?;
    recs.push(Rec::Eof(c))?;
    let mut journal = Journal::new(alloc);
    journal.append(recs)?;
    Ok(journal)
}

/// A report over one file.
fn report(alloc: Global, journal: &Journal) -> Result<Vec<u8>, NoMemory> {
    let config = Config {
        nodes: 2,
        low: 25,
        high: 65,
        age: 20_000,
        idle: 25,
        over: 130,
        miss: 50,
        cache: 1_048_576,
        stream: 1_073_741_824,
    };
    let mut text = Vec::from_slice(alloc, heading(alloc, &config)?.as_slice())?;
    text.extend_from_slice(file_line(alloc, b"/a", 5)?.as_slice())?;
    push_lines(&mut text, journal)?;
    Ok(text)
}

fn push_lines(text: &mut Vec<u8>, journal: &Journal) -> Result<(), NoMemory> {
    for rec in journal.as_slice() {
        push_line(text, rec)?;
    }
    Ok(())
}

#[test]
fn an_event_becomes_an_inner_step(rt: HostRuntime) -> Result<(), Fail> {
    let journal = turned(rt.alloc())?;
    let mut text = Vec::new(rt.alloc());
    push_lines(&mut text, &journal)?;
    same_bytes(&rt, text.as_slice(), b"got 1\ninner deliver 2\ngot 2\n");
    Ok(())
}

/// Three records, of which the second and the third are to be inner steps.
fn turned(alloc: Global) -> Result<Journal, NoMemory> {
    let mut recs = Items::new(alloc);
    recs.push(Rec::Got(1))?;
    let event = Event::Deliver(2);
    recs.push(Rec::Event { i: 3, event })?;
    recs.push(Rec::Got(2))?;
    let mut journal = Journal::new(alloc);
    journal.append(recs)?;
    journal.turn_inner(1);
    journal.turn_inner(2);
    Ok(journal)
}
