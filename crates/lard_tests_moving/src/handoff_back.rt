//! Each call once, with ample memory, along the stays of one connection.

use crate::compare::{same, same_bytes};
use lard_base::{Bytes, ConnId, EndpointParts, Epoch, NoMemory, Reason};
use lard_endpoint::Final;
use lard_handoff_back::{Adopt, BackTable};
use lard_segment::{Flags, Segment};
use lard_seq::Seq;
use std::alloc::Global;
use std::process::Abort;
use std::test::Fail;

/// A reset of the client, whose next byte is 1032.
const RESET: Segment<'static> = Segment {
    seq: Seq(1032),
    ack: Seq(5001),
    flags: Flags {
        syn: false,
        ack: true,
        fin: false,
        rst: true,
        psh: false,
    },
    wnd: 65535,
    mss: None,
    payload: b"",
};

/// What an endpoint goes on from once its SYN is acknowledged, with a request of 31 bytes unread.
fn parts(alloc: Global) -> Result<EndpointParts, NoMemory> {
    Ok(EndpointParts {
        irs: 1000,
        iss: 5000,
        got: 31,
        fin: false,
        una: 1,
        wnd: 65_535,
        wl1: 1001,
        wl2: 5001,
        mss: 1460,
        served: 0,
        unread: Bytes::from_slice(alloc, b"GET /a HTTP/1.1\r\nHost: lard\r\n\r\n")?,
    })
}

/// The last numbers of a connection whose request was read and that said nothing.
fn last(reason: Reason) -> Final {
    Final {
        reason,
        snd: Seq(5001),
        rcv: Seq(1032),
    }
}

/// What an Offer of these parts is to the table, where they are valid and there is memory for it.
fn offered(
    table: &mut BackTable,
    alloc: Global,
    c: &ConnId,
    epoch: Epoch,
    parts: &EndpointParts,
) -> Option<Adopt> {
    if !parts.is_valid() {
        return None;
    }
    table.on_offer(alloc, *c, epoch, parts).ok()
}

/// Resets the connection that is here with this epoch, and answers whether one is.
fn reset(table: &mut BackTable, c: &ConnId, epoch: Epoch) -> bool {
    let Some(mut endpoint) = table.take(*c, epoch) else {
        return false;
    };
    let _arrival = endpoint.arrive(&RESET);
    table.put(*c, endpoint);
    true
}

/// Resets the connection that is here with this epoch, ends its endpoint, and answers whether none is kept then.
fn close(table: &mut BackTable, c: &ConnId, epoch: Epoch) -> bool {
    let Some(mut endpoint) = table.take(*c, epoch) else {
        return false;
    };
    let _arrival = endpoint.arrive(&RESET);
    let _last = endpoint.kill();
    table.close(*c);
    match table.row(*c) {
        Some(row) => row.epoch == epoch && row.stage.is_ended(),
        None => false,
    }
}

/// Ends the connection that is here, since it passed the limit, and answers its last numbers.
fn kill(table: &mut BackTable, c: &ConnId) -> Option<Final> {
    if table.epoch(*c).is_none() {
        return None;
    }
    Some(table.kill(*c))
}

/// Four offers of which the first stays, and what is not done while it stays.
fn begins(
    rt: &impl Abort,
    table: &mut BackTable,
    alloc: Global,
    c: &ConnId,
    parts: &EndpointParts,
) {
    let offers = (
        offered(table, alloc, c, Epoch(2), parts),
        offered(table, alloc, c, Epoch(2), parts),
        offered(table, alloc, c, Epoch(4), parts),
        offered(table, alloc, c, Epoch(1), parts),
    );
    let (new, again, stale) = (Some(Adopt::New), Some(Adopt::Again), Some(Adopt::Stale));
    same(rt, &offers, &(new, again, stale, stale));
    same(rt, &table.epoch(*c), &Some(Epoch(2)));
    let early = (table.give(*c), reset(table, c, Epoch(3)));
    same(rt, &early, &(None, false));
}

/// The stay ends by the limit, and its end is acknowledged.
fn is_killed(
    rt: &impl Abort,
    table: &mut BackTable,
    alloc: Global,
    c: &ConnId,
    parts: &EndpointParts,
) {
    same(rt, &kill(table, c), &Some(last(Reason::Limit)));
    let early = (offered(table, alloc, c, Epoch(4), parts), table.epoch(*c));
    same(rt, &early, &(Some(Adopt::Stale), None));
    let awaited = (
        table.on_ended_ack(*c, Epoch(3)),
        table.on_ended_ack(*c, Epoch(2)),
        table.on_ended_ack(*c, Epoch(2)),
    );
    same(rt, &awaited, &(false, true, false));
    let again = offered(table, alloc, c, Epoch(2), parts);
    same(rt, &again, &Some(Adopt::Again));
}

/// The connection comes back, is reset by its client, and is given away once.
fn is_given(
    rt: &impl Abort,
    table: &mut BackTable,
    alloc: Global,
    c: &ConnId,
    parts: &EndpointParts,
) {
    let back = offered(table, alloc, c, Epoch(4), parts);
    same(rt, &back, &Some(Adopt::New));
    let ended = (reset(table, c, Epoch(4)), table.give(*c), table.give(*c));
    same(rt, &ended, &(true, Some(last(Reason::Peer)), None));
    same(rt, &table.on_ended_ack(*c, Epoch(4)), &true);
}

/// The connection comes back, and its endpoint is closed.
fn is_closed(
    rt: &impl Abort,
    table: &mut BackTable,
    alloc: Global,
    c: &ConnId,
    parts: &EndpointParts,
) {
    let back = offered(table, alloc, c, Epoch(6), parts);
    same(rt, &back, &Some(Adopt::New));
    let closed = (close(table, c, Epoch(6)), table.on_ended_ack(*c, Epoch(6)));
    same(rt, &closed, &(true, true));
}

#[test]
fn a_connection_stays_once_for_each_epoch(rt: HostRuntime) -> Result<(), Fail> {
    let c = ConnId::new(1).ok_or("a connection")?;
    let parts = parts(rt.alloc()).ok().ok_or("memory")?;
    let mut table = BackTable::new(rt.alloc());
    begins(&rt, &mut table, rt.alloc(), &c, &parts);
    is_killed(&rt, &mut table, rt.alloc(), &c, &parts);
    is_given(&rt, &mut table, rt.alloc(), &c, &parts);
    is_closed(&rt, &mut table, rt.alloc(), &c, &parts);
    table.finish();
    Ok(())
}

/// The Give of a connection whose request is unread.
const GIVE: &[u8] =
    b"\x02\x0b\x00\x01\x00\x02\x00\x00\x00\x42\x00\x00\x03\xe8\x00\x00\x13\x88\x00\x00\x00\x1f\x00\x00\x00\x00\x01\xff\xff\x00\x00\x03\xe9\x00\x00\x13\x89\x05\xb4\x00\x00\x00\x00\x00\x1fGET /a HTTP/1.1\r\nHost: lard\r\n\r\n";

/// The bytes of the Give of a connection that is given back without a response; `None` where it is not.
fn give_back(table: &mut BackTable, alloc: Global, c: &ConnId) -> Option<Bytes> {
    table.give_back(alloc, *c, 0).ok()?
}

/// A node that leaves refuses what it did not take, and an older Offer is passed over.
fn refuses(
    rt: &impl Abort,
    table: &mut BackTable,
    alloc: Global,
    c: &ConnId,
    parts: &EndpointParts,
) {
    let offers = (
        offered(table, alloc, c, Epoch(2), parts),
        offered(table, alloc, c, Epoch(2), parts),
        offered(table, alloc, c, Epoch(4), parts),
        offered(table, alloc, c, Epoch(2), parts),
    );
    let (refuse, stale) = (Some(Adopt::Refuse), Some(Adopt::Stale));
    same(rt, &offers, &(refuse, refuse, refuse, stale));
}

/// It gives back once what it has, and that awaits a Given of its epoch alone.
fn gives_back(rt: &impl Abort, table: &mut BackTable, alloc: Global, c: &ConnId) {
    let bytes = give_back(table, alloc, c).expect(rt, "a Give");
    same_bytes(rt, bytes.as_slice(), GIVE);
    let again = give_back(table, alloc, c).is_some();
    let answers = (
        again,
        table.on_ended_ack(*c, Epoch(2)),
        table.on_given(*c, Epoch(3)),
        table.on_given(*c, Epoch(2)),
        table.on_given(*c, Epoch(2)),
    );
    same(rt, &answers, &(false, false, false, true, false));
}

#[test]
fn a_node_leaves(rt: HostRuntime) -> Result<(), Fail> {
    let c = ConnId::new(1).ok_or("a connection")?;
    let other = ConnId::new(2).ok_or("a connection")?;
    let parts = parts(rt.alloc()).ok().ok_or("memory")?;
    let mut table = BackTable::new(rt.alloc());
    let new = offered(&mut table, rt.alloc(), &c, Epoch(2), &parts);
    let early = give_back(&mut table, rt.alloc(), &c).is_some() || table.is_leaving();
    table.leave();
    let again = offered(&mut table, rt.alloc(), &c, Epoch(2), &parts);
    same(
        &rt,
        &(new, early, table.is_leaving(), again),
        &(Some(Adopt::New), false, true, Some(Adopt::Again)),
    );
    refuses(&rt, &mut table, rt.alloc(), &other, &parts);
    gives_back(&rt, &mut table, rt.alloc(), &c);
    table.finish();
    Ok(())
}
