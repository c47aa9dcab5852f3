//! Each call once, with ample memory, along one connection's way to a node and back.

ghost use Rattle.std.specs.Prelude.{IfSome};
ghost use Rattle.lard_base.specs.Parts.{IsValidParts};

use crate::compare::{same, same_bytes};
use lard_base::{Bytes, ConnId, EndpointParts, Epoch, NoMemory, NodeId, Reason};
use lard_endpoint::Final;
use lard_handoff_front::{Back, FrontConn, FrontTable, OnEnded};
use lard_message::{Body, decode};
use lard_segment::{Flags, Segment};
use lard_seq::Seq;
use std::alloc::Global;
use std::process::Abort;
use std::test::Fail;

/// No control bit.
const NONE: Flags = Flags {
    syn: false,
    ack: false,
    fin: false,
    rst: false,
    psh: false,
};

/// The SYN of a client, from 1000 on.
const OPENING: Segment<'static> = Segment {
    seq: Seq(1000),
    ack: Seq(0),
    flags: Flags {
        syn: true,
        ack: false,
        fin: false,
        rst: false,
        psh: false,
    },
    wnd: 65535,
    mss: Some(1460),
    payload: b"",
};

/// What is left of a connection.
const LAST: Final = Final {
    reason: Reason::Closed,
    snd: Seq(5045),
    rcv: Seq(1033),
};

/// Begins a connection that is not known yet, and answers whether there was memory for it.
fn begin(table: &mut FrontTable, alloc: Global, c: &ConnId) -> bool {
    if table.state(*c).is_some() {
        return false;
    }
    table.listen(alloc, *c, &OPENING, Seq(5000)).is_ok()
}

/// Lets the client acknowledge the SYN of a connection that is held, and answers whether it was.
fn establish(table: &mut FrontTable, c: &ConnId) -> bool {
    let Some(mut endpoint) = table.take(*c) else {
        return false;
    };
    let _greeting = endpoint.emit();
    let _arrival = endpoint.arrive(&Segment {
        seq: Seq(1001),
        ack: Seq(5001),
        flags: Flags { ack: true, ..NONE },
        wnd: 65535,
        mss: None,
        payload: b"",
    });
    table.put(*c, endpoint, true);
    true
}

/// Offers a connection to a node, where that may be, and answers the Offer's bytes.
fn offer(
    table: &mut FrontTable,
    alloc: Global,
    c: &ConnId,
    node: &NodeId,
) -> Result<Bytes, NoMemory> {
    if !table.may_offer(*c) {
        return Err(NoMemory);
    }
    table.offer(alloc, *c, *node, 0)
}

/// The Offer of a connection that has said nothing.
const OFFER: &[u8] =
    b"\x01\x01\x00\x01\x00\x02\x00\x00\x00\x23\x00\x00\x03\xe8\x00\x00\x13\x88\x00\x00\x00\x00\x00\x00\x00\x00\x01\xff\xff\x00\x00\x03\xe9\x00\x00\x13\x89\x05\xb4\x00\x00\x00\x00\x00\x00";

/// Begins a connection and offers it, not before it is established.
fn is_offered(rt: &impl Abort, table: &mut FrontTable, alloc: Global, c: &ConnId, node: &NodeId) {
    let began = begin(table, alloc, c);
    let early = offer(table, alloc, c, node).is_err();
    assert!(rt; began && early && establish(table, c));
    assert!(rt; matches!(table.state(*c), Some(FrontConn::Waiting(_))));
    let bytes = offer(table, alloc, c, node).ok().expect(rt, "memory");
    same_bytes(rt, bytes.as_slice(), OFFER);
    assert!(rt; matches!(table.state(*c), Some(FrontConn::Offering { .. })));
}

/// Whether no endpoint is lent.
fn lends_none(table: &mut FrontTable, c: &ConnId) -> bool {
    match table.take(*c) {
        Some(endpoint) => {
            let _last = endpoint.kill();
            false
        }
        None => true,
    }
}

/// Each answer of the node counts once, in the epoch of the Offer.
fn is_answered(rt: &impl Abort, table: &mut FrontTable, c: &ConnId) {
    let taken = (
        table.on_taken(*c, Epoch(1)),
        table.on_taken(*c, Epoch(2)),
        table.on_taken(*c, Epoch(2)),
    );
    same(rt, &taken, &(false, true, false));
    let ended = (
        table.on_ended(*c, Epoch(3), LAST),
        table.on_ended(*c, Epoch(2), LAST),
        table.on_ended(*c, Epoch(2), LAST),
        table.on_ended(*c, Epoch(3), LAST),
    );
    let new = OnEnded::New(Epoch(3));
    same(
        rt,
        &ended,
        &(OnEnded::Stale, new, OnEnded::Again, OnEnded::Stale),
    );
    same(rt, &table.epoch(*c), &Some(Epoch(3)));
}

#[test]
fn a_connection_goes_to_a_node_and_ends(rt: HostRuntime) -> Result<(), Fail> {
    let c = ConnId::new(1).ok_or("a connection")?;
    let node = NodeId::new(1).ok_or("a node")?;
    let mut table = FrontTable::new(rt.alloc());
    is_offered(&rt, &mut table, rt.alloc(), &c, &node);
    assert!(rt; lends_none(&mut table, &c));
    is_answered(&rt, &mut table, &c);
    table.finish();
    Ok(())
}

/// Closes a connection that is lent, and answers whether it was.
fn close(table: &mut FrontTable, c: &ConnId) -> bool {
    let Some(endpoint) = table.take(*c) else {
        return false;
    };
    let last = endpoint.kill();
    table.close(*c, last);
    true
}

#[test]
fn a_connection_ends_at_the_front_end(rt: HostRuntime) -> Result<(), Fail> {
    let c = ConnId::new(7).ok_or("a connection")?;
    let mut table = FrontTable::new(rt.alloc());
    let began = begin(&mut table, rt.alloc(), &c);
    let closed = close(&mut table, &c);
    let state = matches!(table.state(c), Some(FrontConn::Closed(_)));
    let ended = table.on_ended(c, Epoch(1), LAST);
    table.finish();
    assert!(rt; began && closed && state);
    same(&rt, &ended, &OnEnded::Stale);
    Ok(())
}

/// The parts that an Offer's bytes carry.
fn parts_of(alloc: Global, offer: &Bytes) -> Option<EndpointParts>
    ensures { IfSome result IsValidParts }
{
    match decode(alloc, offer.as_slice()).ok()?.body {
        Body::Offer(parts) => Some(parts),
        _ => None,
    }
}

/// Begins a connection, offers it to a node, and answers the parts of the Offer.
fn offered(
    table: &mut FrontTable,
    alloc: Global,
    c: &ConnId,
    node: &NodeId,
) -> Option<EndpointParts>
    ensures { IfSome result IsValidParts }
{
    if !begin(table, alloc, c) || !establish(table, c) {
        return None;
    }
    let bytes = offer(table, alloc, c, node).ok()?;
    parts_of(alloc, &bytes)
}

/// What a refusal of three epochs is, one after another.
fn refusals(
    table: &mut FrontTable,
    alloc: Global,
    c: &ConnId,
    parts: &EndpointParts,
) -> Result<(Back, Back, Back), NoMemory>
    requires { IsValidParts parts.now }
{
    Ok((
        table.on_refused(alloc, *c, Epoch(3), parts)?,
        table.on_refused(alloc, *c, Epoch(2), parts)?,
        table.on_refused(alloc, *c, Epoch(2), parts)?,
    ))
}

/// What a Give of three epochs is, one after another.
fn gifts(
    table: &mut FrontTable,
    alloc: Global,
    c: &ConnId,
    parts: &EndpointParts,
) -> Result<(Back, Back, Back), NoMemory>
    requires { IsValidParts parts.now }
{
    Ok((
        table.on_give(alloc, *c, Epoch(3), parts)?,
        table.on_give(alloc, *c, Epoch(2), parts)?,
        table.on_give(alloc, *c, Epoch(2), parts)?,
    ))
}

#[test]
fn a_node_refuses_a_connection(rt: HostRuntime) -> Result<(), Fail> {
    let c = ConnId::new(1).ok_or("a connection")?;
    let node = NodeId::new(1).ok_or("a node")?;
    let mut table = FrontTable::new(rt.alloc());
    let answers = match offered(&mut table, rt.alloc(), &c, &node) {
        Some(parts) => refusals(&mut table, rt.alloc(), &c, &parts).ok(),
        None => None,
    };
    let behind = (
        matches!(table.state(c), Some(FrontConn::Held(_))),
        table.epoch(c),
    );
    table.finish();
    let want = Some((Back::Stale, Back::New(Epoch(3)), Back::Stale));
    same(&rt, &answers, &want);
    same(&rt, &behind, &(true, Some(Epoch(3))));
    Ok(())
}

#[test]
fn a_node_gives_a_connection_back(rt: HostRuntime) -> Result<(), Fail> {
    let c = ConnId::new(1).ok_or("a connection")?;
    let node = NodeId::new(1).ok_or("a node")?;
    let mut table = FrontTable::new(rt.alloc());
    let parts = offered(&mut table, rt.alloc(), &c, &node);
    let taken = table.on_taken(c, Epoch(2));
    let answers = match parts {
        Some(parts) => gifts(&mut table, rt.alloc(), &c, &parts).ok(),
        None => None,
    };
    let behind = (
        matches!(table.state(c), Some(FrontConn::Held(_))),
        table.epoch(c),
    );
    table.finish();
    assert!(rt; taken);
    let want = Some((Back::Stale, Back::New(Epoch(3)), Back::Again));
    same(&rt, &answers, &want);
    same(&rt, &behind, &(true, Some(Epoch(3))));
    Ok(())
}
