//! Loads for `bench/run`: heads that are judged, bytes that go through a pair of endpoints, connections that come and go at
//! nodes, look-ups in a cache, messages that are written and read, and connections that are handed over. It reads no clock;
//! `bench/run` measures how long it takes.
//!
//! It stands on the leaves alone, and nothing stands on it.
#![tactic(auto)]

mod handoffs;
mod heads;
mod loads;
mod lookups;
mod messages;
mod pair;

use handoffs::{Way, pass};
use heads::judge_heads;
use lard_base::{StdSource, read_up_to};
use loads::churn;
use lookups::look_up;
use messages::carry;
use pair::push;
use std::env;
use std::process::ExitCode;
use std::rt::Env;

/// The most bytes that are read of a head.
const MOST_BYTES: usize = 8_192;

fn main(rt: HostRuntime) -> ExitCode {
    match load(&rt) {
        Some(()) => ExitCode::SUCCESS,
        None => ExitCode::from(1),
    }
}

/// Does what the words ask for: `heads N` judges the head on standard input so many times, `segments N` pushes N bytes
/// through a pair of endpoints, `loads N` releases and connects a connection so many times, `lookups N` looks up so many
/// paths in a cache, `messages N` writes and reads so many messages, and `handoffs N` hands over so many connections with
/// the head on standard input unread; in `stays N` they end where they began. Nothing where the words ask for nothing that
/// there is, or where memory or a write fails.
fn load(rt: &(impl Env + Input + Print + AllocGlobal)) -> Option<()> {
    let mut words = env::args(rt).ok()?;
    let _name = words.next();
    let what = words.next()?;
    let number = words.next()?;
    let number: u32 = number.parse().ok()?;
    match what.as_str() {
        "heads" => tell_heads(rt, number),
        "segments" => tell_segments(rt, number),
        "loads" => tell_loads(rt, number),
        "lookups" => tell_lookups(rt, number),
        "messages" => tell_messages(rt, number),
        "stays" => tell_connections(rt, number, Way::Stays),
        "handoffs" => tell_connections(rt, number, Way::Moves),
        _ => None,
    }
}

/// The head on standard input.
fn head(rt: &(impl Input + AllocGlobal)) -> Option<Vec<u8>> {
    let mut head = Vec::new(rt.alloc());
    let mut source = StdSource::new(rt.reader());
    read_up_to(&mut source, &mut head, MOST_BYTES).ok()?;
    Some(head)
}

fn tell_heads(rt: &(impl Input + Print + AllocGlobal), times: u32) -> Option<()> {
    let head = head(rt)?;
    let served = judge_heads(rt.alloc(), head.as_slice(), times).ok()?;
    println!(rt; "{times} heads, {served} served").ok()
}

fn tell_segments(rt: &(impl Print + AllocGlobal), bytes: u32) -> Option<()> {
    let pushed = push(rt.alloc(), bytes).ok()?;
    println!(rt; "{} segments, {} bytes", pushed.segments, pushed.bytes).ok()
}

fn tell_loads(rt: &(impl Print + AllocGlobal), times: u32) -> Option<()> {
    let second = churn(rt.alloc(), times)?;
    println!(rt; "{times} times released and connected, {second} times node 2 least").ok()
}

fn tell_lookups(rt: &(impl Print + AllocGlobal), times: u32) -> Option<()> {
    let hits = look_up(rt.alloc(), times).ok()?;
    println!(rt; "{times} look-ups, {hits} hits").ok()
}

fn tell_messages(rt: &(impl Print + AllocGlobal), times: u32) -> Option<()> {
    let carried = carry(rt.alloc(), times).ok()?;
    println!(rt; "{} messages, {} bytes", carried.messages, carried.bytes).ok()
}

fn tell_connections(rt: &(impl Input + Print + AllocGlobal), times: u32, way: Way) -> Option<()> {
    let head = head(rt)?;
    let ended = pass(rt.alloc(), times, head.as_slice(), way).ok()?;
    println!(rt;
        "{} connections, {} bytes of offers",
        ended.connections, ended.bytes
    )
    .ok()
}
