//! A client of the cluster: its own calls.

ghost use Rattle.std.specs.Prelude.{◌≡◌, ◌≤◌, false, length, IfOk, IfSome, OnOk, OnErr, Ok};
ghost use Rattle.lard_client.specs.Control.{IsClientBlock, is_client_open, is_established, is_writing, is_holding, is_client_armed, client_opened, client_written, written_len, shut_down, held_on, client_taken, aborted, client_rcv_nxt, client_rcv_wnd, client_snd_nxt};
ghost use Rattle.lard_client.specs.Leaving.{IsHeld, IsWritable, abort_ready};
ghost use Rattle.lard_send.specs.Send.{IsSending};

mod arriving;
mod leaving;

use crate::phase::Phase;
use lard_arrival::DEFAULT_MSS;
use lard_base::limits::{MAX_SEGMENT_DATA, MAX_STREAM_BYTES};
use lard_base::{ConnId, NoMemory};
use lard_segment::Ready;
use lard_send::SendHalf;
use lard_seq::Seq;
use std::alloc::Global;
use std::marker::Model;

/// A client that opened its connection. Only `write` takes memory.
#[derive(Drop)]
pub struct Client {
    /// The connection that it opened.
    c: ConnId,
    /// Its symbols, and the cluster's window. It knows both first numbers, the cluster's once it is established.
    send: SendHalf,
    /// How many bytes it accepted, at most 2^30. It keeps none of them.
    accepted: u32,
    /// It took the cluster's FIN, behind all bytes.
    eof: bool,
    /// The window that it opens while it holds nothing, in bytes, at least 1.
    wnd: u16,
    /// How many of the accepted bytes lie in its window, at most `wnd`.
    held: u16,
    /// Accepted bytes stay in its window: its last `hold` or `take` was `hold`.
    holding: bool,
    /// The most bytes of a segment that it takes, 1 to 1,460, as its SYN says.
    mss: u16,
    /// An ACK is owed, for a segment that came or for a window that opened.
    owed: bool,
    /// The window that the last segment told, in bytes; before the first one `wnd`.
    last_window: u16,
    /// Whether it goes on.
    phase: Phase,
}

impl Model for Client {
    ghost use Rattle.lard_client.specs.Control.{ClientBlock, IsClientBlock};

    ghost Value = { ClientBlock };

    ghost view = { λ x. record {
      c = x.c;
      send = x.send;
      accepted = x.accepted;
      eof = x.eof;
      wnd = x.wnd;
      held = x.held;
      holding = x.holding;
      mss = x.mss;
      owed = x.owed;
      last_window = x.last_window;
      phase = x.phase;
    } };

    ghost invariant = { λ x. IsClientBlock (record {
      c = x.c;
      send = x.send;
      accepted = x.accepted;
      eof = x.eof;
      wnd = x.wnd;
      held = x.held;
      holding = x.holding;
      mss = x.mss;
      owed = x.owed;
      last_window = x.last_window;
      phase = x.phase;
    }) };
}

impl Client {
    /// A client of connection `c` whose SYN, with the number `isn`, `emit` gives first (RFC 9293, 3.10.1). It opens a
    /// window of `wnd` bytes, at least 1, and takes segments of at most `mss` bytes, 1 to 1,460. It takes no memory
    /// yet.
    pub fn open(alloc: Global, c: ConnId, isn: Seq, wnd: u16, mss: u16) -> Client
        requires some_window { 1 ≤ wnd }
        requires some_mss { 1 ≤ mss }
        requires small_mss { mss ≤ MAX_SEGMENT_DATA }
        ensures { result ≡ client_opened c isn.0 wnd mss }
    {
        Client {
            c,
            send: SendHalf::make(alloc, isn, Seq(0), 0, DEFAULT_MSS),
            accepted: 0,
            eof: false,
            wnd,
            held: 0,
            holding: false,
            mss,
            owed: false,
            last_window: wnd,
            phase: Phase::Open,
        }
    }

    /// The number of its connection.
    pub fn number(&self) -> ConnId
        ensures { result ≡ self.now.c }
    {
        self.c
    }

    /// Writes bytes behind those that it wrote, at most 2^30 over its connection (RFC 9293, 3.10.2). It answers false,
    /// and does nothing, where the client no longer writes. Without memory it is as it was.
    pub fn write(&mut self, bytes: &[u8]) -> Result<bool, NoMemory>
        requires { written_len self.old bytes.now ≤ MAX_STREAM_BYTES }
        ensures answer { IfOk result (λ writes. writes ≡ is_writing self.old) }
        ensures ok { OnOk result (self.new ≡ client_written self.old bytes.now) }
        ensures err { OnErr result (self.new ≡ self.old) }
        ensures closed { is_writing self.old ≡ false → result ≡ Ok false }
    {
        if !self.writes() {
            return Ok(false);
        }
        self.send.queue(bytes)?;
        Ok(true)
    }

    /// Whether it still writes: it was not shut, aborted or reset, and took no FIN.
    pub fn writes(&self) -> bool
        ensures { result ≡ is_writing self.now }
    {
        self.is_open() && !self.send.finished()
    }

    /// How many bytes it wrote since its connection began, at most 2^30.
    pub fn written(&self) -> u32
        ensures value { result ≡ self.now.send.total }
        ensures law { IsClientBlock self.now }
        ensures sending { IsSending self.now.send }
    {
        self.send.total()
    }

    /// Closes its side: its FIN follows what it wrote (RFC 9293, 3.10.4).
    pub fn shut(&mut self)
        ensures { self.new ≡ shut_down self.old }
    {
        if self.is_open() {
            self.send.finish();
        }
    }

    /// Resets its connection (RFC 9293, 3.10.5). The RST, which `emit` never gives, is to be sent where there is one:
    /// the client was open and established. Else `None`.
    pub fn abort(&mut self) -> Option<Ready>
        ensures reset { result ≡ abort_ready self.old }
        ensures after { self.new ≡ aborted self.old }
        ensures held { IfSome result (λ ready. IsHeld self.new ready) }
        ensures writable { IfSome result (λ ready. IsWritable ready) }
    {
        if !self.is_open() {
            return None;
        }
        self.phase = Phase::Aborted;
        if !self.is_established() {
            return None;
        }
        Some(self.reset())
    }

    /// Lets accepted bytes stay in its window from now on.
    pub fn hold(&mut self)
        ensures { self.new ≡ held_on self.old }
    {
        if self.is_open() {
            self.holding = true;
        }
    }

    /// Reads all that lies in its window, and holds no longer (RFC 9293, 3.10.3). The cluster is told so by an ACK.
    pub fn take(&mut self)
        ensures { self.new ≡ client_taken self.old }
    {
        if self.is_open() {
            self.holding = false;
            self.held = 0;
            self.owed = self.owed || self.is_established();
        }
    }

    /// Whether accepted bytes stay in its window: it is open, and its last `hold` or `take` was `hold`.
    pub fn holding(&self) -> bool
        ensures { result ≡ is_holding self.now }
    {
        self.is_open() && self.holding
    }

    /// Whether its timer runs: it is open, and its SYN, a byte or its FIN is not acknowledged (RFC 9293, 3.8.1).
    pub fn armed(&self) -> bool
        ensures { result ≡ is_client_armed self.now }
    {
        self.is_open() && self.send.armed()
    }

    /// It was neither aborted nor reset.
    fn is_open(&self) -> bool
        ensures { result ≡ is_client_open self.now }
    {
        match self.phase {
            Phase::Open => true,
            Phase::Aborted | Phase::Reset => false,
        }
    }

    /// Its SYN is acknowledged, and the cluster's SYN came with that.
    fn is_established(&self) -> bool
        ensures { result ≡ is_established self.now }
    {
        self.send.una() != 0
    }

    /// The number that it awaits, RCV.NXT.
    fn rcv_nxt(&self) -> Seq
        ensures { result.0 ≡ client_rcv_nxt self.now }
    {
        self.send.irs().add(1 + self.accepted + self.eof as u32)
    }

    /// The window, RCV.WND: what it opens less what it holds.
    fn rcv_wnd(&self) -> u16
        ensures { result ≡ client_rcv_wnd self.now }
    {
        self.wnd - self.held
    }

    /// What holds of every client, by the law of its sending half too. It is called where a proof wants it, and does
    /// nothing.
    pub fn law(&self)
        ensures block { IsClientBlock self.now }
        ensures sending { IsSending self.now.send }
    {
        let _sending = self.send.total();
    }

    /// The number that it sends next, SND.NXT.
    fn snd_nxt(&self) -> Seq
        ensures { result.0 ≡ client_snd_nxt self.now }
    {
        self.send.iss().add(self.send.nxt())
    }
}
