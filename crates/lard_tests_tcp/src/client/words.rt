//! A client's runs in words: what is called, what comes, and what has to be sent. Numbers are offsets: those of the
//! client count from its SYN, those of the cluster from its own.

use lard_base::ConnId;
use lard_client::{Client, Heard};
use lard_segment::{Flags, Ready, Segment};
use lard_seq::Seq;
use std::alloc::Global;
use std::process::Abort;

pub const BARE: Flags = Flags {
    syn: false,
    ack: false,
    fin: false,
    rst: false,
    psh: false,
};

pub const SYN: Flags = Flags { syn: true, ..BARE };

pub const ACK: Flags = Flags { ack: true, ..BARE };

pub const SYN_ACK: Flags = Flags {
    syn: true,
    ack: true,
    ..BARE
};

pub const PSH: Flags = Flags {
    ack: true,
    psh: true,
    ..BARE
};

pub const FIN: Flags = Flags {
    ack: true,
    fin: true,
    ..BARE
};

pub const PSH_FIN: Flags = Flags {
    ack: true,
    fin: true,
    psh: true,
    ..BARE
};

pub const RST: Flags = Flags { rst: true, ..BARE };

pub const RST_ACK: Flags = Flags {
    ack: true,
    rst: true,
    ..BARE
};

/// A segment of the cluster: its flags, numbers, window and data.
pub type Got = (Flags, u32, u32, u16, &'static [u8]);

/// A segment of the client: its flags, numbers and window, and where its data stands among what it wrote, and how much.
pub type Sent = (Flags, u32, u32, u16, u32, u32);

/// One call, and what has to come of it.
#[derive(Clone, Copy)]
pub enum Call {
    /// It writes, where it still does.
    Write(&'static [u8], bool),
    Shut,
    Hold,
    Take,
    Abort(Option<Sent>),
    Timer(Option<Sent>),
    Emit(Option<Sent>),
    /// A segment comes: the part that is accepted, whether the FIN is taken, and the one segment that is then sent.
    Hears(Got, (u32, u32, bool), Option<Sent>),
    /// A segment comes after the abort: the reply, and nothing is sent.
    Refuses(Got, Option<Sent>),
    /// Whether its timer runs, and whether it holds.
    Is(bool, bool),
}

/// What nothing is accepted of.
pub const NOTHING: (u32, u32, bool) = (0, 0, false);

/// The first numbers of a client and of the cluster, the client's window, and what both give as their maximum segment
/// size.
#[derive(Clone, Copy)]
pub struct Numbers {
    pub isn: u32,
    pub iss: u32,
    pub wnd: u16,
    pub mss: u16,
}

impl Numbers {
    /// Plain first numbers.
    pub(super) fn plain(wnd: u16, mss: u16) -> Numbers {
        Numbers {
            isn: 1000,
            iss: 5000,
            wnd,
            mss,
        }
    }

    /// First numbers that begin again soon.
    pub(super) fn wrapping(wnd: u16, mss: u16) -> Numbers {
        Numbers {
            isn: 0xffff_fffe,
            iss: 0xffff_fffc,
            wnd,
            mss,
        }
    }

    /// A segment of the cluster.
    fn got(self, words: Got) -> Segment<'static> {
        let (flags, seq, ack, wnd, payload) = words;
        Segment {
            seq: Seq(self.iss).add(seq),
            ack: Seq(self.isn).add(ack),
            flags,
            wnd,
            mss: self.size(flags),
            payload,
        }
    }

    /// A segment of the client.
    fn sent(self, words: Option<Sent>) -> Option<Ready> {
        let (flags, seq, ack, wnd, at, len) = words?;
        Some(Ready {
            seq: Seq(self.isn).add(seq),
            ack: if flags.ack {
                Seq(self.iss).add(ack)
            } else {
                Seq(0)
            },
            flags,
            wnd,
            mss: self.size(flags),
            at,
            len,
        })
    }

    /// The maximum segment size, which a SYN names.
    fn size(self, flags: Flags) -> Option<u16> {
        if flags.syn { Some(self.mss) } else { None }
    }

    /// A client of these numbers.
    pub(super) fn open(self, rt: &impl Abort, alloc: Global) -> Client {
        let c = ConnId::new(1).expect(rt, "a connection's number");
        assert!(rt; 1 <= self.wnd && 1 <= self.mss && self.mss <= 1460);
        Client::open(alloc, c, Seq(self.isn), self.wnd, self.mss)
    }

    /// How many of the calls come out as they are written down, up to the first that does not.
    pub(super) fn done(self, client: &mut Client, calls: &[Call]) -> usize {
        for (count, call) in calls.iter().enumerate() {
            if !self.agrees(client, *call) {
                return count;
            }
        }
        calls.len()
    }

    /// Whether of the call comes what has to.
    fn agrees(self, client: &mut Client, call: Call) -> bool {
        match call {
            Call::Write(bytes, writes) => return is_written(client, bytes, writes),
            Call::Abort(want) => return client.abort() == self.sent(want),
            Call::Timer(want) => return client.timer() == self.sent(want),
            Call::Emit(want) => return client.emit() == self.sent(want),
            Call::Hears(got, part, want) => return self.is_heard(client, got, part, want),
            Call::Refuses(got, want) => return self.is_refused(client, got, want),
            Call::Is(armed, holding) => return client.armed() == armed
                && client.holding() == holding,
            Call::Shut => client.shut(),
            Call::Hold => client.hold(),
            Call::Take => client.take(),
        }
        true
    }

    /// Whether so much of a segment is accepted, and the one segment is sent.
    fn is_heard(
        self,
        client: &mut Client,
        got: Got,
        part: (u32, u32, bool),
        want: Option<Sent>,
    ) -> bool {
        let (from, len, eof) = part;
        let heard = Heard {
            from,
            len,
            eof,
            reply: None,
        };
        client.arrive(&self.got(got)) == heard && self.is_last_sent(client, want)
    }

    /// Whether this segment is sent, and none behind it.
    fn is_last_sent(self, client: &mut Client, want: Option<Sent>) -> bool {
        client.emit() == self.sent(want) && (want.is_none() || client.emit().is_none())
    }

    /// Whether a segment has this reply, and nothing is sent.
    fn is_refused(self, client: &mut Client, got: Got, want: Option<Sent>) -> bool {
        let heard = Heard {
            reply: self.sent(want),
            ..Heard::nothing()
        };
        client.arrive(&self.got(got)) == heard && client.emit().is_none()
    }
}

/// Whether it still writes, or not, before it is given these bytes and as it says then.
pub(super) fn is_written(client: &mut Client, bytes: &[u8], writes: bool) -> bool {
    if client.written() >= 1000 || bytes.len() >= 1000 {
        return false;
    }
    client.writes() == writes && client.write(bytes) == Ok(writes)
}
