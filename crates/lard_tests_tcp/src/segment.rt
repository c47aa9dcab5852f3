//! Segments whose bytes were worked out apart from this crate, by a program of another language.

ghost use Rattle.lard_segment.specs.Segment.{said, IsSendable};

use lard_base::ConnId;
use lard_segment::{Dir, Flags, Ready, SegFault, Segment, decode, encode};
use lard_seq::Seq;

/// The SYN of client 1, from 1000 on.
const OPENING: &[u8] =
    b"\x9c\x40\x00\x50\x00\x00\x03\xe8\x00\x00\x00\x00\x60\x02\xff\xff\xe3\xab\x00\x00\x02\x04\x05\xb4";

/// A name, the bytes, and the size that they name.
type ReadRow = (&'static str, &'static [u8], Option<u16>);

/// What client 1 may send from 7 on with a window of 9, and the size that it names.
const READ: &[ReadRow] = &[
    (
        "no option",
        b"\x9c\x40\x00\x50\x00\x00\x00\x07\x00\x00\x00\x00\x50\x02\x00\x09\xff\x3f\x00\x00",
        None,
    ),
    (
        "urgent data, two bits on congestion and the reserved bits",
        b"\x9c\x40\x00\x50\x00\x00\x00\x07\x00\x00\x00\x00\x5f\xe2\x00\x09\xdd\x2b\x12\x34",
        None,
    ),
    (
        "the list ends, and what follows is not read",
        b"\x9c\x40\x00\x50\x00\x00\x00\x07\x00\x00\x00\x00\x60\x02\x00\x09\xec\x39\x00\x00\x00\x02\x03\x00",
        None,
    ),
    (
        "a size behind the end",
        b"\x9c\x40\x00\x50\x00\x00\x00\x07\x00\x00\x00\x00\x70\x02\x00\x09\xdc\x6b\x00\x00\x00\x00\x00\x00\x02\x04\x00\xc8",
        None,
    ),
    (
        "bytes that say nothing, timestamps, and then the size",
        b"\x9c\x40\x00\x50\x00\x00\x00\x07\x00\x00\x00\x00\x90\x02\x00\x09\xb2\x08\x00\x00\x01\x01\x08\x0a\x00\x00\x00\x00\x00\x00\x00\x00\x02\x04\x02\x18",
        Some(536),
    ),
    (
        "the first of two sizes",
        b"\x9c\x40\x00\x50\x00\x00\x00\x07\x00\x00\x00\x00\x70\x02\x00\x09\xda\x03\x00\x00\x02\x04\x00\x64\x02\x04\x00\xc8",
        Some(100),
    ),
    (
        "no size is 0",
        b"\x9c\x40\x00\x50\x00\x00\x00\x07\x00\x00\x00\x00\x60\x02\x00\x09\xed\x37\x00\x00\x02\x04\x00\x00",
        Some(1),
    ),
    (
        "the smallest",
        b"\x9c\x40\x00\x50\x00\x00\x00\x07\x00\x00\x00\x00\x60\x02\x00\x09\xed\x36\x00\x00\x02\x04\x00\x01",
        Some(1),
    ),
    (
        "the greatest",
        b"\x9c\x40\x00\x50\x00\x00\x00\x07\x00\x00\x00\x00\x60\x02\x00\x09\xe7\x83\x00\x00\x02\x04\x05\xb4",
        Some(1460),
    ),
    (
        "one more",
        b"\x9c\x40\x00\x50\x00\x00\x00\x07\x00\x00\x00\x00\x60\x02\x00\x09\xe7\x82\x00\x00\x02\x04\x05\xb5",
        Some(1460),
    ),
    (
        "the greatest word",
        b"\x9c\x40\x00\x50\x00\x00\x00\x07\x00\x00\x00\x00\x60\x02\x00\x09\xed\x37\x00\x00\x02\x04\xff\xff",
        Some(1460),
    ),
    (
        "an unknown option up to the end",
        b"\x9c\x40\x00\x50\x00\x00\x00\x07\x00\x00\x00\x00\x60\x02\x00\x09\xe6\x36\x00\x00\x08\x04\x01\x01",
        None,
    ),
    (
        "an unknown option of two bytes",
        b"\x9c\x40\x00\x50\x00\x00\x00\x07\x00\x00\x00\x00\x60\x02\x00\x09\xe6\x38\x00\x00\x08\x02\x01\x01",
        None,
    ),
    (
        "a header of 60 bytes",
        b"\x9c\x40\x00\x50\x00\x00\x00\x07\x00\x00\x00\x00\xf0\x02\x00\x09\x4b\x03\x00\x00\x01\x01\x01\x01\x01\x01\x01\x01\x01\x01\x01\x01\x01\x01\x01\x01\x01\x01\x01\x01\x01\x01\x01\x01\x01\x01\x01\x01\x01\x01\x01\x01\x01\x01\x01\x01\x01\x01\x01\x01",
        None,
    ),
];

/// A name, the bytes, and why they are refused.
type RefusedRow = (&'static str, &'static [u8], SegFault);

/// What no segment of client 1 to the cluster is, and why.
const REFUSED: &[RefusedRow] = &[
    ("nothing at all", b"", SegFault::Short),
    (
        "one byte less than a header",
        b"\x9c\x40\x00\x50\x00\x00\x00\x07\x00\x00\x00\x00\x50\x10\xff\x3a\x00\x00\x00",
        SegFault::Short,
    ),
    (
        "a checksum that is one off",
        b"\x9c\x40\x00\x50\x00\x00\x03\xe8\x00\x00\x00\x00\x60\x02\xff\xff\xe3\xaa\x00\x00\x02\x04\x05\xb4",
        SegFault::Sum,
    ),
    (
        "another byte than was summed",
        b"\x9c\x40\x00\x50\x00\x00\x03\xe8\x00\x00\x00\x00\x60\x02\xff\xff\xe3\xab\x00\x00\x02\x04\x05\xb5",
        SegFault::Sum,
    ),
    (
        "zero in its other form",
        b"\x9c\x40\x00\x50\x00\x00\x00\x07\x00\x00\x00\x00\x50\x10\xff\x3a\xff\xff\x00\x00",
        SegFault::Sum,
    ),
    (
        "a wrong checksum and a wrong port",
        b"\x9c\x41\x00\x50\x00\x00\x00\x07\x00\x00\x00\x00\x50\x02\x00\x09\xff\x00\x00\x00",
        SegFault::Sum,
    ),
    (
        "another source port",
        b"\x9c\x41\x00\x50\x00\x00\x00\x07\x00\x00\x00\x00\x50\x02\x00\x09\xff\x3e\x00\x00",
        SegFault::Port,
    ),
    (
        "another destination port",
        b"\x9c\x40\x00\x51\x00\x00\x00\x07\x00\x00\x00\x00\x50\x02\x00\x09\xff\x3e\x00\x00",
        SegFault::Port,
    ),
    (
        "a segment of the other direction",
        b"\x00\x50\x9c\x40\x00\x00\x00\x07\x00\x00\x00\x00\x50\x02\x00\x09\xff\x3f\x00\x00",
        SegFault::Port,
    ),
    (
        "another port and a data offset of 4",
        b"\x9c\x41\x00\x50\x00\x00\x00\x07\x00\x00\x00\x00\x40\x02\x00\x09\x0f\x3f\x00\x00",
        SegFault::Port,
    ),
    (
        "a data offset of 4",
        b"\x9c\x40\x00\x50\x00\x00\x00\x07\x00\x00\x00\x00\x40\x02\x00\x09\x0f\x40\x00\x00",
        SegFault::Offset,
    ),
    (
        "a data offset of 0",
        b"\x9c\x40\x00\x50\x00\x00\x00\x07\x00\x00\x00\x00\x00\x02\x00\x09\x4f\x40\x00\x00",
        SegFault::Offset,
    ),
    (
        "a data offset past the end",
        b"\x9c\x40\x00\x50\x00\x00\x00\x07\x00\x00\x00\x00\x60\x02\x00\x09\xef\x3f\x00\x00",
        SegFault::Offset,
    ),
    (
        "a data offset past the end by one byte",
        b"\x9c\x40\x00\x50\x00\x00\x00\x07\x00\x00\x00\x00\xf0\x02\x00\x09\x4b\x05\x00\x00\x01\x01\x01\x01\x01\x01\x01\x01\x01\x01\x01\x01\x01\x01\x01\x01\x01\x01\x01\x01\x01\x01\x01\x01\x01\x01\x01\x01\x01\x01\x01\x01\x01\x01\x01\x01\x01\x01\x01",
        SegFault::Offset,
    ),
    (
        "a data offset past the end of a bad option",
        b"\x9c\x40\x00\x50\x00\x00\x00\x07\x00\x00\x00\x00\x70\x02\x00\x09\xd6\x39\x00\x00\x08\x01\x01\x01",
        SegFault::Offset,
    ),
    (
        "no length byte",
        b"\x9c\x40\x00\x50\x00\x00\x00\x07\x00\x00\x00\x00\x60\x02\x00\x09\xed\x32\x00\x00\x01\x01\x01\x08",
        SegFault::Option,
    ),
    (
        "a length of 0",
        b"\x9c\x40\x00\x50\x00\x00\x00\x07\x00\x00\x00\x00\x60\x02\x00\x09\xe6\x3a\x00\x00\x08\x00\x01\x01",
        SegFault::Option,
    ),
    (
        "a length of 1",
        b"\x9c\x40\x00\x50\x00\x00\x00\x07\x00\x00\x00\x00\x60\x02\x00\x09\xe6\x39\x00\x00\x08\x01\x01\x01",
        SegFault::Option,
    ),
    (
        "a length past the header by one byte",
        b"\x9c\x40\x00\x50\x00\x00\x00\x07\x00\x00\x00\x00\x60\x02\x00\x09\xe4\x31\x00\x00\x08\x05\x01\x01\x01\x01\x01",
        SegFault::Option,
    ),
    (
        "a size in one byte",
        b"\x9c\x40\x00\x50\x00\x00\x00\x07\x00\x00\x00\x00\x60\x02\x00\x09\xe8\x38\x00\x00\x02\x03\x05\x00",
        SegFault::Option,
    ),
    (
        "a size in three bytes",
        b"\x9c\x40\x00\x50\x00\x00\x00\x07\x00\x00\x00\x00\x70\x02\x00\x09\xd8\x32\x00\x00\x02\x05\x05\x00\x00\x00\x00\x00",
        SegFault::Option,
    ),
    (
        "a second size in one byte",
        b"\x9c\x40\x00\x50\x00\x00\x00\x07\x00\x00\x00\x00\x70\x02\x00\x09\xd5\xcc\x00\x00\x02\x04\x00\x64\x02\x03\x05\x00",
        SegFault::Option,
    ),
];

/// What these bytes say that came this way on a connection. No segment is longer.
fn what_came(number: u32, dir: Dir, bytes: &[u8]) -> Option<Result<Segment<'_>, SegFault>> {
    let c = ConnId::new(number)?;
    if bytes.len() > 65_535 {
        return None;
    }
    Some(decode(bytes, c, dir))
}

/// Whether these are the bytes of the segment, and are read again; the buffer keeps what lies behind them.
fn is_spelled(number: u32, dir: Dir, segment: &Segment<'_>, bytes: &[u8]) -> bool
    requires { IsSendable (said segment.now) }
{
    let mut buf = [0xaa; 1520];
    let len = match ConnId::new(number) {
        Some(c) => encode(segment, c, dir, &mut buf),
        None => 0,
    };
    let (written, rest) = buf.split_at(len);
    written == bytes
        && rest.iter().all(|b| *b == 0xaa)
        && what_came(number, dir, bytes) == Some(Ok(*segment))
}

/// The SYNs of a client and of the cluster.
fn syns_are_spelled() -> bool {
    let opening = Segment {
        seq: Seq(1000),
        ack: Seq(0),
        flags: Flags {
            syn: true,
            ..Flags::NONE
        },
        wnd: 65535,
        mss: Some(1460),
        payload: b"",
    };
    let answer = Segment {
        seq: Seq(5000),
        ack: Seq(1001),
        flags: Flags {
            syn: true,
            ack: true,
            ..Flags::NONE
        },
        wnd: 16384,
        mss: Some(1460),
        payload: b"",
    };
    is_spelled(1, Dir::ToCluster, &opening, OPENING)
        && is_spelled(
            1,
            Dir::ToClient,
            &answer,
            b"\x00\x50\x9c\x40\x00\x00\x13\x88\x00\x00\x03\xe9\x60\x12\x40\x00\x90\x12\x00\x00\x02\x04\x05\xb4",
        )
}

/// Data, an acknowledgement alone, and the greatest numbers.
fn data_is_spelled() -> bool {
    let request = Segment {
        seq: Seq(1001),
        ack: Seq(5001),
        flags: Flags {
            ack: true,
            psh: true,
            ..Flags::NONE
        },
        wnd: 65535,
        mss: None,
        payload: b"GET /x HTTP/1.1\r\nHost: lard\r\n\r\n",
    };
    let plain = Segment {
        seq: Seq(1032),
        ack: Seq(5046),
        flags: Flags {
            ack: true,
            ..Flags::NONE
        },
        wnd: 65535,
        mss: None,
        payload: b"",
    };
    let last = Segment {
        seq: Seq(4294967295),
        ack: Seq(2147483648),
        flags: Flags {
            ack: true,
            fin: true,
            psh: true,
            ..Flags::NONE
        },
        wnd: 0,
        mss: None,
        payload: b"abc",
    };
    is_spelled(
        1,
        Dir::ToCluster,
        &request,
        b"\x9c\x40\x00\x50\x00\x00\x03\xe9\x00\x00\x13\x89\x50\x18\xff\xff\x0d\xd5\x00\x00\x47\x45\x54\x20\x2f\x78\x20\x48\x54\x54\x50\x2f\x31\x2e\x31\x0d\x0a\x48\x6f\x73\x74\x3a\x20\x6c\x61\x72\x64\x0d\x0a\x0d\x0a",
    ) && is_spelled(
        1,
        Dir::ToCluster,
        &plain,
        b"\x9c\x40\x00\x50\x00\x00\x04\x08\x00\x00\x13\xb6\x50\x10\xff\xff\xe7\x83\x00\x00",
    ) && is_spelled(
        16384,
        Dir::ToClient,
        &last,
        b"\x00\x50\x9c\x40\xff\xff\xff\xff\x80\x00\x00\x00\x50\x19\x00\x00\x7a\xd3\x00\x00\x61\x62\x63",
    )
}

/// A reset, and a segment whose checksum is 0.
fn rest_is_spelled() -> bool {
    let reset = Segment {
        seq: Seq(77),
        ack: Seq(0),
        flags: Flags {
            rst: true,
            ..Flags::NONE
        },
        wnd: 0,
        mss: None,
        payload: b"",
    };
    let without_sum = Segment {
        seq: Seq(7),
        ack: Seq(0),
        flags: Flags {
            ack: true,
            ..Flags::NONE
        },
        wnd: 65338,
        mss: None,
        payload: b"",
    };
    is_spelled(
        300,
        Dir::ToClient,
        &reset,
        b"\x00\x50\x9c\x40\x00\x00\x00\x4d\x00\x00\x00\x00\x50\x04\x00\x00\xfd\xd5\x00\x00",
    ) && is_spelled(
        1,
        Dir::ToCluster,
        &without_sum,
        b"\x9c\x40\x00\x50\x00\x00\x00\x07\x00\x00\x00\x00\x50\x10\xff\x3a\x00\x00\x00\x00",
    )
}

#[test]
fn writes_and_reads(rt: HostRuntime) {
    let spelled = [syns_are_spelled(), data_is_spelled(), rest_is_spelled()];
    assert_eq!(rt; spelled, [true; 3]);
}

/// The SYN from 7 on with a window of 9, which names this size.
fn syn(mss: Option<u16>) -> Segment<'static> {
    Segment {
        seq: Seq(7),
        ack: Seq(0),
        flags: Flags {
            syn: true,
            ..Flags::NONE
        },
        wnd: 9,
        mss,
        payload: b"",
    }
}

/// The first row that is read otherwise.
fn misread(rows: &[ReadRow]) -> Option<&'static str> {
    for &(name, bytes, mss) in rows {
        if what_came(1, Dir::ToCluster, bytes) != Some(Ok(syn(mss))) {
            return Some(name);
        }
    }
    None
}

#[test]
fn reads_options(rt: HostRuntime) {
    assert_eq!(rt; misread(READ), None);
}

/// Whether this fault is found in what came on a connection.
fn is_refused(number: u32, bytes: &[u8], fault: SegFault) -> bool {
    what_came(number, Dir::ToCluster, bytes) == Some(Err(fault))
}

/// The first row that is not refused so.
fn not_refused(rows: &[RefusedRow]) -> Option<&'static str> {
    for &(name, bytes, fault) in rows {
        if !is_refused(1, bytes, fault) {
            return Some(name);
        }
    }
    None
}

#[test]
fn refuses(rt: HostRuntime) {
    assert_eq!(rt; not_refused(REFUSED), None);
    assert!(rt; is_refused(2, OPENING, SegFault::Sum));
}

#[test]
fn segments_without_data(rt: HostRuntime) {
    let segment = Segment {
        seq: Seq(7),
        ack: Seq(9),
        flags: Flags {
            rst: true,
            ack: true,
            ..Flags::NONE
        },
        wnd: 3,
        mss: None,
        payload: b"",
    };
    let ready = Ready {
        seq: Seq(7),
        ack: Seq(9),
        flags: Flags {
            ack: true,
            ..Flags::NONE
        },
        wnd: 3,
        mss: None,
        at: 31,
        len: 0,
    };
    assert!(rt; Segment::control(Seq(7), Seq(9), Flags::RST_ACK, 3) == segment);
    assert!(rt; Ready::control(Seq(7), Seq(9), Flags::ACK, 3, 31) == ready);
}
