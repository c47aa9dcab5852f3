//! Where the parts of a segment stand in its bytes (RFC 9293, 3.1).

ghost use Rattle.std.specs.Prelude.{◌≡◌, ◌+◌, ◌≤◌, length};
ghost use Rattle.lard_segment.specs.Fields.{word_at, double_word_at, flags_of, flags_byte, source_port, target_port};

use crate::segment::{Dir, Flags};

/// The length of a header without options.
pub const FIXED: usize = 20;
/// The place of the source port, of 16 bits.
pub const SOURCE: usize = 0;
/// The place of the destination port, of 16 bits.
pub const TARGET: usize = 2;
/// The place of the sequence number, of 32 bits.
pub const SEQ: usize = 4;
/// The place of the acknowledgement number, of 32 bits.
pub const ACK_NUMBER: usize = 8;
/// The place of the byte with the data offset in its upper four bits.
pub const OFFSET: usize = 12;
/// The place of the byte with the control bits.
pub const CONTROL: usize = 13;
/// The place of the window, of 16 bits.
pub const WINDOW: usize = 14;
/// The place of the checksum, of 16 bits; the urgent pointer stands behind it.
pub const CHECKSUM: usize = 16;
/// The port that the cluster listens on.
pub const CLUSTER_PORT: u16 = 80;
/// The port that each client opens its connection from.
pub const CLIENT_PORT: u16 = 40_000;

const FIN: u8 = 1;

const SYN: u8 = 2;

const RST: u8 = 4;

const PSH: u8 = 8;

const ACK: u8 = 16;

/// The word of 16 bits at this place, counted in bytes from 0, its high byte first. Its bytes are there.
pub fn word(bytes: &[u8], at: usize) -> u16
    requires { at + 2 ≤ length bytes.now }
    ensures { result ≡ word_at bytes.now at }
{
    u16::from_be_bytes([bytes[at], bytes[at + 1]])
}

/// The number of 32 bits at this place, counted in bytes from 0, its high byte first. Its bytes are there.
pub fn number(bytes: &[u8], at: usize) -> u32
    requires { at + 4 ≤ length bytes.now }
    ensures { result ≡ double_word_at bytes.now at }
{
    u32::from_be_bytes([bytes[at], bytes[at + 1], bytes[at + 2], bytes[at + 3]])
}

/// The control bits in their byte (RFC 9293, 3.1). The three that the cluster doesn't speak of are ignored.
pub fn flags(byte: u8) -> Flags
    ensures { result ≡ flags_of byte }
{
    Flags {
        syn: byte & SYN != 0,
        ack: byte & ACK != 0,
        fin: byte & FIN != 0,
        rst: byte & RST != 0,
        psh: byte & PSH != 0,
    }
}

/// The byte of these control bits (RFC 9293, 3.1).
pub fn byte(flags: Flags) -> u8
    ensures { result ≡ flags_byte flags }
{
    u8::from(flags.fin) * FIN
        + u8::from(flags.syn) * SYN
        + u8::from(flags.rst) * RST
        + u8::from(flags.psh) * PSH
        + u8::from(flags.ack) * ACK
}

/// The port that a segment of this direction comes from.
pub fn source(dir: Dir) -> u16
    ensures { result ≡ source_port dir }
{
    match dir {
        Dir::ToCluster => CLIENT_PORT,
        Dir::ToClient => CLUSTER_PORT,
    }
}

/// The port that a segment of this direction goes to.
pub fn target(dir: Dir) -> u16
    ensures { result ≡ target_port dir }
{
    match dir {
        Dir::ToCluster => CLUSTER_PORT,
        Dir::ToClient => CLIENT_PORT,
    }
}
