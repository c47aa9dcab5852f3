//! A text that is written word by word.

ghost use Rattle.std.specs.Prelude.{◌≡◌, ◌++◌, OnOk, OnErr, decimal};
ghost use Rattle.hex.specs.Hex.{encode_lower};
ghost use Rattle.lard_base.specs.Spelling.{spaced, place_word};
ghost use Rattle.lard_journal.specs.Report.{node_word, choice_word, via_word, kind_word};
ghost use Rattle.lard_journal.specs.Text.{BeginsWith};

use itoa::{Buffer, Integer};
use lard_base::{ConnId, NoMemory, NodeId, Path, Place, TimerKind, Via};

/// Appends bytes as they are. Without memory a part of them stands behind the text.
pub fn bytes(out: &mut Vec<u8>, bytes: &[u8]) -> Result<(), NoMemory>
    ensures ok { OnOk result (out.new.items ≡ out.old.items ++ bytes.now) }
    ensures err { OnErr result (BeginsWith out.old.items out.new.items) }
{
    out.extend_from_slice(bytes)?;
    Ok(())
}

/// Appends a space and a word. Without memory a part of it stands behind the text.
pub fn word(out: &mut Vec<u8>, word: &[u8]) -> Result<(), NoMemory>
    ensures ok { OnOk result (out.new.items ≡ spaced out.old.items word.now) }
    ensures err { OnErr result (BeginsWith out.old.items out.new.items) }
{
    out.push(b' ')?;
    bytes(out, word)
}

/// Appends a space and a number in decimal. Without memory a part of it stands behind the text.
pub fn number<I: Integer>(out: &mut Vec<u8>, n: I) -> Result<(), NoMemory>
    ensures ok { OnOk result (out.new.items ≡ spaced out.old.items (I.text n)) }
    ensures err { OnErr result (BeginsWith out.old.items out.new.items) }
{
    let mut buffer = Buffer::new();
    word(out, buffer.format(n).as_bytes())
}

/// Appends a space, a tag and a number in decimal.
fn tagged(out: &mut Vec<u8>, tag: &[u8], n: u32) -> Result<(), NoMemory>
    ensures ok { OnOk result (out.new.items ≡ spaced out.old.items (tag.now ++ decimal n)) }
    ensures err { OnErr result (BeginsWith out.old.items out.new.items) }
{
    let mut buffer = Buffer::new();
    word(out, tag)?;
    bytes(out, buffer.format(n).as_bytes())
}

/// Appends a connection's number. Without memory a part of it stands behind the text.
pub fn connection(out: &mut Vec<u8>, c: ConnId) -> Result<(), NoMemory>
    ensures ok { OnOk result (out.new.items ≡ spaced out.old.items (decimal c)) }
    ensures err { OnErr result (BeginsWith out.old.items out.new.items) }
{
    number(out, c.number())
}

/// Appends a node as a place. Without memory a part of it stands behind the text.
pub fn node(out: &mut Vec<u8>, n: NodeId) -> Result<(), NoMemory>
    ensures ok { OnOk result (out.new.items ≡ spaced out.old.items (node_word n)) }
    ensures err { OnErr result (BeginsWith out.old.items out.new.items) }
{
    tagged(out, b"n", n.number())
}

/// Appends a place. Without memory a part of it stands behind the text.
pub fn place(out: &mut Vec<u8>, place: Place) -> Result<(), NoMemory>
    ensures ok { OnOk result (out.new.items ≡ spaced out.old.items (place_word place)) }
    ensures err { OnErr result (BeginsWith out.old.items out.new.items) }
{
    match place {
        Place::Front => word(out, b"front"),
        Place::Node(n) => node(out, n),
        Place::Client(c) => tagged(out, b"c", c.number()),
    }
}

/// Appends the number of a node, or `-` where there is none. Without memory a part of it stands behind the text.
pub fn choice(out: &mut Vec<u8>, n: Option<NodeId>) -> Result<(), NoMemory>
    ensures ok { OnOk result (out.new.items ≡ spaced out.old.items (choice_word n)) }
    ensures err { OnErr result (BeginsWith out.old.items out.new.items) }
{
    match n {
        Some(n) => number(out, n.number()),
        None => word(out, b"-"),
    }
}

/// Appends where a response's content came from. Without memory a part of it stands behind the text.
pub fn via(out: &mut Vec<u8>, via: Via) -> Result<(), NoMemory>
    ensures ok { OnOk result (out.new.items ≡ spaced out.old.items (via_word via)) }
    ensures err { OnErr result (BeginsWith out.old.items out.new.items) }
{
    match via {
        Via::Own => word(out, b"own"),
        Via::Cache => word(out, b"cache"),
        Via::Disk => word(out, b"disk"),
        Via::Node(m) => tagged(out, b"node", m.number()),
    }
}

/// Appends the kind of a timer. Without memory a part of it stands behind the text.
pub fn kind(out: &mut Vec<u8>, kind: TimerKind) -> Result<(), NoMemory>
    ensures ok { OnOk result (out.new.items ≡ spaced out.old.items (kind_word kind)) }
    ensures err { OnErr result (BeginsWith out.old.items out.new.items) }
{
    match kind {
        TimerKind::Tcp => word(out, b"tcp"),
        TimerKind::Offer => word(out, b"offer"),
        TimerKind::Ask => word(out, b"ask"),
        TimerKind::Fetch => word(out, b"fetch"),
        TimerKind::Ended => word(out, b"ended"),
        TimerKind::Give => word(out, b"give"),
    }
}

/// Appends a path. Without memory a part of it stands behind the text.
pub fn path(out: &mut Vec<u8>, path: &Path) -> Result<(), NoMemory>
    ensures ok { OnOk result (out.new.items ≡ spaced out.old.items path.now) }
    ensures err { OnErr result (BeginsWith out.old.items out.new.items) }
{
    word(out, path.as_slice())
}

/// Appends bytes in lower case hexadecimal. Without memory a part of them stands behind the text.
pub fn hex(out: &mut Vec<u8>, bytes: &[u8]) -> Result<(), NoMemory>
    ensures ok { OnOk result (out.new.items ≡ spaced out.old.items (encode_lower bytes.now)) }
    ensures err { OnErr result (BeginsWith out.old.items out.new.items) }
{
    out.push(b' ')?;
    let start = out.len();
    let Some(digits) = bytes.len().checked_mul(2) else {
        return Err(NoMemory);
    };
    let Some(end) = start.checked_add(digits) else {
        return Err(NoMemory);
    };
    out.resize(end, 0)?;
    hex::encode_to_slice(bytes, &mut out[start..]).unwrap();
    Ok(())
}
