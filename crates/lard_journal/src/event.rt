//! The words of an event.

ghost use Rattle.std.specs.Prelude.{◌≡◌, [], ◌∷◌, OnOk, OnErr, codes, decimal};
ghost use Rattle.std.specs.List.{fold};
ghost use Rattle.hex.specs.Hex.{encode_lower};
ghost use Rattle.lard_base.specs.Spelling.{spaced, place_word, event_words};
ghost use Rattle.lard_journal.specs.Text.{BeginsWith};

use crate::text::{connection, hex, number, path, place, word};
use lard_base::{ConnId, Event, NoMemory, Path, Place};

/// Appends an event's words, each behind a space. Without memory a part of them stands behind the text.
pub fn event(out: &mut Vec<u8>, event: &Event) -> Result<(), NoMemory>
    ensures ok { OnOk result (out.new.items ≡ fold spaced out.old.items (event_words event.now)) }
    ensures err { OnErr result (BeginsWith out.old.items out.new.items) }
{
    match event {
        Event::Open {
            c,
            isn,
            iss,
            wnd,
            mss,
        } => {
            word(out, b"open")?;
            offered(out, *c, *isn, *iss, u32::from(*wnd), u32::from(*mss))
        }
        Event::Get { c, path } => get(out, *c, path),
        Event::Write { c, bytes } => of_bytes(out, b"write", *c, bytes.as_slice()),
        Event::Shut(c) => of_connection(out, b"shut", *c),
        Event::Abort(c) => of_connection(out, b"abort", *c),
        Event::Hold(c) => of_connection(out, b"hold", *c),
        Event::Take(c) => of_connection(out, b"take", *c),
        Event::Deliver(k) => of_number(out, b"deliver", *k),
        Event::Lose(k) => of_number(out, b"lose", *k),
        Event::Timer { place, c } => timer(out, *place, *c),
        Event::Disk { n, j } => disk(out, *n, *j),
        Event::Drain(n) => of_number(out, b"drain", *n),
        Event::Clock(ms) => of_number(out, b"clock", *ms),
        Event::Settle(rounds) => of_number(out, b"settle", *rounds),
        Event::Inject { c, bytes } => of_bytes(out, b"inject", *c, bytes.as_slice()),
    }
}

/// Appends what a client opens with: its number, both initial sequence numbers, its window and its maximum segment
/// size. Without memory a part of it stands behind the text.
pub fn offered(
    out: &mut Vec<u8>,
    c: ConnId,
    isn: u32,
    iss: u32,
    wnd: u32,
    mss: u32,
) -> Result<(), NoMemory>
    ensures ok { OnOk result (out.new.items ≡ fold spaced out.old.items
        (decimal c ∷ decimal isn ∷ decimal iss ∷ decimal wnd ∷ decimal mss ∷ [])) }
    ensures err { OnErr result (BeginsWith out.old.items out.new.items) }
{
    connection(out, c)?;
    number(out, isn)?;
    number(out, iss)?;
    number(out, wnd)?;
    number(out, mss)
}

fn get(out: &mut Vec<u8>, c: ConnId, target: &Path) -> Result<(), NoMemory>
    ensures ok { OnOk result (out.new.items ≡ fold spaced out.old.items
        (codes "get" ∷ decimal c ∷ target.now ∷ [])) }
    ensures err { OnErr result (BeginsWith out.old.items out.new.items) }
{
    word(out, b"get")?;
    connection(out, c)?;
    path(out, target)
}

fn timer(out: &mut Vec<u8>, at: Place, c: ConnId) -> Result<(), NoMemory>
    ensures ok { OnOk result (out.new.items ≡ fold spaced out.old.items
        (codes "timer" ∷ place_word at ∷ decimal c ∷ [])) }
    ensures err { OnErr result (BeginsWith out.old.items out.new.items) }
{
    word(out, b"timer")?;
    place(out, at)?;
    connection(out, c)
}

fn disk(out: &mut Vec<u8>, n: u32, j: u32) -> Result<(), NoMemory>
    ensures ok { OnOk result (out.new.items ≡ fold spaced out.old.items
        (codes "disk" ∷ decimal n ∷ decimal j ∷ [])) }
    ensures err { OnErr result (BeginsWith out.old.items out.new.items) }
{
    word(out, b"disk")?;
    number(out, n)?;
    number(out, j)
}

fn of_connection(out: &mut Vec<u8>, name: &[u8], c: ConnId) -> Result<(), NoMemory>
    ensures ok { OnOk result (out.new.items ≡ fold spaced out.old.items (name.now ∷ decimal c ∷ [])) }
    ensures err { OnErr result (BeginsWith out.old.items out.new.items) }
{
    word(out, name)?;
    connection(out, c)
}

fn of_number(out: &mut Vec<u8>, name: &[u8], n: u32) -> Result<(), NoMemory>
    ensures ok { OnOk result (out.new.items ≡ fold spaced out.old.items (name.now ∷ decimal n ∷ [])) }
    ensures err { OnErr result (BeginsWith out.old.items out.new.items) }
{
    word(out, name)?;
    number(out, n)
}

fn of_bytes(out: &mut Vec<u8>, name: &[u8], c: ConnId, bytes: &[u8]) -> Result<(), NoMemory>
    ensures ok { OnOk result (out.new.items ≡ fold spaced out.old.items
        (name.now ∷ decimal c ∷ encode_lower bytes.now ∷ [])) }
    ensures err { OnErr result (BeginsWith out.old.items out.new.items) }
{
    word(out, name)?;
    connection(out, c)?;
    hex(out, bytes)
}
