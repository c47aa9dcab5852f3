//! Reading a whole input, up to a limit.

ghost use Rattle.std.specs.Prelude.{◌≡◌, ℕ, ◌+◌, ◌^◌, ◌<◌, ◌≤◌, ◌⊎◌, vec_len, IfOk, OnOk, OnErr, IsErrOf};
ghost use Rattle.std.specs.Io.KnownBytes.{Keeps, IsAtEnd};
ghost use Rattle.lard_base.specs.Causes.{Rose};
ghost use Rattle.lard_base.specs.Outside.{TakesIn};

use crate::errors::Failed;
use crate::outside::Source;

/// How many bytes one call asks the source for at most.
pub const PIECE: usize = 65_536;

/// Why an input could not be read to its end. The bytes that came before are kept.
#[derive(Clone, Copy, Debug, PartialEq, Eq)]
pub enum InputFault {
    Failed,
    NoMemory,
}

/// Adds the source's bytes to the end of the text, until they end or the text has `limit + 1` bytes. It takes no byte
/// more than that from the source, and keeps each that it takes, also where it fails. The first call that fails ends it
/// by `Failed`, and want of memory by `NoMemory`. The limit is below 2^32, and the text has at most `limit + 1` bytes
/// before.
pub fn read_up_to<S: Source>(
    source: &mut S,
    text: &mut Vec<u8>,
    limit: usize,
) -> Result<(), InputFault>
    requires small { limit < 2 ^ 32 }
    requires within { vec_len text.old ≤ limit + 1 }
    ensures taken { TakesIn (S.left source.old) (S.left source.new) text.old.items text.new.items }
    ensures bound { vec_len text.new ≤ limit + 1 }
    ensures ok { OnOk result (IsAtEnd (S.left source.new) ⊎ (vec_len text.new ≡ limit + 1)) }
    ensures failed { IsErrOf result InputFault.Failed → Rose (S.faults source.old) (S.faults source.new) }
    ensures later { S.faults source.old ≤ S.faults source.new }
    ensures same { ¬ (IsErrOf result InputFault.Failed) → S.faults source.new ≡ S.faults source.old }
{
    while text.len() <= limit {
        let room = PIECE.min(limit + 1 - text.len());
        if read_piece(source, text, room)? == 0 {
            return Ok(());
        }
    }
    Ok(())
}

/// Adds the bytes of one read to the end of the text, and answers how many they are.
fn read_piece<S: Source>(
    source: &mut S,
    text: &mut Vec<u8>,
    room: usize,
) -> Result<usize, InputFault>
    requires some { 0 < room }
    requires small { room ≤ 65536 }
    requires fits { vec_len text.old < 2 ^ 33 }
    ensures taken { TakesIn (S.left source.old) (S.left source.new) text.old.items text.new.items }
    ensures bound { IfOk result (λ n. n ≤ room) }
    ensures count { IfOk result (λ n. vec_len text.new ≡ vec_len text.old + n) }
    ensures end { IfOk result (λ n. n ≡ 0 → IsAtEnd (S.left source.new)) }
    ensures err { OnErr result (vec_len text.new ≡ vec_len text.old) }
    ensures failed { IsErrOf result InputFault.Failed → Rose (S.faults source.old) (S.faults source.new) }
    ensures later { S.faults source.old ≤ S.faults source.new }
    ensures same { ¬ (IsErrOf result InputFault.Failed) → S.faults source.new ≡ S.faults source.old }
{
    let len = text.len();
    if text.resize(len + room, 0).is_err() {
        return Err(InputFault::NoMemory);
    }
    match source.read(&mut text.as_mut_slice()[len..]) {
        Ok(n) => {
            text.truncate(len + n);
            return Ok(n);
        }
        Err(Failed) => {
            text.truncate(len);
            return Err(InputFault::Failed);
        }
    }
}
