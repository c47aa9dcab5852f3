//! Where the program reads and where it writes: a source and a sink that count their faults.

ghost use Rattle.std.specs.Prelude.{◌≡◌, ℕ, ◌≤◌, ◌<◌, List, length, Option, IfOk, OnOk, OnErr};
ghost use Rattle.std.specs.Io.{ReadsAtMost, WritesAtMost};
ghost use Rattle.std.specs.Io.KnownBytes.{ReadConsumes, WriteAppends, Appends};
ghost use Rattle.lard_base.specs.Causes.{HasCause};
ghost use Rattle.lard_base.specs.Outside.{WrotePrefix};

use crate::errors::Failed;

/// Where bytes come from.
pub trait Source {
    /// The bytes that are left, where it tells them.
    ghost left: { Self → Option (List ℕ) };

    /// How often it failed. The count never falls, and stays at the greatest u64.
    ghost faults: { Self → ℕ };

    /// Fills the front of the buffer with the next bytes, and answers how many they are. An answer of 0 for a buffer
    /// that is not empty is the end of input. The count of faults rises where it fails, and in no other call: it
    /// answers `Failed`, and has taken no byte.
    fn read(&mut self, buf: &mut [u8]) -> Result<usize, Failed>
        ensures bound { ReadsAtMost result buf.new }
        ensures bytes { ReadConsumes (left self.old) (left self.new) result buf.new }
        ensures cause { HasCause (faults self.old) (faults self.new) result };
}

/// Where bytes go to.
pub trait Sink {
    /// The bytes written so far, where it tells them.
    ghost written: { Self → Option (List ℕ) };

    /// How often it failed. The count never falls, and stays at the greatest u64.
    ghost faults: { Self → ℕ };

    /// Takes bytes from the front of the piece, and answers how many: at least one where the piece is not empty. The
    /// count of faults rises where it fails, and in no other call: it answers `Failed`, and has taken nothing.
    fn write(&mut self, bytes: &[u8]) -> Result<usize, Failed>
        ensures bound { WritesAtMost result bytes.now }
        ensures some { IfOk result (λ n. 0 < length bytes.now → 0 < n) }
        ensures bytes { WriteAppends (written self.old) (written self.new) result bytes.now }
        ensures cause { HasCause (faults self.old) (faults self.new) result };
}

/// Writes all bytes, in as many calls as it takes. The first of them that fails ends it by `Failed`, and a prefix of
/// the bytes was written then.
pub fn write_all<K: Sink>(sink: &mut K, bytes: &[u8]) -> Result<(), Failed>
    ensures ok { OnOk result (Appends (K.written sink.old) (K.written sink.new) bytes.now) }
    ensures err { OnErr result (WrotePrefix (K.written sink.old) (K.written sink.new) bytes.now) }
    ensures cause { HasCause (K.faults sink.old) (K.faults sink.new) result }
{
    let mut done = 0;
    while done < bytes.len() {
        done += sink.write(&bytes[done..])?;
    }
    Ok(())
}
