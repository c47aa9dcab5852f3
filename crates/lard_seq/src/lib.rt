//! Sequence numbers, which are counted modulo 2^32 (RFC 9293, 3.4).
//!
//! It stands at the bottom of the path and calls nothing: `lard_segment` writes and reads these numbers,
//! and the halves of an endpoint compare them by their offsets from a base, never one with the other.
#![tactic(auto)]

ghost use Rattle.std.specs.Prelude.{◌≡◌, ◌<◌, ◌↔◌, IsTrue};
ghost use Rattle.lard_seq.specs.Seq.{seq_add, seq_offset, OffsetIsWhatWasAdded, OffsetLeadsBack, AddsInOneGo, OffsetsCompose};

/// A sequence number. It has 32 bits (RFC 9293, 3.4).
#[derive(Clone, Copy, Debug, PartialEq, Eq)]
pub struct Seq(pub u32);

impl Seq {
    /// The number that is `n` after this one, modulo 2^32 (RFC 9293, 3.4).
    pub fn add(self, n: u32) -> Seq
        ensures { result.0 ≡ seq_add self.0 n }
    {
        Seq(self.0.wrapping_add(n))
    }

    /// How far this number is after `base`, modulo 2^32 (RFC 9293, 3.4).
    pub fn offset_from(self, base: Seq) -> u32
        ensures { result ≡ seq_offset self.0 base.0 }
    {
        self.0.wrapping_sub(base.0)
    }

    /// Whether this is one of the `size` numbers from `first` on, which may begin again behind 2^32 - 1
    /// (RFC 9293, 3.4).
    pub fn in_window(self, first: Seq, size: u32) -> bool
        ensures { IsTrue result ↔ (seq_offset self.0 first.0 < size) }
    {
        self.offset_from(first) < size
    }
}

/// The offset from a base of what is n after the base is n.
pub fn offset_is_what_was_added()
    ensures { OffsetIsWhatWasAdded }
{}

/// A base and a number's offset from it give the number again.
pub fn offset_leads_back()
    ensures { OffsetLeadsBack }
{}

/// To add one number and then another is to add their sum.
pub fn adds_in_one_go()
    ensures { AddsInOneGo }
{}

/// Offsets add up along a chain of bases, as long as their sum stays below 2^32.
pub fn offsets_compose()
    ensures { OffsetsCompose }
{}
