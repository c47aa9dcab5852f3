//! The limits of a run, which are looked at before each step.

ghost use Rattle.std.specs.Prelude.{◌≡◌};
ghost use Rattle.lard_rules.specs.Limits.{limit_of};

use crate::fault::What;
use lard_base::limits::{MAX_PACKET_BYTES, MAX_PACKETS, MAX_RECORDS, MAX_RESPONSE_BYTES};

/// The first limit that a run has reached: of so many packets, bytes of packets, records of the journal, and bytes of
/// responses. `None` where it has reached none.
pub fn first_limit(
    packets: u32,
    packet_bytes: u64,
    records: u64,
    response_bytes: u64,
) -> Option<What>
    ensures { result ≡ limit_of packets packet_bytes records response_bytes }
{
    if packets >= MAX_PACKETS {
        return Some(What::Packets);
    }
    if packet_bytes >= MAX_PACKET_BYTES {
        return Some(What::PacketBytes);
    }
    if records >= MAX_RECORDS {
        return Some(What::Records);
    }
    if response_bytes >= MAX_RESPONSE_BYTES {
        return Some(What::Answers);
    }
    None
}
