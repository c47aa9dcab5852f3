//! The policies, and the hash of a path.

ghost use Rattle.std.specs.Prelude.{◌≡◌, ◌^◌, ◌<◌};
ghost use Rattle.lard_lab.specs.Policy.{hash_of, hash_on, policy_word};

/// How the node of a request is chosen.
#[derive(Clone, Copy, Debug, PartialEq, Eq)]
pub enum Policy {
    /// Round robin: the nodes in turn.
    Rr,
    /// By the path alone, by a hash of its bytes.
    Hash,
    /// Basic LARD (ASPLOS 1998, figure 2): each target has one server.
    Lard,
    /// LARD with replication (ASPLOS 1998, figure 3): each target has a set of servers.
    LardR,
}

impl Policy {
    /// The policy's word: `rr`, `hash`, `lard` or `lardr`.
    pub fn word(self) -> &'static str
        ensures { result.now ≡ policy_word self }
    {
        match self {
            Policy::Rr => "rr",
            Policy::Hash => "hash",
            Policy::Lard => "lard",
            Policy::LardR => "lardr",
        }
    }
}

/// The hash of a path: it begins with 0, and each byte makes 31 times itself and the byte of it, modulo 2^32.
pub fn hash_of(path: &[u8]) -> u32
    ensures { result ≡ hash_of path.now }
{
    path.iter().fold(0, |hash, byte| hash_on(hash, *byte))
}

/// A hash with one byte more.
fn hash_on(hash: u32, byte: u8) -> u32
    ensures { result ≡ hash_on hash byte }
{
    ((31 * u64::from(hash) + u64::from(byte)) % (1 << 32)) as u32
}
