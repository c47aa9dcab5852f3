//! Lists in bodies: so many paths or nodes, one after the other.

ghost use Rattle.std.specs.Prelude.{◌≡◌};
ghost use Rattle.lard_message.specs.Reading.{Reads, paths_at, nodes_of};

use crate::fault::MsgFault;
use crate::numbers::{counted, node};
use lard_base::{Nodes, Path, Paths};
use std::alloc::Global;

/// So many paths, each behind its length, and the bytes after them. `Field` where there are fewer, `NoMemory` where
/// memory runs out.
pub fn paths(alloc: Global, count: u8, bytes: &[u8]) -> Result<(Paths, &[u8]), MsgFault>
    ensures { Reads (λ x. (x.0, x.1.now)) result (paths_at count bytes.now) }
{
    let mut paths = Paths::new(alloc);
    let mut rest = bytes;
    for _ in 0..count {
        let (path, after) = counted(rest)?;
        paths.push(Path::from_slice(alloc, path)?)?;
        rest = after;
    }
    Ok((paths, rest))
}

/// The nodes of these bytes, one each. `Field` where a byte is not 1 to 64, `NoMemory` where memory runs out.
pub fn nodes(alloc: Global, bytes: &[u8]) -> Result<Nodes, MsgFault>
    ensures { Reads (λ x. x) result (nodes_of bytes.now) }
{
    let mut nodes = Nodes::new(alloc);
    for byte in bytes {
        nodes.push(node(*byte)?)?;
    }
    Ok(nodes)
}
