//! The cut of one block.

ghost use Rattle.std.specs.Prelude.{◌≡◌, ◌≤◌, length};
ghost use Rattle.lard_block.specs.Blocks.{cut_of, skipped, head_end, IsWithin};

/// The most bytes of a block: of a request's head, with the empty line that ends it.
pub const MAX_HEAD_BYTES: usize = 8_192;

/// What is found at the front of some bytes. Each of the answers has the number of bytes that are skipped there: the
/// bytes of leading pairs CR LF (RFC 9112, 2.2).
#[derive(Clone, Copy, Debug, PartialEq, Eq)]
pub enum Found {
    /// A block of `len` bytes, at most 8,192, the last four of which are the first CR LF CR LF.
    Block { skip: usize, len: usize },
    /// No end yet, and fewer than 8,192 bytes behind the skipped ones: more may come.
    More { skip: usize },
    /// No end within the first 8,192 bytes behind the skipped ones.
    TooLong { skip: usize },
}

/// The block at the front of these bytes (RFC 9112, 2.1). Leading pairs CR LF are skipped (RFC 9112, 2.2). Where the
/// first CR LF CR LF behind them ends within 8,192 bytes, these bytes are the block. It takes no memory, and looks at
/// no more than 8,192 bytes behind the skipped ones.
pub fn cut(bytes: &[u8]) -> Found
    ensures value { result ≡ cut_of bytes.now }
    ensures within { IsWithin result (length bytes.now) }
{
    let skip = leading_pairs(bytes);
    let rest = &bytes[skip..];
    let front = &rest[..rest.len().min(MAX_HEAD_BYTES)];
    match first_end(front) {
        Some(len) => Found::Block { skip, len },
        None if rest.len() < MAX_HEAD_BYTES => Found::More { skip },
        None => Found::TooLong { skip },
    }
}

/// How many bytes the leading pairs CR LF have.
fn leading_pairs(bytes: &[u8]) -> usize
    ensures within { result ≤ length bytes.now }
    ensures value { result ≡ skipped bytes.now }
{
    let mut skip = 0;
    while bytes[skip..].starts_with(b"\r\n") {
        skip += 2;
    }
    skip
}

/// The place behind the first CR LF CR LF.
fn first_end(bytes: &[u8]) -> Option<usize>
    ensures { result ≡ head_end bytes.now }
{
    for at in 0..bytes.len() {
        if bytes[at..].starts_with(b"\r\n\r\n") {
            return Some(at + 4);
        }
    }
    None
}
