//! Line ends: how many there are, and whether one is an LF alone.

ghost use Rattle.std.specs.Prelude.{◌≡◌, false};
ghost use Rattle.lard_request.specs.Verdict.{pairs_in, has_bare_feed};

/// How many pairs CR LF stand in the bytes.
pub(crate) fn count_pairs(bytes: &[u8]) -> usize
    ensures { result ≡ pairs_in bytes.now }
{
    let mut count = 0;
    for at in 0..bytes.len() {
        if bytes[at..].starts_with(b"\r\n") {
            count += 1;
        }
    }
    count
}

/// Whether an LF stands without a CR before it.
pub(crate) fn holds_bare_feed(bytes: &[u8]) -> bool
    ensures { result ≡ has_bare_feed false bytes.now }
{
    let mut after_return = false;
    for byte in bytes {
        if *byte == b'\n' && !after_return {
            return true;
        }
        after_return = *byte == b'\r';
    }
    false
}
