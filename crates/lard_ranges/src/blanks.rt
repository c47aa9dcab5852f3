//! The blanks around a value (RFC 9110, 5.6.3).

ghost use Rattle.std.specs.Prelude.{◌≡◌, reverse};
ghost use Rattle.httparse.specs.Grammar.{is_ows, skip_ows, trim_ows};

/// A space or a tab.
fn is_blank(byte: u8) -> bool
    ensures { result ≡ is_ows byte }
{
    byte == b' ' || byte == b'\t'
}

/// The bytes from the first that is no space or tab.
fn without_front(bytes: &[u8]) -> &[u8]
    ensures { result.now ≡ skip_ows bytes.now }
{
    let mut rest = bytes;
    while let Some((first, behind)) = rest.split_first() {
        if !is_blank(*first) {
            break;
        }
        rest = behind;
    }
    rest
}

/// The bytes up to the last that is no space or tab.
fn without_end(bytes: &[u8]) -> &[u8]
    ensures { result.now ≡ reverse (skip_ows (reverse bytes.now)) }
{
    let mut rest = bytes;
    while let Some((last, before)) = rest.split_last() {
        if !is_blank(*last) {
            break;
        }
        rest = before;
    }
    rest
}

/// The bytes without the spaces and tabs around them.
#[tactic(auto, unfolding(httparse::specs::Grammar::trim_ows))]
pub fn trimmed(bytes: &[u8]) -> &[u8]
    ensures { result.now ≡ trim_ows bytes.now }
{
    without_end(without_front(bytes))
}
