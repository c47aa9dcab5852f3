//! What the values of fields say.

ghost use Rattle.std.specs.Prelude.{◌≡◌, ◌==◌, ◌||◌, reverse, codes};
ghost use Rattle.std.specs.Str.{str_eq_ignore_ascii_case};
ghost use Rattle.httparse.specs.Grammar.{is_ows, skip_ows, trim_ows};
ghost use Rattle.lard_request.specs.Fields.{is_host_byte, is_host, is_close, lists_close};

/// A space or a tab.
fn is_blank(byte: u8) -> bool
    ensures { result ≡ is_ows byte }
{
    byte == b' ' || byte == b'\t'
}

/// The bytes from the first that is no space or tab.
fn without_front(bytes: &[u8]) -> &[u8]
    ensures { result.now ≡ skip_ows bytes.now }
{
    let mut rest = bytes;
    while let Some((first, behind)) = rest.split_first() {
        if !is_blank(*first) {
            break;
        }
        rest = behind;
    }
    rest
}

/// The bytes up to the last that is no space or tab.
fn without_end(bytes: &[u8]) -> &[u8]
    ensures { result.now ≡ reverse (skip_ows (reverse bytes.now)) }
{
    let mut rest = bytes;
    while let Some((last, before)) = rest.split_last() {
        if !is_blank(*last) {
            break;
        }
        rest = before;
    }
    rest
}

/// The bytes without the spaces and tabs around them.
#[tactic(auto, unfolding(httparse::specs::Grammar::trim_ows))]
fn trimmed(bytes: &[u8]) -> &[u8]
    ensures { result.now ≡ trim_ows bytes.now }
{
    without_end(without_front(bytes))
}

/// Whether the bytes are this word, in any case of the letters of either.
pub(crate) fn is_word(bytes: &[u8], word: &[u8]) -> bool
    ensures { result ≡ str_eq_ignore_ascii_case word.now bytes.now }
{
    bytes.eq_ignore_ascii_case(word)
}

/// A byte of a host or a port (RFC 3986, 3.2.2).
fn may_stand_in_host(byte: u8) -> bool
    ensures { result ≡ is_host_byte byte }
{
    byte.is_ascii_alphanumeric() || b"-._~!$&'()*+,;=:[]%".contains(&byte)
}

/// Whether each byte may stand in a host or a port.
pub(crate) fn names_host(value: &[u8]) -> bool
    ensures { result ≡ is_host value.now }
{
    value.iter().all(|byte| may_stand_in_host(*byte))
}

/// Whether a member of a list is `close`, in any case of its letters.
#[tactic(auto, unfolding(crate::specs::Fields::is_close))]
fn is_close_word(member: &[u8]) -> bool
    ensures { result ≡ is_close member.now }
{
    is_word(trimmed(member), b"close")
}

/// Whether a member of the list between commas is `close`.
pub(crate) fn has_close(value: &[u8]) -> bool
    ensures { result ≡ lists_close value.now }
{
    value
        .split(|byte| *byte == b',')
        .any(|member| is_close_word(member))
}
