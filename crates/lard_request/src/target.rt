//! The path that a target names.

ghost use Rattle.std.specs.Prelude.{◌≡◌, ◌≤◌, length, position, option_copied};
ghost use Rattle.lard_request.specs.Target.{is_query, without_query, ends_authority, authority_len, path_behind, absolute_path, path_of};

use crate::values::is_word;

/// Where the first `?` stands.
fn place_of_query(target: &[u8]) -> Option<usize>
    ensures { result ≡ position is_query target.now }
{
    target.iter().position(|byte| *byte == b'?')
}

/// The target up to its first `?`.
fn before_query(target: &[u8]) -> &[u8]
    ensures { result.now ≡ without_query target.now }
{
    match place_of_query(target) {
        Some(end) => &target[..end],
        None => target,
    }
}

/// Where the first `/` or `?` stands.
fn end_of_authority(rest: &[u8]) -> Option<usize>
    ensures { result ≡ position ends_authority rest.now }
{
    rest.iter().position(|byte| *byte == b'/' || *byte == b'?')
}

/// How many bytes the authority at the front has.
fn len_of_authority(rest: &[u8]) -> usize
    ensures value { result ≡ authority_len rest.now }
    ensures within { result ≤ length rest.now }
{
    end_of_authority(rest).unwrap_or(rest.len())
}

/// The path behind an authority.
fn behind_authority(rest: &[u8]) -> &[u8]
    ensures { result.now ≡ path_behind rest.now }
{
    if rest.starts_with(b"/") {
        before_query(rest)
    } else {
        b"/"
    }
}

/// The path of a target in absolute-form, from the bytes behind its `http://`.
fn path_of_absolute(rest: &[u8]) -> Option<&[u8]>
    ensures { option_copied result ≡ absolute_path rest.now }
{
    let len = len_of_authority(rest);
    if len == 0 {
        return None;
    }
    Some(behind_authority(&rest[len..]))
}

/// The path that a target in origin-form or absolute-form asks for (RFC 9112, 3.2).
pub(crate) fn path_of_target(target: &[u8]) -> Option<&[u8]>
    ensures { option_copied result ≡ path_of target.now }
{
    if target.starts_with(b"/") {
        return Some(before_query(target));
    }
    let (scheme, rest) = target.split_at(target.len().min(7));
    if !is_word(scheme, b"http://") {
        return None;
    }
    path_of_absolute(rest)
}
