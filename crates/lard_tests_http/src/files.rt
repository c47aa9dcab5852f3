//! Each call once, with ample memory, beside what the rules give.

use lard_base::NoMemory;
use lard_files::{FileFault, Files};
use std::alloc::{AllocError, Global};

/// So many bytes.
fn bytes_of(alloc: Global, len: usize) -> Result<Vec<u8>, AllocError> {
    vec![in alloc; b'x'; len]
}

const FOUND: &[(&[u8], Option<&[u8]>)] = &[
    (b"/a", Some(b"one")),
    (b"/b", Some(b"")),
    (b"/", None),
    (b"/A", None),
    (b"/aa", None),
    (b"", None),
];

/// The first path at which files have something else.
fn wrong_path(files: &Files) -> Option<&'static [u8]> {
    for &(path, want) in FOUND {
        if files.get(path) != want {
            return Some(path);
        }
    }
    None
}

#[test]
fn files_are_found_by_their_paths(rt: HostRuntime) {
    let mut files = Files::new(rt.alloc());
    let before = files.get(b"/a").is_none();
    let added = [
        files.add(b"/a", b"one"),
        files.add(b"/b", b""),
        files.add(b"/a", b"two"),
    ];
    assert_eq!(rt; added, [Ok(()), Ok(()), Err(FileFault::Repeated)]);
    assert_eq!(rt; (before, wrong_path(&files)), (true, None));
}

/// Whether files give a share of these bytes at a path, or none.
fn is_shared(files: &Files, path: &[u8], want: Option<&[u8]>) -> Result<bool, NoMemory> {
    match files.share(path)? {
        Some(share) => Ok(want == Some(share.as_slice())),
        None => Ok(want.is_none()),
    }
}

/// Whether the bytes from 1 to 3 of a file of five bytes are these.
fn is_shared_in_part(files: &Files, path: &[u8], want: &[u8]) -> Result<bool, NoMemory> {
    match files.share(path)? {
        Some(share) if share.len() == 5 => Ok(share.part(1, 3)?.as_slice() == want),
        _ => Ok(false),
    }
}

const SHARED: &[(&[u8], Option<&[u8]>)] = &[
    (b"/a", Some(b"hello")),
    (b"/a", Some(b"hello")),
    (b"/b", Some(b"")),
    (b"/z", None),
    (b"", None),
];

/// The first path at which another share is given.
fn wrong_share(files: &Files) -> Result<Option<&'static [u8]>, NoMemory> {
    for &(path, want) in SHARED {
        if !is_shared(files, path, want)? {
            return Ok(Some(path));
        }
    }
    Ok(None)
}

#[test]
fn files_are_shared(rt: HostRuntime) {
    let mut files = Files::new(rt.alloc());
    let added = [files.add(b"/a", b"hello"), files.add(b"/b", b"")];
    assert_eq!(rt; added, [Ok(()); 2]);
    let part = is_shared_in_part(&files, b"/a", b"ell");
    assert_eq!(rt; (wrong_share(&files), part), (Ok(None), Ok(true)));
}

/// How many files with these bytes are added, of so many, up to the first that is not.
fn filled(files: &mut Files, count: u32, bytes: &[u8]) -> u32 {
    for n in 0..count {
        if files.add(&n.to_be_bytes(), bytes).is_err() {
            return n;
        }
    }
    count
}

#[test]
fn bytes_have_limits(rt: HostRuntime) {
    let longer = bytes_of(rt.alloc(), (1 << 20) + 1).expect(&rt, "memory");
    let longest = bytes_of(rt.alloc(), 1 << 20).expect(&rt, "memory");
    let mut files = Files::new(rt.alloc());
    let first = files.add(b"/a", &longer);
    let count = filled(&mut files, 64, &longest);
    let behind = [
        files.add(b"/e", b""),
        files.add(b"/f", b"x"),
        files.add(b"/g", &longest),
        files.add(b"/g", &longer),
        files.add(b"/e", &longer),
    ];
    let want = [
        Ok(()),
        Err(FileFault::TooMuch(67_108_865)),
        Err(FileFault::TooMuch(68_157_440)),
        Err(FileFault::TooLong(1_048_577)),
        Err(FileFault::Repeated),
    ];
    assert_eq!(rt; (first, count), (Err(FileFault::TooLong(1_048_577)), 64));
    assert_eq!(rt; behind, want);
    assert_eq!(rt; files.get(b"/f"), None);
}

#[test]
fn there_are_not_too_many_files(rt: HostRuntime) {
    let longer = bytes_of(rt.alloc(), (1 << 20) + 1).expect(&rt, "memory");
    let mut files = Files::new(rt.alloc());
    let count = filled(&mut files, 65_536, b"x");
    let behind = [
        files.add(b"/f", b"x"),
        files.add(b"/f", &longer),
        files.add(b"\0\0\0\0", b"x"),
    ];
    let want = [
        Err(FileFault::TooMany(65_537)),
        Err(FileFault::TooLong(1_048_577)),
        Err(FileFault::Repeated),
    ];
    assert_eq!(rt; (count, behind), (65_536, want));
    assert_eq!(rt; files.get(b"\0\0\xff\xff"), Some(b"x".as_slice()));
}
