//! Each call once, with ample memory.

use lard_base::{NoMemory, Path};
use lard_cache::Cache;
use std::alloc::Global;

/// What is hit, and whether it is there; what is then put, its size, and which of five paths are there then.
type Row = (&'static [u8], bool, &'static [u8], u32, [bool; 5]);

/// Of a cache of 10 bytes.
const ROWS: &[Row] = &[
    (b"/a", false, b"/a", 6, [true, false, false, false, false]),
    (b"/a", true, b"/b", 6, [false, true, false, false, false]),
    (b"/a", false, b"/c", 4, [false, true, true, false, false]),
    (b"/b", true, b"/d", 1, [false, true, false, true, false]),
    (b"/c", false, b"/e", 11, [false, true, false, true, false]),
    (b"/d", true, b"/b", 3, [false, true, false, true, false]),
    (b"/e", false, b"/e", 6, [false, true, false, true, true]),
    (b"/d", true, b"/a", 10, [true, false, false, false, false]),
];

fn put(cache: &mut Cache, alloc: Global, path: &[u8], size: u32) -> Result<(), NoMemory> {
    let path = Path::from_slice(alloc, path)?;
    cache.put(&path, size)
}

/// Which of five paths are there.
fn there(cache: &Cache) -> [bool; 5] {
    [
        cache.has(b"/a"),
        cache.has(b"/b"),
        cache.has(b"/c"),
        cache.has(b"/d"),
        cache.has(b"/e"),
    ]
}

/// The place of the first row that comes otherwise.
fn first_wrong(cache: &mut Cache, alloc: Global) -> Result<Option<usize>, NoMemory> {
    for (at, (hit, found, path, size, left)) in ROWS.iter().enumerate() {
        let is_there = cache.hit(hit);
        put(cache, alloc, path, *size)?;
        if is_there != *found || there(cache) != *left {
            return Ok(Some(at));
        }
    }
    Ok(None)
}

fn dropped(alloc: Global) -> Result<Option<usize>, NoMemory> {
    let mut cache = Cache::new(alloc, 10)?;
    first_wrong(&mut cache, alloc)
}

#[test]
fn paths_drop_from_the_end(rt: HostRuntime) {
    assert_eq!(rt; dropped(rt.alloc()), Ok(None));
}

/// As many paths as there may be, of no bytes.
fn fill(cache: &mut Cache, alloc: Global) -> Result<(), NoMemory> {
    for n in 0..65_536u32 {
        put(cache, alloc, &n.to_be_bytes(), 0)?;
    }
    Ok(())
}

/// Whether the first path is hit in a full cache; and which of the first three are there once one more is put.
fn crowded(alloc: Global) -> Result<(bool, [bool; 3]), NoMemory> {
    let mut cache = Cache::new(alloc, 10)?;
    fill(&mut cache, alloc)?;
    let found = cache.hit(b"\0\0\0\0");
    put(&mut cache, alloc, b"/a", 0)?;
    let left = [
        cache.has(b"\0\0\0\0"),
        cache.has(b"\0\0\0\x01"),
        cache.has(b"\0\0\0\x02"),
    ];
    Ok((found, left))
}

#[test]
fn there_are_not_too_many_paths(rt: HostRuntime) {
    assert_eq!(rt; crowded(rt.alloc()), Ok((true, [true, false, true])));
}
