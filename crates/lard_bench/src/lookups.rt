//! Look-ups in a cache.

use lard_base::{NoMemory, Path};
use lard_cache::{Cache, MAX_CACHED_PATHS};
use std::alloc::Global;

/// How many paths are looked up, more than a cache keeps.
const PATHS: u32 = 100_000;

/// The bytes of each file.
const SIZE: u32 = 1_024;

/// Looks up paths so many times in a cache for 65,536 of 100,000 files, and puts each that is not there: how often one was.
pub fn look_up(alloc: Global, times: u32) -> Result<u32, NoMemory> {
    let paths = paths(alloc)?;
    let mut cache = Cache::new(alloc, MAX_CACHED_PATHS as u32 * SIZE)?;
    let mut seed: u64 = 1;
    let mut hits: u32 = 0;
    for _turn in 0..times {
        seed = (seed * 1_103_515_245 + 12_345) % (1 << 31);
        if look_at(&mut cache, paths.as_slice(), (seed % PATHS as u64) as usize)? {
            hits = hits.saturating_add(1);
        }
    }
    Ok(hits)
}

/// Looks one path up, and puts it where it is not there.
fn look_at(cache: &mut Cache, paths: &[Path], at: usize) -> Result<bool, NoMemory> {
    let Some(path) = paths.get(at) else {
        return Ok(false);
    };
    if cache.hit(path.as_slice()) {
        return Ok(true);
    }
    cache.put(path, SIZE)?;
    Ok(false)
}

fn paths(alloc: Global) -> Result<Vec<Path>, NoMemory> {
    let mut paths = Vec::with_capacity(alloc, PATHS as usize)?;
    for number in 0..PATHS {
        let mut path = Vec::from_slice(alloc, b"/files/")?;
        path.extend_from_slice(&number.to_be_bytes())?;
        paths.push(Path::from_vec(path))?;
    }
    Ok(paths)
}
