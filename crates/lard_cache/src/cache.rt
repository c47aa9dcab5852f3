//! The recency list.

ghost use Rattle.std.specs.Prelude.{◌≡◌, ◌-◌, ◌<◌, ◌≤◌, ◌^◌, [], length, IfOk, OnOk, OnErr};
ghost use Rattle.lard_cache.specs.Recency.{Recency, entries_shown, has_path, is_over, total, after_hit, after_put, front_within, in_front};

use lard_base::{NoMemory, Path};
use lru::LruCache;
use std::alloc::Global;
use std::marker::Model;

/// The most paths in a cache.
pub const MAX_CACHED_PATHS: usize = 65_536;

/// The paths that a node keeps, the most recently used first, each with the bytes of its file. There are at most 65,536,
/// and their files have at most so many bytes in all as the cache was made for.
#[derive(Drop)]
pub struct Cache {
    paths: LruCache<Vec<u8>, u32>,
    limit: u32,
    bytes: u64,
}

impl Model for Cache {
    ghost use Rattle.std.specs.Prelude.{◌≡◌, ◌-◌, ◌≤◌, ◌^◌, length};
    ghost use Rattle.lard_cache.specs.declared.cache.TheConstants.{MAX_CACHED_PATHS};
    ghost use Rattle.lard_cache.specs.Recency.{Recency, recency_code, entries_shown, total};

    ghost Value = { Recency };

    ghost coded = { recency_code };

    ghost view = { λ c. record { entries = entries_shown c.paths.entries; limit = c.limit } };

    ghost invariant = { λ c. (c.paths.cap ≡ 2 ^ 64 - 1) × (c.bytes ≡ total (entries_shown c.paths.entries)) × (c.bytes ≤ c.limit) × (length c.paths.entries ≤ MAX_CACHED_PATHS) };
}

impl Cache {
    /// An empty cache for files of so many bytes in all. `NoMemory` where memory runs out.
    pub fn new(alloc: Global, bytes: u32) -> Result<Cache, NoMemory>
        ensures { IfOk result (λ c. c ≡ record { entries = []; limit = bytes }) }
    {
        Ok(Cache {
            paths: LruCache::unbounded(alloc)?,
            limit: bytes,
            bytes: 0,
        })
    }

    /// Whether the path is there. It is used no more lately for that.
    pub fn has(&self, path: &[u8]) -> bool
        ensures { result ≡ has_path self.now.entries path.now }
    {
        self.paths.contains(path)
    }

    /// Brings a path that is there to the front, and answers whether it was. Any other path changes nothing.
    pub fn hit(&mut self, path: &[u8]) -> bool
        ensures value { result ≡ has_path self.old.entries path.now }
        ensures after { self.new ≡ record self.old { entries = after_hit self.old.entries path.now } }
    {
        self.paths.promote(path)
    }

    /// Puts a path whose file has so many bytes in front, out of its old place where it has one, and then drops paths from
    /// the end while there are more than 65,536 or their files have too many bytes. A file that is larger than the cache is
    /// not put. Without memory nothing changes.
    pub fn put(&mut self, path: &Path, size: u32) -> Result<(), NoMemory>
        ensures ok { OnOk result (self.new ≡ after_put self.old path.now size) }
        ensures err { OnErr result (self.new ≡ self.old) }
    {
        if size > self.limit {
            return Ok(());
        }
        let bytes = put_in_front(&mut self.paths, self.bytes, path, size)?;
        self.bytes = evict(&mut self.paths, bytes, self.limit);
        Ok(())
    }
}

/// Puts a path whose file has so many bytes in front, out of its old place where it has one, and answers how many bytes all
/// files then have. Without memory nothing changes.
fn put_in_front(
    paths: &mut LruCache<Vec<u8>, u32>,
    bytes: u64,
    path: &Path,
    size: u32,
) -> Result<u64, NoMemory>
    requires never_full { paths.old.cap ≡ 2 ^ 64 - 1 }
    requires count { length paths.old.entries ≤ MAX_CACHED_PATHS }
    requires bytes { bytes ≡ total (entries_shown paths.old.entries) }
    requires few { bytes < 2 ^ 32 }
    ensures entries { OnOk result (entries_shown paths.new.entries ≡ in_front (entries_shown paths.old.entries) path.now size) }
    ensures capacity { OnOk result (paths.new.cap ≡ paths.old.cap) }
    ensures bytes { IfOk result (λ bytes. bytes ≡ total (entries_shown paths.new.entries)) }
    ensures err { OnErr result (paths.new ≡ paths.old) }
{
    let alloc = *paths.allocator();
    let key = Vec::from_slice(alloc, path.as_slice())?;
    let old = paths.put(key, size)?;
    Ok(bytes - u64::from(old.unwrap_or(0)) + u64::from(size))
}

/// Drops paths from the end until both bounds hold, and answers how many bytes the files of the others have.
fn evict(paths: &mut LruCache<Vec<u8>, u32>, mut bytes: u64, limit: u32) -> u64
    requires { bytes ≡ total (entries_shown paths.old.entries) }
    ensures entries { entries_shown paths.new.entries ≡ front_within MAX_CACHED_PATHS limit (entries_shown paths.old.entries) }
    ensures capacity { paths.new.cap ≡ paths.old.cap }
    ensures bytes { result ≡ total (entries_shown paths.new.entries) }
{
    while is_over(paths.len(), bytes, limit) {
        let Some((_, size)) = paths.pop_lru() else {
            return bytes;
        };
        bytes -= u64::from(size);
    }
    bytes
}

/// Whether there are too many paths, or their files have too many bytes.
fn is_over(count: usize, bytes: u64, limit: u32) -> bool
    ensures { result ≡ is_over count bytes limit }
{
    count > MAX_CACHED_PATHS || bytes > u64::from(limit)
}
