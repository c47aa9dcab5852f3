//! The nodes behind the front end: what each keeps in its cache, and what is counted of it.

ghost use Rattle.std.specs.Prelude.{◌≡◌, ◌+◌, ◌-◌, ◌<◌, ◌≤◌, length, slice_get, Some, IfOk, IfSome, OnOk, OnErr};
ghost use Rattle.lard_cache.specs.Recency.{has_path};
ghost use Rattle.lard_lab.specs.Backends.{backend_after, cold, empty, fed, is_hit, node_after, stores_served, untouched};

use lard_base::{NoMemory, NodeId, Path};
use lard_cache::Cache;
use std::alloc::Global;
use std::marker::Model;

/// A node, with what is counted of it.
#[derive(Drop)]
pub struct Backend {
    /// The paths that it keeps.
    pub cache: Cache,
    /// The requests that were assigned to it.
    pub requests: u32,
    /// Those of them whose path was in the cache.
    pub hits: u32,
    /// The most requests that were open at once.
    pub peak: u32,
}

impl Backend {
    /// Nothing is kept in a cache of so many bytes, and nothing was counted.
    fn new(alloc: Global, bytes: u32) -> Result<Backend, NoMemory>
        ensures { IfOk result (λ b. b ≡ cold bytes) }
    {
        Ok(Backend {
            cache: Cache::new(alloc, bytes)?,
            requests: 0,
            hits: 0,
            peak: 0,
        })
    }

    /// Serves a request for a path whose file has so many bytes, with which so many are open, and answers whether the path
    /// was in the cache. Without memory nothing changes.
    fn serve(&mut self, path: &Path, size: u32, load: u32) -> Result<bool, NoMemory>
        requires requests { self.old.requests < 16384 }
        requires hits { self.old.hits < 16384 }
        ensures hit { IfOk result (λ hit. hit ≡ has_path self.old.cache.entries path.now) }
        ensures ok { OnOk result (self.new ≡ backend_after self.old path.now size load) }
        ensures err { OnErr result (self.new ≡ self.old) }
    {
        let hit = feed(&mut self.cache, path, size)?;
        self.requests += 1;
        self.hits += u32::from(hit);
        self.peak = self.peak.max(load);
        Ok(hit)
    }
}

/// Feeds a cache with a path whose file has so many bytes, and answers whether it was there: then it comes to the front, and
/// else it is put. Without memory nothing changes.
fn feed(cache: &mut Cache, path: &Path, size: u32) -> Result<bool, NoMemory>
    ensures hit { IfOk result (λ hit. hit ≡ has_path cache.old.entries path.now) }
    ensures ok { OnOk result (cache.new ≡ fed cache.old path.now size) }
    ensures err { OnErr result (cache.new ≡ cache.old) }
{
    if cache.hit(path.as_slice()) {
        return Ok(true);
    }
    cache.put(path, size)?;
    Ok(false)
}

/// The nodes, in the order of their numbers, and what is counted of all.
#[derive(Drop)]
pub struct Backends {
    nodes: Vec<Backend>,
    requests: u32,
    hits: u32,
}

impl Model for Backends {
    ghost use Rattle.std.specs.Prelude.{◌≤◌, All};
    ghost use Rattle.lard_lab.specs.Backends.{IsCountedOf, Stores, coded_stores};

    ghost Value = { Stores };

    ghost coded = { coded_stores };

    ghost view = { λ b. record { nodes = b.nodes.items; requests = b.requests; hits = b.hits } };

    ghost invariant = { λ b. (b.hits ≤ b.requests) × All (IsCountedOf b.requests b.hits) b.nodes.items };
}

impl Backends {
    /// So many nodes, with caches of so many bytes, of which nothing was counted.
    pub fn new(alloc: Global, nodes: u8, bytes: u32) -> Result<Backends, NoMemory>
        ensures { IfOk result (λ b. b ≡ untouched nodes bytes) }
    {
        let mut all = Vec::new(alloc);
        for _ in 0..nodes {
            all.push(Backend::new(alloc, bytes)?)?;
        }
        Ok(Backends {
            nodes: all,
            requests: 0,
            hits: 0,
        })
    }

    /// A node serves a request for a path whose file has so many bytes, with which so many are open there, and it is
    /// answered whether the path was in its cache. Without memory nothing changes.
    pub fn serve(&mut self, n: NodeId, path: &Path, size: u32, load: u32) -> Result<bool, NoMemory>
        requires node { n ≤ length self.old.nodes }
        requires few { self.old.requests < 16384 }
        ensures hit { IfOk result (λ hit. hit ≡ is_hit self.old n path.now) }
        ensures ok { OnOk result (self.new ≡ stores_served self.old n path.now size load) }
        ensures err { OnErr result (self.new ≡ self.old) }
    {
        let at = n.number() as usize - 1;
        let hit = serve_at(&mut self.nodes, at, path, size, load)?;
        self.requests += 1;
        self.hits += u32::from(hit);
        Ok(hit)
    }

    /// What is counted of all: the requests that were assigned, and those whose path was in the cache of their node.
    pub fn counts(&self) -> (u32, u32)
        ensures value { result ≡ (self.now.requests, self.now.hits) }
        ensures fewer { result.1 ≤ result.0 }
    {
        (self.requests, self.hits)
    }

    /// The nodes, lent.
    pub fn nodes(&self) -> &[Backend]
        ensures { result.now ≡ self.now.nodes }
    {
        self.nodes.as_slice()
    }
}

/// The node at a place serves a request, and it is answered whether the path was in its cache. Without memory nothing
/// changes.
fn serve_at(
    nodes: &mut Vec<Backend>,
    at: usize,
    path: &Path,
    size: u32,
    load: u32,
) -> Result<bool, NoMemory>
    requires node { at < length nodes.old.items }
    requires few { IfSome (slice_get nodes.old.items at) (λ b. (b.requests < 16384) × (b.hits < 16384)) }
    ensures hit { IfOk result (λ hit. IfSome (slice_get nodes.old.items at) (λ b. hit ≡ has_path b.cache.entries path.now)) }
    ensures ok { OnOk result (nodes.new.items ≡ node_after nodes.old.items at path.now size load) }
    ensures err { OnErr result (nodes.new.items ≡ nodes.old.items) }
{
    nodes[at].serve(path, size, load)
}
