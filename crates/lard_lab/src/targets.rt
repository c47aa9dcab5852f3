//! The targets: the files of a trace, and what a policy keeps of each.

ghost use Rattle.std.specs.Prelude.{◌≡◌, ◌<◌, ◌≤◌, ◌^◌, [], ◌∷◌, ◌++◌, length, Some, OnOk, OnErr, IfSome};
ghost use Rattle.lard_base.specs.declared.limits.TheConstants.{MAX_ALL_FILES_BYTES, MAX_FILE_BYTES};
ghost use Rattle.lard_files.specs.Files.{AnswersAddition, first_fault as first_fault_of};
ghost use Rattle.lard_sets.specs.Sets.{no_servers};
ghost use Rattle.lard_lab.specs.Targets.{target_check, fresh_target, target_at, with_target};

use indexmap::IndexMap;
use lard_base::limits::{MAX_ALL_FILES_BYTES, MAX_FILE_BYTES, MAX_FILES};
use lard_base::{Members, Millis, NoMemory, NodeId};
use lard_files::FileFault;
use lard_sets::ServerSet;
use std::alloc::Global;
use std::marker::Model;

/// What is kept of a target.
#[derive(Clone, Copy, Debug)]
pub struct Target {
    /// The bytes of its file, to 2^20.
    pub size: u32,
    /// The node that its last request was assigned to: its server.
    pub server: Option<NodeId>,
    /// The nodes that serve it, with replication.
    pub set: ServerSet,
}

/// Targets by their paths, in the order in which they were added: the files of a trace.
#[derive(Drop)]
pub struct Targets {
    targets: IndexMap<Vec<u8>, Target>,
    bytes: u64,
}

impl Model for Targets {
    ghost use Rattle.std.specs.Prelude.{ℕ, ◌≡◌, ◌≤◌, List};
    ghost use Rattle.lard_base.specs.declared.limits.TheConstants.{MAX_ALL_FILES_BYTES};
    ghost use Rattle.lard_lab.specs.Targets.{targets_shown, targets_total};
    ghost use Rattle.lard_lab.specs.declared.targets.Target.{Target};

    ghost Value = { List (List ℕ × Target) };

    ghost view = { λ t. targets_shown t.targets.entries };

    ghost invariant = { λ t. (t.bytes ≡ targets_total (targets_shown t.targets.entries)) × (t.bytes ≤ MAX_ALL_FILES_BYTES) };
}

impl Targets {
    /// No target. It takes no memory yet.
    pub fn new(alloc: Global) -> Targets
        ensures { result ≡ [] }
    {
        Targets {
            targets: IndexMap::new(alloc),
            bytes: 0,
        }
    }

    /// Adds a file of so many bytes, which no request was for. The first of these answers that applies comes, and the targets
    /// are then as they were: `Repeated` where the path is there, `TooLong` with the size above 2^20 bytes, `TooMany` with the
    /// number of files above 65,536, `TooMuch` with the sum of their sizes above 2^26 bytes, both counted with this one,
    /// `NoMemory`.
    pub fn add(&mut self, path: &[u8], size: u64) -> Result<(), FileFault>
        ensures answer { AnswersAddition (target_check self.old path.now size) result }
        ensures ok { OnOk result (self.new ≡ self.old ++ (path.now, fresh_target size) ∷ []) }
        ensures err { OnErr result (self.new ≡ self.old) }
    {
        self.check(path, size)?;
        match self.keep(path, size as u32) {
            Ok(()) => Ok(()),
            Err(NoMemory) => Err(FileFault::NoMemory),
        }
    }

    /// What is kept of the target with this path, where it is that of a file.
    pub fn get(&self, path: &[u8]) -> Option<Target>
        ensures { result ≡ target_at self.now path.now }
    {
        self.targets.get(path).copied()
    }

    /// Keeps this of the target with this path. Any other path changes nothing. The size is as before.
    pub fn set(&mut self, path: &[u8], target: Target)
        requires { IfSome (target_at self.old path.now) (λ old. target.size ≡ old.size) }
        ensures { self.new ≡ with_target self.old path.now target }
    {
        if let Some(kept) = self.targets.get_mut(path) {
            *kept = target;
        }
    }

    /// Whether a file of so many bytes may be added under this path, or the first fault that speaks against it.
    fn check(&self, path: &[u8], size: u64) -> Result<(), FileFault>
        ensures { result ≡ target_check self.now path.now size }
    {
        first_fault(
            self.targets.contains_key(path),
            self.targets.len() as u64,
            self.bytes,
            size,
        )
    }

    /// Keeps a file that may be added.
    fn keep(&mut self, path: &[u8], size: u32) -> Result<(), NoMemory>
        requires allowed { target_check self.old path.now size ≡ Ok tt }
        ensures ok { OnOk result (self.new ≡ self.old ++ (path.now, fresh_target size) ∷ []) }
        ensures err { OnErr result (self.new ≡ self.old) }
    {
        let alloc = *self.targets.allocator();
        let key = Vec::from_slice(alloc, path)?;
        self.targets.insert(key, fresh(size))?;
        self.bytes += u64::from(size);
        Ok(())
    }
}

/// A target that no request was for yet.
fn fresh(size: u32) -> Target
    ensures { result ≡ fresh_target size }
{
    Target {
        size,
        server: None,
        set: no_servers(),
    }
}

/// The first fault of one more file of `len` bytes, beside `count` files with `sum` bytes in all. `there` is true where
/// one of them has its path.
fn first_fault(there: bool, count: u64, sum: u64, len: u64) -> Result<(), FileFault>
    requires count_fits { count < 2 ^ 63 }
    requires sum_fits { sum ≤ MAX_ALL_FILES_BYTES }
    ensures { result ≡ first_fault_of there count sum len }
{
    if there {
        return Err(FileFault::Repeated);
    }
    if len > MAX_FILE_BYTES as u64 {
        return Err(FileFault::TooLong(len));
    }
    if count + 1 > MAX_FILES as u64 {
        return Err(FileFault::TooMany(count + 1));
    }
    if sum + len > MAX_ALL_FILES_BYTES as u64 {
        return Err(FileFault::TooMuch(sum + len));
    }
    Ok(())
}

/// The server set of a target that was never assigned.
fn no_servers() -> ServerSet
    ensures { result ≡ no_servers }
{
    ServerSet {
        members: Members::none(),
        modified: Millis(0),
    }
}
