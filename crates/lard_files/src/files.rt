//! The map from paths to bytes.

ghost use Rattle.std.specs.Prelude.{◌≡◌, ◌≢◌, ℕ, ◌<◌, ◌≤◌, ◌^◌, List, [], ◌∷◌, ◌++◌, length, IfOk, OnOk, OnErr, IfSome, option_copied};
ghost use Rattle.lard_files.specs.Files.{file_at, add_check, AnswersAddition, IsContent, IsPath, first_fault as first_fault_of};

use crate::fault::FileFault;
use indexmap::IndexMap;
use lard_base::NoMemory;
use lard_base::limits::{MAX_ALL_FILES_BYTES, MAX_FILE_BYTES, MAX_FILES, MAX_PATH_BYTES};
use lard_shared::Shared;
use std::alloc::Global;
use std::marker::Model;

/// Files by their paths, in the order in which they were added. Each path has 1 to 1,024 bytes, and each file at most
/// 2^20, which are held once however many share them.
#[derive(Drop)]
pub struct Files {
    files: IndexMap<Vec<u8>, Shared>,
    bytes: u64,
}

impl Model for Files {
    ghost use Rattle.std.specs.Prelude.{ℕ, ◌≡◌, ◌≤◌, List, All};
    ghost use Rattle.lard_base.specs.declared.limits.TheConstants.{MAX_ALL_FILES_BYTES};
    ghost use Rattle.lard_files.specs.Files.{IsFile, files_shown, files_total};

    ghost Value = { List (List ℕ × List ℕ) };

    ghost view = { λ f. files_shown f.files.entries };

    ghost invariant = { λ f. (f.bytes ≡ files_total (files_shown f.files.entries)) × (f.bytes ≤ MAX_ALL_FILES_BYTES) × All IsFile (files_shown f.files.entries) };
}

impl Files {
    /// No files. It takes no memory yet.
    pub fn new(alloc: Global) -> Files
        ensures { result ≡ [] }
    {
        Files {
            files: IndexMap::new(alloc),
            bytes: 0,
        }
    }

    /// Adds a file. Its path has 1 to 1,024 bytes. The first of these answers that applies comes, and the files are
    /// then as they were: `Repeated` where the path is there, `TooLong` with the file's length above 2^20 bytes,
    /// `TooMany` with the number of files above 65,536, `TooMuch` with the sum of their lengths above 2^26 bytes, both
    /// counted with this one, `NoMemory`.
    pub fn add(&mut self, path: &[u8], bytes: &[u8]) -> Result<(), FileFault>
        requires some_path { 1 ≤ length path.now }
        requires short_path { length path.now ≤ MAX_PATH_BYTES }
        ensures answer { AnswersAddition (add_check self.old path.now (length bytes.now)) result }
        ensures ok { OnOk result (self.new ≡ self.old ++ (path.now, bytes.now) ∷ []) }
        ensures err { OnErr result (self.new ≡ self.old) }
        ensures found { OnOk result (file_at self.new path.now ≡ Some bytes.now) }
        ensures others { OnOk result ((other : List ℕ) → other ≢ path.now → file_at self.new other ≡ file_at self.old other) }
    {
        self.check(path, bytes.len() as u64)?;
        match self.keep(path, bytes) {
            Ok(()) => Ok(()),
            Err(NoMemory) => Err(FileFault::NoMemory),
        }
    }

    /// The bytes of the file with this path, lent, at most 2^20. `None` where there is no such file, as it is for a path
    /// that no file may have.
    pub fn get(&self, path: &[u8]) -> Option<&[u8]>
        ensures file { option_copied result ≡ file_at self.now path.now }
        ensures short { IfSome result (λ bytes. IsContent bytes.now) }
        ensures path { IfSome result (λ _. IsPath path.now) }
    {
        match self.files.get(path) {
            Some(bytes) => Some(bytes.as_slice()),
            None => None,
        }
    }

    /// The bytes of the file with this path for one owner more, without a copy of them. `None` exactly where `get`
    /// answers `None`. `NoMemory` where memory runs out.
    pub fn share(&self, path: &[u8]) -> Result<Option<Shared>, NoMemory>
        ensures file { IfOk result (λ share. share ≡ file_at self.now path.now) }
        ensures short { IfOk result (λ share. IfSome share IsContent) }
    {
        let Some(bytes) = self.files.get(path) else {
            return Ok(None);
        };
        Ok(Some(bytes.share()?))
    }

    /// Whether a file of so many bytes may be added under this path, or the first fault that speaks against it.
    fn check(&self, path: &[u8], len: u64) -> Result<(), FileFault>
        ensures { result ≡ add_check self.now path.now len }
    {
        first_fault(
            self.files.contains_key(path),
            self.files.len() as u64,
            self.bytes,
            len,
        )
    }

    /// Keeps a file that may be added.
    fn keep(&mut self, path: &[u8], bytes: &[u8]) -> Result<(), NoMemory>
        requires path { IsPath path.now }
        requires allowed { add_check self.old path.now (length bytes.now) ≡ Ok tt }
        ensures ok { OnOk result (self.new ≡ self.old ++ (path.now, bytes.now) ∷ []) }
        ensures err { OnErr result (self.new ≡ self.old) }
    {
        let alloc = *self.files.allocator();
        let key = Vec::from_slice(alloc, path)?;
        let value = Shared::from_slice(alloc, bytes)?;
        self.files.insert(key, value)?;
        self.bytes += bytes.len() as u64;
        Ok(())
    }
}

/// The first fault of one more file of `len` bytes, beside `count` files with `sum` bytes in all. `there` is true where
/// one of them has its path.
fn first_fault(there: bool, count: u64, sum: u64, len: u64) -> Result<(), FileFault>
    requires count_fits { count < 2 ^ 63 }
    requires sum_fits { sum ≤ MAX_ALL_FILES_BYTES }
    ensures { result ≡ first_fault_of there count sum len }
{
    if there {
        return Err(FileFault::Repeated);
    }
    if len > MAX_FILE_BYTES as u64 {
        return Err(FileFault::TooLong(len));
    }
    if count + 1 > MAX_FILES as u64 {
        return Err(FileFault::TooMany(count + 1));
    }
    if sum + len > MAX_ALL_FILES_BYTES as u64 {
        return Err(FileFault::TooMuch(sum + len));
    }
    Ok(())
}
