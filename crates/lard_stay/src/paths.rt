//! The paths of requests that are to be assigned.

ghost use Rattle.std.specs.Prelude.{◌≡◌, ◌+◌, ◌≤◌, [], ◌++◌, All, length, IfOk, IfSome, OnOk, option_copied};
ghost use Rattle.lard_answers.specs.Answers.{good_path};
ghost use Rattle.lard_files.specs.Files.{file_at};
ghost use Rattle.lard_rules.specs.Stay.{and_path, named_path, named_paths};
ghost use Rattle.lard_stay.specs.Work.{IsPath};

use lard_base::{NoMemory, Path, Paths};
use lard_files::Files;
use lard_request::Verdict;
use lard_rules::{Entry, Progress};
use std::alloc::Global;

/// The path of a request for a file; `None` where the verdict is no such request, or there is no such file.
pub fn good_path<'a>(files: &Files, verdict: &'a Verdict) -> Option<&'a Path>
    ensures path { option_copied result ≡ good_path (file_at files.now) verdict.now }
    ensures short { IfSome result (λ path. IsPath path.now) }
{
    match verdict {
        Verdict::Serve { path, .. } => match files.get(path.as_slice()) {
            None => None,
            Some(_) => Some(path),
        },
        Verdict::Fault(_) => None,
    }
}

/// The path that an Ask names for a request; `None` where it names none.
pub fn named_path<'a>(files: &Files, entry: &'a Entry) -> Option<&'a Path>
    ensures path { option_copied result ≡ named_path (file_at files.now) entry.now }
    ensures short { IfSome result (λ path. IsPath path.now) }
{
    match entry.progress {
        Progress::Named => good_path(files, &entry.verdict),
        Progress::Reading => None,
        Progress::Awaited(_) => None,
        Progress::Ready(_) => None,
    }
}

/// The paths of the requests of a batch that are to be assigned, in order. `NoMemory` where memory runs out.
pub fn named_paths(alloc: Global, files: &Files, batch: &[Entry]) -> Result<Paths, NoMemory>
    ensures paths { IfOk result (λ paths. paths ≡ named_paths (file_at files.now) batch.now) }
    ensures within { IfOk result (λ paths. length paths ≤ length batch.now) }
    ensures short { IfOk result (λ paths. All IsPath paths) }
{
    let mut paths = Paths::new(alloc);
    for entry in batch {
        push_named(alloc, files, entry, &mut paths)?;
    }
    Ok(paths)
}

/// Adds the path that an Ask names for a request, where it names one.
fn push_named(
    alloc: Global,
    files: &Files,
    entry: &Entry,
    paths: &mut Paths,
) -> Result<(), NoMemory>
    ensures paths { OnOk result (paths.new ≡ paths.old ++ and_path (named_path (file_at files.now) entry.now) []) }
    ensures few { OnOk result (length paths.new ≤ length paths.old + 1) }
    ensures short { OnOk result (All IsPath paths.old → All IsPath paths.new) }
{
    if let Some(path) = named_path(files, entry) {
        paths.push(path.copy(alloc)?)?;
    }
    Ok(())
}

/// How many requests of a batch are to be assigned.
pub fn count_named(files: &Files, batch: &[Entry]) -> usize
    ensures { result ≡ length (named_paths (file_at files.now) batch.now) }
{
    let mut count = 0;
    for entry in batch {
        if named_path(files, entry).is_some() {
            count += 1;
        }
    }
    count
}
