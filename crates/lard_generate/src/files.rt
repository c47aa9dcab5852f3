//! The files of a generated schedule.

ghost use Rattle.std.specs.Prelude.{◌≡◌, ◌<◌, ◌≤◌, ◌+◌, ◌++◌, ◌%◌, [], ◌∷◌, length, All, IfOk, OnOk};
ghost use Rattle.lard_files.specs.Files.{add_check};
ghost use Rattle.lard_generate.specs.Draws.{each};
ghost use Rattle.lard_generate.specs.Files.{generated_content, drawn_size, generated_files, generated_path};

use crate::draws::draw;
use itoa::Buffer;
use lard_base::{Items, NoMemory};
use lard_files::{FileFault, Files};
use rand_pcg::Lcg64Xsh32;
use std::alloc::Global;

/// How many files there are.
pub const FILES: u32 = 256;

/// The most bytes of one of them.
pub const MAX_SIZE: u32 = 8_192;

/// The sizes of the 256 files, 1 to 8,192 bytes each. `NoMemory` where memory runs out.
pub fn sizes(alloc: Global, draws: &mut Lcg64Xsh32) -> Result<Items<u32>, NoMemory>
    ensures { IfOk result (λ sizes. each drawn_size 256 draws.old ≡ (sizes, draws.new)) }
{
    let mut sizes = Items::new(alloc);
    for _i in 0..FILES {
        sizes.push(1 + draw(draws, MAX_SIZE))?;
    }
    Ok(sizes)
}

/// The files with these sizes, in bytes, 256 of at most 8,192 each. `NoMemory` where memory runs out.
pub fn files(alloc: Global, sizes: &[u32]) -> Result<Files, NoMemory>
    requires count { length sizes.now ≡ FILES }
    requires small { All (λ size. size ≤ MAX_SIZE) sizes.now }
    ensures { IfOk result (λ files. files ≡ generated_files sizes.now) }
{
    let mut files = Files::new(alloc);
    for i in 0..FILES {
        add(alloc, &mut files, i, sizes[i as usize])?;
    }
    Ok(files)
}

/// Adds a file that may be added. Only memory may be wanting.
fn add(alloc: Global, files: &mut Files, i: u32, size: u32) -> Result<(), NoMemory>
    requires number { i < FILES }
    requires allowed { add_check files.old (generated_path i) size ≡ Ok tt }
    ensures { OnOk result (files.new ≡ files.old ++ (generated_path i, generated_content i size) ∷ []) }
{
    let path = path(alloc, i)?;
    let content = content(alloc, i, size)?;
    match files.add(&path, &content) {
        Ok(()) => Ok(()),
        Err(FileFault::NoMemory) => Err(NoMemory),
        Err(_) => unreachable!(),
    }
}

/// The path of the file with this number, counted from 0. `NoMemory` where memory runs out.
pub fn path(alloc: Global, i: u32) -> Result<Vec<u8>, NoMemory>
    ensures { IfOk result (λ path. path.items ≡ generated_path i) }
{
    let mut digits = Buffer::new();
    let mut path = Vec::from_slice(alloc, b"/f")?;
    path.extend_from_slice(digits.format(i).as_bytes())?;
    Ok(path)
}

/// The bytes of a file.
fn content(alloc: Global, i: u32, size: u32) -> Result<Vec<u8>, NoMemory>
    ensures content { IfOk result (λ content. content.items ≡ generated_content i size) }
    ensures size { IfOk result (λ content. length content.items ≡ size) }
{
    let mut content = Vec::with_capacity(alloc, size as usize)?;
    for j in 0..size {
        content.push(byte(i, j))?;
    }
    Ok(content)
}

/// Byte `j` of file `i`.
fn byte(i: u32, j: u32) -> u8
    ensures { result ≡ (i + j) % 256 }
{
    ((u64::from(i) + u64::from(j)) % 256) as u8
}
