//! Heads that are judged.

ghost use Rattle.std.specs.Prelude.{◌≤◌, IfOk};

use lard_base::NoMemory;
use lard_request::{Verdict, judge};
use std::alloc::Global;

/// Judges one head so many times: how often it is a request that is served.
pub fn judge_heads(alloc: Global, head: &[u8], times: u32) -> Result<u32, NoMemory>
    ensures { IfOk result (λ served. served ≤ times) }
{
    let mut served = 0;
    for _turn in 0..times {
        if is_served(alloc, head)? {
            served += 1;
        }
    }
    Ok(served)
}

fn is_served(alloc: Global, head: &[u8]) -> Result<bool, NoMemory> {
    match judge(alloc, head)? {
        Verdict::Serve { .. } => Ok(true),
        Verdict::Fault(_) => Ok(false),
    }
}
