//! How many rounds it takes to settle, at most.

ghost use Rattle.std.specs.Prelude.{◌≡◌, ◌≤◌, ◌<◌, ◌+◌, ◌^◌, length, All, decimal};
ghost use Rattle.lard_generate.specs.Clients.{answer_len, request_head, rounds};
ghost use Rattle.lard_generate.specs.Rounds.{AsksForFile, action_cost};

use crate::action::{Action, fields};
use crate::files::FILES;
use itoa::Buffer;

/// The most rounds in which all of it settles, for 256 files of these sizes, in bytes. Each action asks for one of
/// them. They are below 2^32.
pub fn rounds(clients: u32, sizes: &[u32], actions: &[Action]) -> u32
    requires count { length sizes.now ≡ FILES }
    requires files { All AsksForFile actions.now }
    requires fits { rounds clients sizes.now actions.now < 2 ^ 32 }
    ensures { result ≡ rounds clients sizes.now actions.now }
{
    let mut total = 128 * (u64::from(clients) + 1);
    for action in actions {
        total += cost(sizes, *action);
    }
    total as u32
}

/// The rounds that an action takes at most.
fn cost(sizes: &[u32], action: Action) -> u64
    requires count { length sizes.now ≡ FILES }
    requires file { AsksForFile action }
    requires fits { action_cost sizes.now action < 2 ^ 32 }
    ensures { result ≡ action_cost sizes.now action }
{
    match action {
        Action::Ask { file, .. } => 64 + 16 * (head_len(file) + answer_len(sizes[file as usize])),
        Action::Shut(_) => 0,
    }
}

/// The length of the head of a request for a file: `GET /f`, the file's number, and the fields.
fn head_len(file: u32) -> u64
    ensures { result ≡ length (request_head file) }
{
    6 + digits(file) + fields().len() as u64
}

/// The length of the answer that carries so many bytes: its head has 37 bytes, and the digits of this number.
fn answer_len(size: u32) -> u64
    ensures { result ≡ answer_len size }
{
    u64::from(size) + 37 + digits(size)
}

/// How many digits a number has.
fn digits(n: u32) -> u64
    ensures digits { result ≡ length (decimal n) }
    ensures few { result ≤ 10 }
{
    let mut digits = Buffer::new();
    digits.format(n).len() as u64
}
