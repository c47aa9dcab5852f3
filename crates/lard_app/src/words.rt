//! What the words ask for.

ghost use Rattle.std.specs.Prelude.{◌≤◌, ◌↔◌, [], ◌∷◌, IsTrue};
ghost use Rattle.lard_app.specs.Words.{AsksCommand, WritesCount, WritesNumber, IsOne, IsPolicy};

use itoa::Buffer;
use lard_generate::MAX_CLIENTS;
use lard_lab::Policy;

/// What the words ask for.
#[derive(Clone, Copy, Debug, PartialEq, Eq)]
pub enum Command {
    /// A schedule is to be read and replayed.
    Replay,
    /// The generated schedule of this seed and of so many clients is to be replayed.
    Generate { seed: u64, clients: u32 },
    /// A trace is to be read and run through this policy.
    Lab(Policy),
    /// A report is to be read and audited.
    Audit,
}

/// What the words ask for; `None` where there is no such command.
pub fn asked(words: &[String]) -> Option<Command>
    ensures { AsksCommand words.now result }
{
    match words {
        [word] => single(word.as_str()),
        [word, policy] => lab(word.as_str(), policy.as_str()),
        [word, seed, clients] => generate(word.as_str(), seed.as_str(), clients.as_str()),
        _ => None,
    }
}

/// A command of one word.
fn single(word: &str) -> Option<Command>
    ensures { IsOne (word.now ∷ []) result }
{
    if word == "replay" {
        return Some(Command::Replay);
    }
    if word == "audit" {
        return Some(Command::Audit);
    }
    None
}

/// A command of two words.
fn lab(word: &str, name: &str) -> Option<Command>
    ensures { IsOne (word.now ∷ name.now ∷ []) result }
{
    if word != "lab" {
        return None;
    }
    Some(Command::Lab(policy(name)?))
}

/// The policy that this word names.
fn policy(word: &str) -> Option<Policy>
    ensures { IsPolicy word.now result }
{
    if word == "rr" {
        return Some(Policy::Rr);
    }
    if word == "hash" {
        return Some(Policy::Hash);
    }
    if word == "lard" {
        return Some(Policy::Lard);
    }
    if word == "lardr" {
        return Some(Policy::LardR);
    }
    None
}

/// A command of three words.
fn generate(word: &str, seed: &str, clients: &str) -> Option<Command>
    ensures { IsOne (word.now ∷ seed.now ∷ clients.now ∷ []) result }
{
    if word != "generate" {
        return None;
    }
    let seed = number(seed)?;
    let clients = count(clients)?;
    Some(Command::Generate { seed, clients })
}

/// A number of clients, 1 to 2,000, in decimal.
fn count(word: &str) -> Option<u32>
    ensures { WritesCount word.now result }
{
    let n = number(word)?;
    if is_count(n) {
        return Some(n as u32);
    }
    None
}

/// So many clients there may be.
fn is_count(n: u64) -> bool
    ensures { IsTrue result ↔ ((1 ≤ n) × (n ≤ 2000)) }
{
    1 <= n && n <= u64::from(MAX_CLIENTS)
}

/// A number below 2^64 in decimal: digits without a sign, and without a leading zero.
fn number(word: &str) -> Option<u64>
    ensures { WritesNumber word.now result }
{
    let Ok(n) = word.parse::<u64>() else {
        return None;
    };
    let mut digits = Buffer::new();
    if digits.format(n) == word {
        return Some(n);
    }
    None
}
