//! The lines of a report.

ghost use Rattle.std.specs.Prelude.{◌≡◌, ◌+◌, ◌≤◌, ◌++◌, None, length, vec_capacity, IfOk, OnOk, codes, decimal};
ghost use Rattle.lard_lab.specs.Text.{lab_heading_line, line_front, node_line, node_lines, numbers_text, outcome_word, request_line, thresholds_text, totals_line};

use crate::backends::Backend;
use crate::policy::Policy;
use itoa::Buffer;
use lard_base::{Bytes, Config, NoMemory, NodeId};
use std::alloc::Global;

/// The most bytes of an outcome.
const OUTCOME: usize = 6;

/// As many bytes as a request's number, its node and its outcome have at most.
const NUMBERS: usize = 32;

/// The first line of a report: the policy, and the numbers of the configuration that count.
#[tactic(auto, unfolding(crate::specs::Text::lab_heading_line))]
pub fn heading(alloc: Global, policy: Policy, config: &Config) -> Result<Bytes, NoMemory>
    ensures { IfOk result (λ text. text ≡ lab_heading_line policy config.now) }
{
    let mut text = Vec::new(alloc);
    push_text(&mut text, "lab ")?;
    push_text(&mut text, policy.word())?;
    push_numbers(&mut text, config)?;
    Ok(Bytes::from_vec(text))
}

/// Appends the numbers of a configuration that count, and a line feed.
#[tactic(auto, unfolding(crate::specs::Text::numbers_text))]
fn push_numbers(text: &mut Vec<u8>, config: &Config) -> Result<(), NoMemory>
    ensures { OnOk result (text.new.items ≡ text.old.items ++ numbers_text config.now) }
{
    push_thresholds(text, config)?;
    push_count(text, " age ", config.age)?;
    push_count(text, " cache ", u64::from(config.cache))?;
    push_text(text, "\n")?;
    Ok(())
}

/// Appends how many nodes there are, and the thresholds of their loads.
#[tactic(auto, unfolding(crate::specs::Text::thresholds_text))]
fn push_thresholds(text: &mut Vec<u8>, config: &Config) -> Result<(), NoMemory>
    ensures { OnOk result (text.new.items ≡ text.old.items ++ thresholds_text config.now) }
{
    push_count(text, " nodes ", u64::from(config.nodes))?;
    push_count(text, " low ", u64::from(config.low))?;
    push_count(text, " high ", u64::from(config.high))?;
    Ok(())
}

/// The line of a request that goes to a node, up to its outcome, with room for that.
#[tactic(auto, unfolding(crate::specs::Text::line_front))]
pub fn line_front(alloc: Global, number: u32, path: &[u8], n: NodeId) -> Result<Vec<u8>, NoMemory>
    ensures front { IfOk result (λ text. text.items ≡ line_front number path.now n) }
    ensures room { IfOk result (λ text. length text.items + 6 ≤ vec_capacity text) }
{
    let mut text = numbered(alloc, number, path)?;
    push_count(&mut text, " n", u64::from(n.number()))?;
    text.reserve(OUTCOME)?;
    Ok(text)
}

/// The line of a request, by what stands before its outcome: whether its path was in the cache.
pub fn with_outcome(mut text: Vec<u8>, hit: bool) -> Bytes
    requires { length text.items + 6 ≤ vec_capacity text }
    ensures { result ≡ text.items ++ outcome_word hit }
{
    text.extend_from_slice(outcome_word(hit).as_bytes())
        .unwrap();
    Bytes::from_vec(text)
}

/// The line of a request that is full.
#[tactic(auto, unfolding(crate::specs::Text::request_line))]
pub fn full_line(alloc: Global, number: u32, path: &[u8]) -> Result<Bytes, NoMemory>
    ensures { IfOk result (λ text. text ≡ request_line number path.now None) }
{
    let mut text = numbered(alloc, number, path)?;
    push_text(&mut text, " full\n")?;
    Ok(Bytes::from_vec(text))
}

/// The front of the line of a request: its number and its path. All of the line fits into the memory that is taken.
fn numbered(alloc: Global, number: u32, path: &[u8]) -> Result<Vec<u8>, NoMemory>
    ensures { IfOk result (λ text. text.items ≡ decimal number ++ codes " " ++ path.now) }
{
    let mut text = Vec::with_capacity(alloc, path.len() + NUMBERS)?;
    push_count(&mut text, "", u64::from(number))?;
    push_text(&mut text, " ")?;
    text.extend_from_slice(path)?;
    Ok(text)
}

/// How a line ends whose path was in the cache, or was not.
fn outcome_word(hit: bool) -> &'static str
    ensures { result.now ≡ outcome_word hit }
{
    if hit { " hit\n" } else { " miss\n" }
}

/// The lines at the end of a report: what was counted of all requests, and then of each node.
#[tactic(auto, unfolding(crate::specs::Text::totals_line))]
pub fn totals(
    alloc: Global,
    requests: u32,
    hits: u32,
    full: u32,
    nodes: &[Backend],
) -> Result<Bytes, NoMemory>
    ensures { IfOk result (λ text. text ≡ totals_line requests hits full ++ node_lines 1 nodes.now) }
{
    let mut text = Vec::new(alloc);
    push_count(&mut text, "requests ", u64::from(requests))?;
    push_count(&mut text, " hits ", u64::from(hits))?;
    push_count(&mut text, " full ", u64::from(full))?;
    push_text(&mut text, "\n")?;
    push_nodes(&mut text, nodes)?;
    Ok(Bytes::from_vec(text))
}

/// Appends the lines of all nodes.
fn push_nodes(text: &mut Vec<u8>, nodes: &[Backend]) -> Result<(), NoMemory>
    ensures { OnOk result (text.new.items ≡ text.old.items ++ node_lines 1 nodes.now) }
{
    let mut at = 0;
    while at < nodes.len() {
        push_node(text, at as u64 + 1, &nodes[at])?;
        at += 1;
    }
    Ok(())
}

/// Appends the line of a node.
#[tactic(auto, unfolding(crate::specs::Text::node_line))]
fn push_node(text: &mut Vec<u8>, number: u64, node: &Backend) -> Result<(), NoMemory>
    ensures { OnOk result (text.new.items ≡ text.old.items ++ node_line number node.now) }
{
    push_count(text, "n", number)?;
    push_count(text, " requests ", u64::from(node.requests))?;
    push_count(text, " hits ", u64::from(node.hits))?;
    push_count(text, " peak ", u64::from(node.peak))?;
    push_text(text, "\n")?;
    Ok(())
}

/// Appends words and a number.
fn push_count(text: &mut Vec<u8>, words: &str, n: u64) -> Result<(), NoMemory>
    ensures { OnOk result (text.new.items ≡ text.old.items ++ words.now ++ decimal n) }
{
    let mut digits = Buffer::new();
    text.extend_from_slice(words.as_bytes())?;
    text.extend_from_slice(digits.format(n).as_bytes())?;
    Ok(())
}

/// Appends words.
fn push_text(text: &mut Vec<u8>, words: &str) -> Result<(), NoMemory>
    ensures { OnOk result (text.new.items ≡ text.old.items ++ words.now) }
{
    text.extend_from_slice(words.as_bytes())?;
    Ok(())
}
