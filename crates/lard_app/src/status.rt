//! How a run ends, as a status, an exit code and a line for a person.

ghost use Rattle.std.specs.Prelude.{◌≡◌, ◌++◌, IfOk, OnOk, codes, decimal};
ghost use Rattle.std.specs.String.{string_bytes};
ghost use Rattle.lard_app.specs.Status.{code_of, line_prefix, line_text, what_word, why_text, with_fault, with_file_fault, with_refusal, rule_word};

use itoa::Buffer;
use lard_audit::Rule;
use lard_base::{ConfigFault, Key, NoMemory};
use lard_files::FileFault;
use lard_rules::{Refusal, What};
use lard_schedule::key_word;
use std::alloc::Global;

/// Why a line was refused.
#[derive(Clone, Copy, Debug, PartialEq, Eq)]
pub enum Why {
    /// It is no line of the schedule in its place.
    Syntax,
    /// It gives a number that the configuration can't have, or `go` follows numbers that don't go together.
    Config(ConfigFault),
    /// It adds a file that may not be added, for another cause than running out of memory, which is `Status::NoMemory`.
    File(FileFault),
    /// It is an event that can't happen as things stand: it names what is not there, or what is there already, or closes the last node.
    Untimely(Refusal),
    /// It requests a path that no file of the trace has.
    NoFile,
    /// It says that the request with this number is done, which is not open.
    NotOpen(u32),
    /// It is a record of a report that breaks this rule, as its first.
    Broken(Rule),
}

/// How a run ended. Lines are counted from 1.
#[derive(Clone, Copy, Debug, PartialEq, Eq)]
pub enum Status {
    /// The input was read to its end, and the whole report was written.
    Done,
    /// The words are no command with its arguments.
    Usage,
    /// The line was refused; the report of the steps before it was written.
    Refused { line: u64, why: Why },
    /// The input could not be read.
    ReadFault,
    /// The report could not be written.
    WriteFault,
    /// Memory ran out.
    NoMemory,
    /// The line goes past a limit; the report of the steps before it was written.
    Limit { line: u64, what: What },
}

impl Status {
    /// The exit status of the program: 0 to 6, in the order of the variants.
    pub fn code(&self) -> u8
        ensures { result ≡ code_of self.now }
    {
        match self {
            Status::Done => 0,
            Status::Usage => 1,
            Status::Refused { .. } => 2,
            Status::ReadFault => 3,
            Status::WriteFault => 4,
            Status::NoMemory => 5,
            Status::Limit { .. } => 6,
        }
    }

    /// The line that the program prints to standard error, without its line feed; empty for `Done`. `NoMemory` where
    /// memory runs out.
    pub fn line(&self, alloc: Global) -> Result<String, NoMemory>
        ensures { IfOk result (λ text. string_bytes text ≡ line_text self.now) }
    {
        match self {
            Status::Done => return owned(alloc, ""),
            Status::Usage => {
                return owned(
                    alloc,
                    "usage: lardsim replay | generate SEED CLIENTS | audit | lab POLICY",
                );
            }
            Status::Refused { line, why } => return refusal(alloc, *line, *why),
            Status::ReadFault => return owned(alloc, "read fault"),
            Status::WriteFault => return owned(alloc, "write fault"),
            Status::NoMemory => return owned(alloc, "no memory"),
            Status::Limit { line, what } => return limit(alloc, *line, *what),
        }
    }
}

/// A line was refused.
pub fn refused(line: u64, why: Why) -> Status
    ensures { result ≡ Status.Refused line why }
{
    Status::Refused { line, why }
}

fn owned(alloc: Global, text: &str) -> Result<String, NoMemory>
    ensures { IfOk result (λ copy. string_bytes copy ≡ text.now) }
{
    let copy = String::from_str(alloc, text)?;
    Ok(copy)
}

fn refusal(alloc: Global, line: u64, why: Why) -> Result<String, NoMemory>
    ensures { IfOk result (λ text. string_bytes text ≡ why_text line why) }
{
    let text = at_line(alloc, line)?;
    match why {
        Why::Syntax => return ended(text, "not a line of the schedule"),
        Why::Config(fault) => return faulty(text, fault),
        Why::File(fault) => return not_added(text, fault),
        Why::Untimely(reason) => return untimely(text, reason),
        Why::NoFile => return ended(text, "no such file"),
        Why::NotOpen(number) => return not_open(text, number),
        Why::Broken(rule) => return breaks(text, rule),
    }
}

/// A text, and then the words that end it.
fn ended(mut text: String, words: &str) -> Result<String, NoMemory>
    ensures { IfOk result (λ longer. string_bytes longer ≡ string_bytes text ++ words.now) }
{
    text.push_str(words)?;
    Ok(text)
}

/// A text, and then words and a number.
fn counted(mut text: String, words: &str, n: u64) -> Result<String, NoMemory>
    ensures { IfOk result (λ longer. string_bytes longer ≡ string_bytes text ++ words.now ++ decimal n) }
{
    text.push_str(words)?;
    push_number(&mut text, n)?;
    Ok(text)
}

/// A text, and then what is wrong with a configuration.
fn faulty(mut text: String, fault: ConfigFault) -> Result<String, NoMemory>
    ensures { IfOk result (λ longer. string_bytes longer ≡ with_fault (string_bytes text) fault) }
{
    match fault {
        ConfigFault::Range { key, value } => {
            text.push_str(key_word(key))?;
            return counted(text, " out of range: ", value);
        }
        ConfigFault::LowHigh { low, high } => {
            let text = counted(text, "low ", u64::from(low))?;
            return counted(text, " above high ", u64::from(high));
        }
        ConfigFault::NoRoom => return ended(text, "no connection can be admitted"),
    }
}

/// A text, and then why a file is not added.
fn not_added(text: String, fault: FileFault) -> Result<String, NoMemory>
    ensures { IfOk result (λ longer. string_bytes longer ≡ with_file_fault (string_bytes text) fault) }
{
    match fault {
        FileFault::Repeated => return ended(text, "file repeated"),
        FileFault::TooLong(n) => return counted(text, "file too long: ", n),
        FileFault::TooMany(n) => return counted(text, "too many files: ", n),
        FileFault::TooMuch(n) => return counted(text, "files too large: ", n),
        FileFault::NoMemory => return ended(text, "no memory"),
    }
}

/// A text, and then why an event can't happen.
fn untimely(text: String, reason: Refusal) -> Result<String, NoMemory>
    ensures { IfOk result (λ longer. string_bytes longer ≡ with_refusal (string_bytes text) reason) }
{
    match reason {
        Refusal::NotSent { k, sent } => return not_sent(text, k, sent),
        Refusal::WasLost(k) => return of_packet(text, k, " was lost"),
        Refusal::NoClient(c) => return of_client(text, c, " not opened"),
        Refusal::Used(c) => return of_client(text, c, " opened before"),
        Refusal::NoNode { n, nodes } => return no_node(text, n, nodes),
        Refusal::LastNode(n) => return last_node(text, n),
        Refusal::NoJob { n, j, len } => return no_job(text, n, j, len),
    }
}

/// A text, and then that this request is not open.
fn not_open(text: String, number: u32) -> Result<String, NoMemory>
    ensures { IfOk result (λ longer. string_bytes longer ≡ string_bytes text ++ codes "request " ++ decimal number ++ codes " is not open") }
{
    let longer = counted(text, "request ", u64::from(number))?;
    ended(longer, " is not open")
}

/// A text, and then that this rule is broken.
fn breaks(text: String, rule: Rule) -> Result<String, NoMemory>
    ensures { IfOk result (λ longer. string_bytes longer ≡ string_bytes text ++ codes "breaks " ++ rule_word rule) }
{
    let longer = ended(text, "breaks ")?;
    ended(longer, rule_word(rule))
}

/// The word of a rule.
fn rule_word(rule: Rule) -> &'static str
    ensures { result.now ≡ rule_word rule }
{
    match rule {
        Rule::Network => "network",
        Rule::Owner => "owner",
        Rule::Sender => "sender",
        Rule::Admission => "admission",
        Rule::Choice => "choice",
        Rule::Cache => "cache",
        Rule::Clock => "clock",
    }
}

/// A text, and then that this packet is not among those that were sent.
fn not_sent(text: String, k: u32, sent: u32) -> Result<String, NoMemory>
    ensures { IfOk result (λ longer. string_bytes longer ≡ string_bytes text ++ codes "packet " ++ decimal k ++ codes " of " ++ decimal sent ++ codes " sent") }
{
    let mut longer = of_packet(text, k, " of ")?;
    push_number(&mut longer, u64::from(sent))?;
    ended(longer, " sent")
}

/// A text, and then a packet and what is said of it.
fn of_packet(mut text: String, k: u32, words: &str) -> Result<String, NoMemory>
    ensures { IfOk result (λ longer. string_bytes longer ≡ string_bytes text ++ codes "packet " ++ decimal k ++ words.now) }
{
    text.push_str("packet ")?;
    push_number(&mut text, u64::from(k))?;
    text.push_str(words)?;
    Ok(text)
}

/// A text, and then a client and what is said of it.
fn of_client(mut text: String, c: u32, words: &str) -> Result<String, NoMemory>
    ensures { IfOk result (λ longer. string_bytes longer ≡ string_bytes text ++ codes "client " ++ decimal c ++ words.now) }
{
    text.push_str("client ")?;
    push_number(&mut text, u64::from(c))?;
    text.push_str(words)?;
    Ok(text)
}

/// A text, and then that this node is not among those that are there.
fn no_node(text: String, n: u32, nodes: u8) -> Result<String, NoMemory>
    ensures { IfOk result (λ longer. string_bytes longer ≡ string_bytes text ++ codes "node " ++ decimal n ++ codes " above " ++ decimal nodes) }
{
    let longer = counted(text, "node ", u64::from(n))?;
    counted(longer, " above ", u64::from(nodes))
}

/// A text, and then that no node but this one is open.
fn last_node(text: String, n: u8) -> Result<String, NoMemory>
    ensures { IfOk result (λ longer. string_bytes longer ≡ string_bytes text ++ codes "node " ++ decimal n ++ codes " is the last") }
{
    let longer = counted(text, "node ", u64::from(n))?;
    ended(longer, " is the last")
}

/// A text, and then that this job is not among those that are queued at a node.
fn no_job(text: String, n: u8, j: u32, len: u32) -> Result<String, NoMemory>
    ensures { IfOk result (λ longer. string_bytes longer ≡ string_bytes text ++ codes "job " ++ decimal j ++ codes " of " ++ decimal len ++ codes " at node " ++ decimal n) }
{
    let job = counted(text, "job ", u64::from(j))?;
    let longer = counted(job, " of ", u64::from(len))?;
    counted(longer, " at node ", u64::from(n))
}

fn limit(alloc: Global, line: u64, what: What) -> Result<String, NoMemory>
    ensures { IfOk result (λ text. string_bytes text ≡ line_text (Status.Limit line what)) }
{
    let mut text = at_line(alloc, line)?;
    text.push_str("limit ")?;
    text.push_str(what_word(what))?;
    Ok(text)
}

/// The word of a limit.
fn what_word(what: What) -> &'static str
    ensures { result.now ≡ what_word what }
{
    match what {
        What::Input => "input",
        What::Packets => "packets",
        What::PacketBytes => "packet-bytes",
        What::Records => "records",
        What::Answers => "answers",
        What::Requests => "requests",
        What::Stream => "stream",
    }
}

fn at_line(alloc: Global, line: u64) -> Result<String, NoMemory>
    ensures { IfOk result (λ text. string_bytes text ≡ line_prefix line) }
{
    let mut text = String::from_str(alloc, "line ")?;
    push_number(&mut text, line)?;
    text.push_str(": ")?;
    Ok(text)
}

fn push_number(text: &mut String, n: u64) -> Result<(), NoMemory>
    ensures { OnOk result (string_bytes text.new ≡ string_bytes text.old ++ decimal n) }
{
    let mut buffer = Buffer::new();
    text.push_str(buffer.format(n))?;
    Ok(())
}
