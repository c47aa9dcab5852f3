//! Whole reports of short traces, worked out by hand, and the causes of refusals.

use lard_base::{Bytes, Config, NoMemory, Path};
use lard_files::FileFault;
use lard_lab::{Lab, LabEvent, LabFault, Policy, heading};
use std::alloc::Global;
use std::process::Abort;
use std::test::Fail;

/// The reports of requests for `/a`, `/a` and `/b`, by each of these policies.
const HASH: &str = "lab hash nodes 2 low 25 high 65 age 20000 cache 10
1 /a n1 miss
2 /a n1 hit
3 /b n2 miss
requests 3 hits 1 full 0
n1 requests 2 hits 1 peak 2
n2 requests 1 hits 0 peak 1
";

const IN_TURN: &str = "lab rr nodes 2 low 25 high 65 age 20000 cache 10
1 /a n1 miss
2 /a n2 miss
3 /b n1 miss
requests 3 hits 0 full 0
n1 requests 2 hits 0 peak 2
n2 requests 1 hits 0 peak 1
";

const SETS: &str = "lab lardr nodes 2 low 25 high 65 age 20000 cache 10
1 /a n1 miss
2 /a n1 hit
3 /b n2 miss
requests 3 hits 1 full 0
n1 requests 2 hits 1 peak 2
n2 requests 1 hits 0 peak 1
";

/// What comes of each event where there is room for one request: the second is full, and the numbers that are done then are those
/// of no open one, but for the first.
const FULL: &str = "1 /a n1 miss
2 /b full
NotOpen(2)
NotOpen(4)
done
NotOpen(1)
NoFile
3 /b n1 miss
requests 3 hits 0 full 1
n1 requests 2 hits 0 peak 1
n2 requests 0 hits 0 peak 0
";

/// Two nodes with caches of 10 bytes.
fn config(low: u32, high: u32) -> Config {
    Config {
        nodes: 2,
        low,
        high,
        cache: 10,
        ..Config::standard()
    }
}

/// A lab with two files of 6 bytes.
fn lab(alloc: Global, policy: Policy, config: Config) -> Result<Lab, NoMemory> {
    if config.check().is_err() {
        return Err(NoMemory);
    }
    let mut lab = Lab::new(alloc, policy, config)?;
    if lab.file(b"/a", 6).is_err() || lab.file(b"/b", 6).is_err() {
        return Err(NoMemory);
    }
    Ok(lab)
}

/// Appends what comes of an event: the line of a request, or why it is refused.
fn tell(
    text: &mut Vec<u8>,
    alloc: Global,
    answer: Result<Option<Bytes>, LabFault>,
) -> Result<(), NoMemory> {
    match answer {
        Ok(Some(line)) => text.extend_from_slice(line.as_slice())?,
        Ok(None) => text.extend_from_slice(b"done\n")?,
        Err(fault) => text.extend_from_slice(format!(in alloc; "{fault:?}\n")?.as_bytes())?,
    }
    Ok(())
}

/// A request for a path comes.
fn ask(lab: &mut Lab, alloc: Global, text: &mut Vec<u8>, path: &[u8]) -> Result<(), NoMemory> {
    let path = Path::from_slice(alloc, path)?;
    let answer = lab.event(LabEvent::Req(path));
    tell(text, alloc, answer)
}

/// The request with this number is done.
fn end(lab: &mut Lab, alloc: Global, text: &mut Vec<u8>, number: u32) -> Result<(), NoMemory> {
    let answer = lab.event(LabEvent::Done(number));
    tell(text, alloc, answer)
}

/// The lines at the end.
fn total(lab: &Lab, text: &mut Vec<u8>) -> Result<(), NoMemory> {
    let totals = lab.totals()?;
    text.extend_from_slice(totals.as_slice())?;
    Ok(())
}

/// Requests for `/a`, `/a` and `/b`, and the lines at the end.
fn ask_three(lab: &mut Lab, alloc: Global, text: &mut Vec<u8>) -> Result<(), NoMemory> {
    ask(lab, alloc, text, b"/a")?;
    ask(lab, alloc, text, b"/a")?;
    ask(lab, alloc, text, b"/b")?;
    total(lab, text)
}

/// The report of these requests behind its heading.
fn traced(lab: &mut Lab, alloc: Global, heading: &[u8]) -> Result<Bytes, NoMemory> {
    let mut text = Vec::from_slice(alloc, heading)?;
    ask_three(lab, alloc, &mut text)?;
    Ok(Bytes::from_vec(text))
}

fn report(alloc: Global, policy: Policy) -> Result<Bytes, NoMemory> {
    let config = config(25, 65);
    let first = heading(alloc, policy, &config)?;
    let mut lab = lab(alloc, policy, config)?;
    traced(&mut lab, alloc, first.as_slice())
}

/// Ends the test where the report by this policy is another one.
fn reports(rt: &impl Abort, alloc: Global, policy: Policy, want: &str) -> Result<(), NoMemory> {
    let text = report(alloc, policy)?;
    assert_eq!(rt; text.as_slice(), want.as_bytes());
    Ok(())
}

#[test]
fn by_hash(rt: HostRuntime) -> Result<(), Fail> {
    reports(&rt, rt.alloc(), Policy::Hash, HASH)?;
    Ok(())
}

#[test]
fn in_turn(rt: HostRuntime) -> Result<(), Fail> {
    reports(&rt, rt.alloc(), Policy::Rr, IN_TURN)?;
    Ok(())
}

#[test]
fn by_sets(rt: HostRuntime) -> Result<(), Fail> {
    reports(&rt, rt.alloc(), Policy::LardR, SETS)?;
    Ok(())
}

/// Two requests, of which the second is full; some are done; and two more.
fn fill(lab: &mut Lab, alloc: Global, text: &mut Vec<u8>) -> Result<(), NoMemory> {
    ask(lab, alloc, text, b"/a")?;
    ask(lab, alloc, text, b"/b")?;
    end(lab, alloc, text, 2)?;
    end(lab, alloc, text, 4)?;
    end(lab, alloc, text, 1)?;
    end(lab, alloc, text, 1)?;
    ask(lab, alloc, text, b"/c")?;
    ask(lab, alloc, text, b"/b")?;
    total(lab, text)
}

/// What comes of them where there is room for one.
fn filled(alloc: Global) -> Result<Bytes, NoMemory> {
    let mut lab = lab(alloc, Policy::Lard, config(1, 1))?;
    let mut text = Vec::new(alloc);
    fill(&mut lab, alloc, &mut text)?;
    Ok(Bytes::from_vec(text))
}

#[test]
fn by_servers_with_a_full_request(rt: HostRuntime) -> Result<(), Fail> {
    let text = filled(rt.alloc())?;
    assert_eq!(rt; text.as_slice(), FULL.as_bytes());
    Ok(())
}

/// Adds a file that is there, and one that is too long.
fn refusals(alloc: Global) -> Result<[Result<(), FileFault>; 2], NoMemory> {
    let mut lab = lab(alloc, Policy::Rr, config(25, 65))?;
    Ok([lab.file(b"/a", 1), lab.file(b"/c", 1_048_577)])
}

#[test]
fn files_are_refused(rt: HostRuntime) {
    let wanted = [Err(FileFault::Repeated), Err(FileFault::TooLong(1_048_577))];
    assert_eq!(rt; refusals(rt.alloc()), Ok(wanted));
}

/// How many requests are answered before one is refused, and why it is.
fn answered(lab: &mut Lab, alloc: Global) -> Result<Option<(u32, LabFault)>, NoMemory> {
    for count in 0..=16_384u32 {
        let path = Path::from_slice(alloc, b"/a")?;
        if let Err(fault) = lab.event(LabEvent::Req(path)) {
            return Ok(Some((count, fault)));
        }
    }
    Ok(None)
}

fn answered_by_hash(alloc: Global) -> Result<Option<(u32, LabFault)>, NoMemory> {
    let mut lab = lab(alloc, Policy::Hash, config(25, 65))?;
    answered(&mut lab, alloc)
}

#[test]
fn there_are_not_too_many_requests(rt: HostRuntime) {
    let wanted = Some((16_384, LabFault::Limit));
    assert_eq!(rt; answered_by_hash(rt.alloc()), Ok(wanted));
}
