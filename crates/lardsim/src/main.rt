//! The program `lardsim`: a thin `main` over `lard_app::run`.
//!
//! It answers `--help` and `--version` itself. All other words go to `run`, with standard input and output, which it ties
//! together; the status is said in a line on standard error, and is the exit status.
#![tactic(auto)]

mod edges;

use crate::edges::{Inlet, Outlet, Report};
use lard_app::{Status, flush_report, run};
use lard_base::{StdSink, StdSource};
use std::cell::RefCell;
use std::env;
use std::io::{self, ErrorKind, Write};
use std::process::ExitCode;
use std::rt::Env;

const VERSION: &str = "lardsim 0.1.0\n";

const HELP: &str = "\
lardsim: replays schedules through a content-aware web cluster behind one address

usage: lardsim replay
       lardsim generate SEED CLIENTS
       lardsim audit
       lardsim lab POLICY
       lardsim --help
       lardsim --version

replay      reads a schedule from standard input, replays it, and writes the
            report, with every record of what happened, to standard output
generate    makes a large schedule of a number below 2^64 with 1 to 2000
            clients, replays it, and writes four lines of what is counted:
            the responses, the bytes that the clients accepted, the packets
            and the records, and whether anything was left (open) or not
audit       reads a report from standard input, and writes how many records it
            has, where each keeps the rules by those before it
lab         reads a trace of requests from standard input, runs it through a
            policy, rr, hash, lard or lardr, and writes the node of each
            request, hits and loads

exit statuses, each with a line on standard error:
  0  done: the input was read to its end, and all was written
  1  usage: the words are no command with its arguments
  2  a line of the input was refused; the report of the lines before it stands
  3  the input could not be read
  4  the output could not be written
  5  memory ran out
  6  a limit was reached; the report of the lines before it stands

The lines of a schedule are described in docs/SCHEDULE.md, those of a report
in docs/REPORT.md, those of the lab in docs/LAB.md, and what an
audit judges in docs/AUDIT.md. The manual page: man -l docs/lardsim.1
";

fn main(rt: HostRuntime) -> ExitCode {
    let status = status_of(&rt);
    say(&rt, &status);
    ExitCode::from(status.code())
}

/// Does what the words ask for.
fn status_of(rt: &(impl Env + Input + Print + AllocGlobal)) -> Status {
    let words = match words(rt) {
        Ok(words) => words,
        Err(status) => return status,
    };
    match words.as_slice() {
        [word] if word.as_str() == "--help" => print(rt, HELP),
        [word] if word.as_str() == "--version" => print(rt, VERSION),
        words => run_all(rt, words),
    }
}

/// The words after the program's name. Words that are no text ask for nothing that there is.
fn words(rt: &(impl Env + AllocGlobal)) -> Result<Vec<String>, Status> {
    let mut all = match env::args(rt) {
        Ok(all) => all,
        Err(error) => return Err(unread_words(error.kind())),
    };
    let _name = all.next();
    match all.collect(rt.alloc()) {
        Ok(words) => Ok(words),
        Err(_) => Err(Status::NoMemory),
    }
}

fn unread_words(kind: ErrorKind) -> Status {
    match kind {
        ErrorKind::OutOfMemory => Status::NoMemory,
        _ => Status::Usage,
    }
}

/// Prints a text of the program's own.
fn print(rt: &impl Print, text: &str) -> Status {
    match rt.print(text) {
        Ok(()) => Status::Done,
        Err(_) => Status::WriteFault,
    }
}

/// Runs the words over standard input and output. What is held back is passed on at the end.
fn run_all(rt: &(impl Input + Print + AllocGlobal), words: &[String]) -> Status {
    let Ok(sink) = StdSink::new(rt.alloc(), io::writer(rt)) else {
        return Status::NoMemory;
    };
    let outlet = RefCell::new(Outlet {
        sink,
        is_broken: false,
    });
    let status = run_tied(rt, words, &outlet);
    let mut outlet = outlet.into_inner();
    flush_report(&mut outlet.sink, status)
}

/// Runs the words over standard input, tied to where the report goes to.
fn run_tied<W: Write + Drop>(
    rt: &(impl Input + AllocGlobal),
    words: &[String],
    outlet: &RefCell<Outlet<W>>,
) -> Status {
    let mut source = Inlet {
        source: StdSource::new(rt.reader()),
        outlet,
    };
    let mut report = Report { outlet, faults: 0 };
    run(rt.alloc(), words, &mut source, &mut report)
}

/// Says the status on standard error. Nothing is said for `Done`, nor where the line finds no memory.
fn say(rt: &(impl Eprint + AllocGlobal), status: &Status) {
    if *status == Status::Done {
        return;
    }
    if let Ok(line) = status.line(rt.alloc()) {
        let _ = rt.eprintln(line.as_str());
    }
}
