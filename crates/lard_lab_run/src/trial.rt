//! What was read of a trace so far, and the lab that its events have led to.

ghost use Rattle.std.specs.Prelude.{◌≡◌, ◌<◌, ◌≤◌, ◌^◌, length, Ok, IfOk};
ghost use Rattle.lard_base.specs.Config.{config_check, range_check};
ghost use Rattle.lard_lab.specs.Lab.{KeepsClock, totals_text};
ghost use Rattle.lard_lab.specs.Targets.{AreFresh, target_check};
ghost use Rattle.lard_lab.specs.Text.{lab_heading_line};
ghost use Rattle.lard_lab_run.specs.Items.{HasLabRange};
ghost use Rattle.lard_lab_run.specs.Seen.{lab_seen};
ghost use Rattle.lard_lab_run.specs.Trial.{AddsInLab, CountsLabFault, EndsLabCount, Finishes, IsJudged, IsLabSound, PassesInLab, SetsInLab, WritesInLab, lab_begin, lab_begun, lab_config_set, end_gain, lab_ending, trace_filed, lab_gain, lab_item_gain, lab_passed, lab_taken};

use crate::end::{LabEnd, LabLimit, LabWhy, ended_by, file_ends, refused};
use crate::item::Item;
use crate::reading::feed_line;
use lard_base::limits::MAX_INPUT_BYTES;
use lard_base::{Bytes, Config, Failed, Key, NoMemory, Path, Sink, write_all};
use lard_lab::{Lab, LabEvent, Policy, Targets, heading};
use lard_schedule::{LineFault, Reader, Stage};
use std::alloc::Global;
use std::mem;

/// What was read so far, and what it led to.
#[derive(Drop)]
pub struct Trial {
    pub policy: Policy,
    /// What may follow.
    pub reader: Reader,
    /// The numbers that the lines have set so far.
    pub config: Config,
    /// The files that the lines have added, until `go` hands them over.
    pub targets: Targets,
    /// How many lines were passed.
    pub lines: u64,
    /// How many bytes these lines have, with their line feeds.
    pub read: u64,
    /// The lab, which begins when `go` has passed.
    pub lab: Lab,
}

impl Trial {
    /// Nothing was read. `NoMemory` where memory runs out.
    pub fn new(alloc: Global, policy: Policy) -> Result<Trial, NoMemory>
        ensures { IfOk result (λ trial. lab_seen trial ≡ lab_begin policy) }
    {
        let config = Config::standard();
        Ok(Trial {
            policy,
            reader: Reader::new(),
            config,
            targets: Targets::new(alloc),
            lines: 0,
            read: 0,
            lab: Lab::new(alloc, policy, config)?,
        })
    }

    /// Takes a line, which is given without its line feed, and writes what comes of it: the heading by `go`, and the line of
    /// a request. `Refused` and `Limit` come where the line ends the lab, and nothing is written of it; after `WriteFault`
    /// and `NoMemory` a front of that is.
    #[tactic(auto, unfolding(crate::specs::Trial::lab_passed, crate::specs::Trial::lab_gain))]
    pub fn pass<K: Sink>(&mut self, alloc: Global, sink: &mut K, line: &[u8]) -> Result<(), LabEnd>
        requires sound { IsLabSound (lab_seen self.old) }
        requires small { length line.now < 2 ^ 32 }
        ensures passed { PassesInLab (lab_passed (lab_seen self.old) line.now) (lab_gain (lab_seen self.old) line.now) (K.written sink.old) (K.written sink.new) (lab_seen self.new) result }
        ensures faults { CountsLabFault (K.faults sink.old) (K.faults sink.new) result }
    {
        let number = self.lines + 1;
        let read = self.read + line.len() as u64 + 1;
        if read > MAX_INPUT_BYTES as u64 {
            return Err(LabEnd::Limit {
                line: number,
                what: LabLimit::Input,
            });
        }
        match feed_line(&mut self.reader, alloc, line) {
            Ok(item) => {
                self.lines = number;
                self.read = read;
                return self.take(alloc, sink, item);
            }
            Err(LineFault::Syntax) => return Err(refused(number, LabWhy::Syntax)),
            Err(LineFault::NoMemory) => return Err(LabEnd::NoMemory),
        }
    }

    /// Takes what a line stands for, once the line is counted and the reader has passed it.
    fn take<K: Sink>(&mut self, alloc: Global, sink: &mut K, item: Item) -> Result<(), LabEnd>
        requires fresh { AreFresh self.old.targets }
        requires time { self.old.lab.desk.time.0 ≤ 2 ^ 60 }
        requires range { HasLabRange item }
        ensures taken { PassesInLab (lab_taken (lab_seen self.old) item) (lab_item_gain (lab_seen self.old) item) (K.written sink.old) (K.written sink.new) (lab_seen self.new) result }
        ensures faults { CountsLabFault (K.faults sink.old) (K.faults sink.new) result }
    {
        match item {
            Item::Header => return Ok(()),
            Item::Set(key, value) => return self.set(key, value),
            Item::File { path, size } => return self.file(path, size),
            Item::Go => return self.go(alloc, sink),
            Item::Event(event) => return self.event(sink, event),
        }
    }

    /// Keeps a number of the configuration, if it is in its range.
    fn set(&mut self, key: Key, value: u64) -> Result<(), LabEnd>
        ensures { SetsInLab (lab_config_set (lab_seen self.old) key value (range_check key value)) (lab_seen self.new) result }
    {
        if let Err(fault) = self.config.set(key, value) {
            return Err(refused(self.lines, LabWhy::Config(fault)));
        }
        Ok(())
    }

    /// Adds a file, if it may be added.
    fn file(&mut self, path: Path, size: u64) -> Result<(), LabEnd>
        ensures { AddsInLab (trace_filed (lab_seen self.old) path size (target_check self.old.targets path size)) (lab_seen self.new) result }
    {
        if let Err(fault) = self.targets.add(path.as_slice(), size) {
            return Err(file_ends(self.lines, fault));
        }
        Ok(())
    }

    /// The lab begins with the files, if the configuration can be used, and the heading is written.
    fn go<K: Sink>(&mut self, alloc: Global, sink: &mut K) -> Result<(), LabEnd>
        requires fresh { AreFresh self.old.targets }
        ensures taken { PassesInLab (lab_taken (lab_seen self.old) Item.Go) (lab_item_gain (lab_seen self.old) Item.Go) (K.written sink.old) (K.written sink.new) (lab_seen self.new) result }
        ensures faults { CountsLabFault (K.faults sink.old) (K.faults sink.new) result }
    {
        if let Err(fault) = self.config.check() {
            return Err(refused(self.lines, LabWhy::Config(fault)));
        }
        match self.begin(alloc) {
            Ok(text) => return write(sink, text.as_slice()),
            Err(NoMemory) => return Err(LabEnd::NoMemory),
        }
    }

    /// The lab begins with the files. The heading is given back.
    fn begin(&mut self, alloc: Global) -> Result<Bytes, NoMemory>
        requires usable { config_check self.old.config ≡ Ok tt }
        requires fresh { AreFresh self.old.targets }
        ensures begun { IfOk result (λ text. lab_begun (lab_seen self.old) (Ok tt) ≡ Ok (lab_seen self.new)) }
        ensures text { IfOk result (λ text. text ≡ lab_heading_line self.old.policy self.old.config) }
    {
        let text = heading(alloc, self.policy, &self.config)?;
        let targets = mem::replace(&mut self.targets, Targets::new(alloc));
        self.lab = Lab::with_targets(alloc, self.policy, self.config, targets)?;
        Ok(text)
    }

    /// Does what an event does, and writes the line of a request.
    fn event<K: Sink>(&mut self, sink: &mut K, event: LabEvent) -> Result<(), LabEnd>
        requires { KeepsClock self.old.lab event }
        ensures taken { PassesInLab (lab_taken (lab_seen self.old) (Item.Event event)) (lab_item_gain (lab_seen self.old) (Item.Event event)) (K.written sink.old) (K.written sink.new) (lab_seen self.new) result }
        ensures faults { CountsLabFault (K.faults sink.old) (K.faults sink.new) result }
    {
        match self.lab.event(event) {
            Ok(Some(line)) => return write(sink, line.as_slice()),
            Ok(None) => return Ok(()),
            Err(fault) => return Err(ended_by(self.lines, fault)),
        }
    }

    /// Ends the lab behind these bytes, which no line feed follows, and writes the totals where it is done.
    pub fn end<K: Sink>(&self, sink: &mut K, rest: &[u8]) -> LabEnd
        requires sound { IsLabSound (lab_seen self.now) }
        requires small { length rest.now < 2 ^ 32 }
        ensures ended { Finishes (lab_ending (lab_seen self.now) rest.now) (end_gain (lab_seen self.now) rest.now) (K.written sink.old) (K.written sink.new) result }
        ensures faults { EndsLabCount (K.faults sink.old) (K.faults sink.new) result }
    {
        match self.judge(rest) {
            Ok(()) => return self.finish(sink),
            Err(end) => return end,
        }
    }

    /// Whether the lab is done behind these bytes, or how it ends.
    fn judge(&self, rest: &[u8]) -> Result<(), LabEnd>
        requires sound { IsLabSound (lab_seen self.now) }
        requires small { length rest.now < 2 ^ 32 }
        ensures { IsJudged (lab_seen self.now) rest.now result }
    {
        let number = self.lines + 1;
        if self.read + rest.len() as u64 > MAX_INPUT_BYTES as u64 && !rest.is_empty() {
            return Err(LabEnd::Limit {
                line: number,
                what: LabLimit::Input,
            });
        }
        match (rest, self.reader.stage) {
            ([], Stage::Running) => Ok(()),
            _ => Err(refused(number, LabWhy::Syntax)),
        }
    }

    /// Writes the totals.
    fn finish<K: Sink>(&self, sink: &mut K) -> LabEnd
        ensures ended { Finishes LabEnd.Done (totals_text self.now.lab) (K.written sink.old) (K.written sink.new) result }
        ensures faults { EndsLabCount (K.faults sink.old) (K.faults sink.new) result }
    {
        let text = match self.lab.totals() {
            Ok(text) => text,
            Err(NoMemory) => return LabEnd::NoMemory,
        };
        match write(sink, text.as_slice()) {
            Ok(()) => return LabEnd::Done,
            Err(end) => return end,
        }
    }
}

fn write<K: Sink>(sink: &mut K, text: &[u8]) -> Result<(), LabEnd>
    ensures written { WritesInLab text.now (K.written sink.old) (K.written sink.new) result }
    ensures faults { CountsLabFault (K.faults sink.old) (K.faults sink.new) result }
{
    match write_all(sink, text) {
        Ok(()) => return Ok(()),
        Err(Failed) => return Err(LabEnd::WriteFault),
    }
}
