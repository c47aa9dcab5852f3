//! A replay: what was read of a schedule so far, and the world that its events have led to.

ghost use Rattle.std.specs.Prelude.{◌≡◌, ◌≢◌, ◌+◌, ◌++◌, ◌≤◌, ◌<◌, ◌^◌, true, false, length, drop, Ok, IfOk, OnOk};
ghost use Rattle.std.specs.List.{flat_map};
ghost use Rattle.lard_base.specs.Config.{config_check, range_check};
ghost use Rattle.lard_files.specs.Files.{add_check};
ghost use Rattle.lard_journal.specs.Report.{file_text, heading_line, rec_line};
ghost use Rattle.lard_report.specs.Formed.{HaveWidths};
ghost use Rattle.lard_schedule.specs.Events.{IsInLineRange};
ghost use Rattle.lard_schedule.specs.Files.{is_file_path};
ghost use Rattle.lard_schedule.specs.Reader.{HasRange};
ghost use Rattle.lard_agenda.specs.Agenda.{IsAgendaOf};
ghost use Rattle.lard_app.specs.Replay.{CountsFault, EndsCount, HaltsAt, IsProgressSound, PassesLine, Writes, begin, replay_begun, came_to, config_set, ended_by, ending, file_ends, filed, gain, halted, item_gain, line_passed, machine_behind, taken_item};
ghost use Rattle.lard_settling.specs.Events.{event_step};
ghost use Rattle.lard_app.specs.Seen.{Adds, Sets, StopsAtLine, replay_seen};

use crate::happening::{ended_by, settle_or_step};
use crate::status::{Status, Why, refused};
use lard_agenda::Agenda;
use lard_agenda::laws::agendas_go_on;
use lard_base::limits::MAX_INPUT_BYTES;
use lard_base::{Bytes, Config, Event, Failed, Key, NoMemory, Path, Sink, write_all};
use lard_files::{FileFault, Files};
use lard_journal::{Journal, Rec, file_line, heading, push_line};
use lard_report::have_widths;
use lard_rules::{StepFault, What};
use lard_schedule::{Item, LineFault, Reader, Stage};
use lard_settle::World;
use std::alloc::Global;
use std::mem;

/// How many records are written in one piece.
const PIECE: usize = 1_000;

/// What was read so far, and what it led to. It holds a world, and so has to be spent, by `finish`.
pub struct Replay {
    /// What may follow.
    pub reader: Reader,
    /// The numbers that the lines have set so far.
    pub config: Config,
    /// The files that the lines have added, until `go` hands them over.
    pub files: Files,
    /// Their lines in the report.
    pub listed: Vec<u8>,
    /// How many lines were passed.
    pub lines: u64,
    /// How many bytes these lines have, with their line feeds.
    pub read: u64,
    /// The world, which begins when `go` has passed.
    pub world: World,
    /// What its journal leaves to be done, as far as a settle has looked.
    pub agenda: Agenda,
}

impl Replay {
    /// Nothing was read. `NoMemory` where memory runs out.
    pub fn new(alloc: Global) -> Result<Replay, NoMemory>
        ensures begin { IfOk result (λ replay. replay_seen replay ≡ begin) }
        ensures usable { IfOk result (λ replay. replay.world.spoiled ≡ false) }
        ensures agenda { IfOk result (λ replay. IsAgendaOf replay.agenda replay.world.machine.journal) }
    {
        agendas_go_on();
        let config = Config::standard();
        let world = World::new(alloc, config, Files::new(alloc))?;
        Ok(Replay {
            reader: Reader::new(),
            config,
            files: Files::new(alloc),
            listed: Vec::new(alloc),
            lines: 0,
            read: 0,
            world,
            agenda: Agenda::new(alloc),
        })
    }

    /// Takes a line, which is given without its line feed, and writes what the report gains. `Refused` and `Limit` come
    /// where the line ends the run, and what the report gained by it is written; after `WriteFault` and `NoMemory` a
    /// front of that is.
    #[tactic(auto, unfolding(crate::specs::Replay::line_passed, crate::specs::Replay::gain, crate::specs::Replay::halted))]
    pub fn pass<K: Sink>(&mut self, alloc: Global, sink: &mut K, line: &[u8]) -> Result<(), Status>
        requires usable { self.old.world.spoiled ≡ false }
        requires agenda { IsAgendaOf self.old.agenda self.old.world.machine.journal }
        requires sound { IsProgressSound (replay_seen self.old) }
        requires small { length line.now < 2 ^ 32 }
        ensures passed { PassesLine (line_passed (replay_seen self.old) line.now) (gain (replay_seen self.old) line.now) (K.written sink.old) (K.written sink.new) (replay_seen self.new) result }
        ensures halts { HaltsAt (halted (replay_seen self.old) line.now).machine self.new.world.machine result }
        ensures usable { OnOk result (self.new.world.spoiled ≡ false) }
        ensures agenda { OnOk result (IsAgendaOf self.new.agenda self.new.world.machine.journal) }
        ensures faults { CountsFault (K.faults sink.old) (K.faults sink.new) result }
    {
        let number = self.lines + 1;
        let read = self.read + line.len() as u64 + 1;
        if read > MAX_INPUT_BYTES as u64 {
            return Err(Status::Limit {
                line: number,
                what: What::Input,
            });
        }
        match self.reader.feed_line(alloc, line) {
            Ok(item) => {
                self.lines = number;
                self.read = read;
                return self.take_item(alloc, sink, item);
            }
            Err(LineFault::Syntax) => return Err(refused(number, Why::Syntax)),
            Err(LineFault::NoMemory) => return Err(Status::NoMemory),
        }
    }

    /// Takes what a line stands for, once the line is counted and the reader has passed it.
    fn take_item<K: Sink>(&mut self, alloc: Global, sink: &mut K, item: Item) -> Result<(), Status>
        requires usable { self.old.world.spoiled ≡ false }
        requires agenda { IsAgendaOf self.old.agenda self.old.world.machine.journal }
        requires range { HasRange item }
        ensures taken { PassesLine (taken_item (replay_seen self.old) item) (item_gain (replay_seen self.old) item) (K.written sink.old) (K.written sink.new) (replay_seen self.new) result }
        ensures halts { HaltsAt (machine_behind self.old.world.machine (Ok item)) self.new.world.machine result }
        ensures usable { OnOk result (self.new.world.spoiled ≡ false) }
        ensures agenda { OnOk result (IsAgendaOf self.new.agenda self.new.world.machine.journal) }
        ensures faults { CountsFault (K.faults sink.old) (K.faults sink.new) result }
    {
        match item {
            Item::Header => return Ok(()),
            Item::Set(key, value) => return self.set(key, value),
            Item::File { path, bytes } => return self.file(alloc, path, bytes),
            Item::Go => return self.go(alloc, sink),
            Item::Event(event) => return self.replay_event(alloc, sink, event),
        }
    }

    /// Keeps a number of the configuration, if it is in its range.
    fn set(&mut self, key: Key, value: u64) -> Result<(), Status>
        ensures set { Sets (config_set (replay_seen self.old) key value (range_check key value)) (replay_seen self.new) result }
        ensures world { self.new.world ≡ self.old.world }
        ensures agenda { self.new.agenda ≡ self.old.agenda }
    {
        if let Err(fault) = self.config.set(key, value) {
            return Err(refused(self.lines, Why::Config(fault)));
        }
        Ok(())
    }

    /// Adds a file, if it may be added, and its line to those of the report.
    fn file(&mut self, alloc: Global, path: Path, bytes: Bytes) -> Result<(), Status>
        requires range { is_file_path path ≡ true }
        ensures filed { Adds (filed (replay_seen self.old) path bytes (add_check self.old.files path (length bytes))) (replay_seen self.new) result }
        ensures world { self.new.world ≡ self.old.world }
        ensures agenda { self.new.agenda ≡ self.old.agenda }
    {
        if let Err(fault) = self.files.add(path.as_slice(), bytes.as_slice()) {
            return Err(file_ends(self.lines, fault));
        }
        match list(alloc, &mut self.listed, path.as_slice(), bytes.len() as u64) {
            Ok(()) => Ok(()),
            Err(NoMemory) => Err(Status::NoMemory),
        }
    }

    /// The world begins with the files, if the configuration can be used, and the heading is written, and their lines.
    fn go<K: Sink>(&mut self, alloc: Global, sink: &mut K) -> Result<(), Status>
        ensures taken { PassesLine (taken_item (replay_seen self.old) Item.Go) (item_gain (replay_seen self.old) Item.Go) (K.written sink.old) (K.written sink.new) (replay_seen self.new) result }
        ensures halts { HaltsAt self.old.world.machine self.new.world.machine result }
        ensures usable { OnOk result (self.new.world.spoiled ≡ false) }
        ensures agenda { OnOk result (IsAgendaOf self.new.agenda self.new.world.machine.journal) }
        ensures faults { CountsFault (K.faults sink.old) (K.faults sink.new) result }
    {
        if let Err(fault) = self.config.check() {
            return Err(refused(self.lines, Why::Config(fault)));
        }
        match self.begin(alloc) {
            Ok(text) => return write(sink, text.as_slice()),
            Err(NoMemory) => return Err(Status::NoMemory),
        }
    }

    /// The world begins with the files. What its report begins with is given back.
    fn begin(&mut self, alloc: Global) -> Result<Vec<u8>, NoMemory>
        requires usable { config_check self.old.config ≡ Ok tt }
        ensures begun { IfOk result (λ text. replay_begun (replay_seen self.old) (Ok tt) ≡ Ok (replay_seen self.new)) }
        ensures text { IfOk result (λ text. text.items ≡ heading_line self.old.config ++ self.old.listed.items) }
        ensures usable { IfOk result (λ text. self.new.world.spoiled ≡ false) }
        ensures agenda { IfOk result (λ text. IsAgendaOf self.new.agenda self.new.world.machine.journal) }
    {
        agendas_go_on();
        let files = mem::replace(&mut self.files, Files::new(alloc));
        let listed = mem::replace(&mut self.listed, Vec::new(alloc));
        let world = World::new(alloc, self.config, files)?;
        let before = mem::replace(&mut self.world, world);
        let _empty = before.finish();
        self.agenda = Agenda::new(alloc);
        let text = preface(alloc, &self.config, listed.as_slice())?;
        Ok(text)
    }

    /// Does what an event does, a step or a settle, and writes the records that came of it, also where a limit ended a
    /// settle inside.
    fn replay_event<K: Sink>(
        &mut self,
        alloc: Global,
        sink: &mut K,
        event: Event,
    ) -> Result<(), Status>
        requires usable { self.old.world.spoiled ≡ false }
        requires agenda { IsAgendaOf self.old.agenda self.old.world.machine.journal }
        requires range { IsInLineRange event }
        ensures taken { PassesLine (taken_item (replay_seen self.old) (Item.Event event)) (item_gain (replay_seen self.old) (Item.Event event)) (K.written sink.old) (K.written sink.new) (replay_seen self.new) result }
        ensures halts { HaltsAt (came_to (event_step self.old.world.machine event)) self.new.world.machine result }
        ensures usable { OnOk result (self.new.world.spoiled ≡ false) }
        ensures agenda { OnOk result (IsAgendaOf self.new.agenda self.new.world.machine.journal) }
        ensures faults { CountsFault (K.faults sink.old) (K.faults sink.new) result }
    {
        let before = self.world.journal().len() as usize;
        match settle_or_step(&mut self.world, &mut self.agenda, alloc, event) {
            Ok(()) => return write_records(alloc, sink, self.world.journal(), before),
            Err(fault) => return Err(self.stop(alloc, sink, before, fault)),
        }
    }

    /// Writes the records that came before a settle was ended inside by this fault, but where memory ran out.
    fn stop<K: Sink>(&self, alloc: Global, sink: &mut K, from: usize, fault: StepFault) -> Status
        requires { fault ≢ StepFault.NoMemory → from ≤ length self.now.world.machine.journal }
        ensures stops { StopsAtLine fault self.now.lines (flat_map rec_line (drop from self.now.world.machine.journal)) (K.written sink.old) (K.written sink.new) result }
        ensures faults { EndsCount (K.faults sink.old) (K.faults sink.new) result }
    {
        if fault == StepFault::NoMemory {
            return Status::NoMemory;
        }
        match write_records(alloc, sink, self.world.journal(), from) {
            Ok(()) => return ended_by(self.lines, fault),
            Err(status) => return status,
        }
    }

    /// How a run ends whose input ends with these bytes, which no line feed follows.
    pub fn end(&self, rest: &[u8]) -> Status
        requires sound { IsProgressSound (replay_seen self.now) }
        requires small { length rest.now < 2 ^ 32 }
        ensures { result ≡ ending (replay_seen self.now) rest.now }
    {
        let number = self.lines + 1;
        if self.read + rest.len() as u64 > MAX_INPUT_BYTES as u64 && !rest.is_empty() {
            return Status::Limit {
                line: number,
                what: What::Input,
            };
        }
        match (rest, self.reader.stage) {
            ([], Stage::Running) => Status::Done,
            _ => refused(number, Why::Syntax),
        }
    }

    /// Says of each record of the journal what the types of its numbers say, so that a line can stand for it. It computes nothing.
    pub fn tell_widths(&self)
        ensures { HaveWidths self.now.world.machine.journal }
    {
        have_widths(self.world.journal().as_slice());
    }

    /// Spends the replay.
    pub fn finish(self) {
        let Replay {
            reader: _,
            config: _,
            files: _,
            listed: _,
            lines: _,
            read: _,
            world,
            agenda: _,
        } = self;
        let _journal = world.finish();
    }
}

/// How a fault of a file ends the run at a line.
fn file_ends(line: u64, fault: FileFault) -> Status
    ensures { result ≡ file_ends line fault }
{
    match fault {
        FileFault::Repeated => refused(line, Why::File(fault)),
        FileFault::TooLong(_) => refused(line, Why::File(fault)),
        FileFault::TooMany(_) => refused(line, Why::File(fault)),
        FileFault::TooMuch(_) => refused(line, Why::File(fault)),
        FileFault::NoMemory => Status::NoMemory,
    }
}

/// Appends the line of a file.
fn list(alloc: Global, listed: &mut Vec<u8>, path: &[u8], len: u64) -> Result<(), NoMemory>
    ensures { OnOk result (listed.new.items ≡ listed.old.items ++ file_text (path.now, len)) }
{
    let line = file_line(alloc, path, len)?;
    listed.extend_from_slice(line.as_slice())?;
    Ok(())
}

/// What a report begins with: the heading, and the lines of the files.
fn preface(alloc: Global, config: &Config, listed: &[u8]) -> Result<Vec<u8>, NoMemory>
    ensures { IfOk result (λ text. text.items ≡ heading_line config.now ++ listed.now) }
{
    let first = heading(alloc, config)?;
    let mut text = Vec::from_slice(alloc, first.as_slice())?;
    text.extend_from_slice(listed)?;
    Ok(text)
}

/// Writes the records of a journal from a place on.
fn write_records<K: Sink>(
    alloc: Global,
    sink: &mut K,
    journal: &Journal,
    from: usize,
) -> Result<(), Status>
    requires { from ≤ length journal.now }
    ensures written { Writes (flat_map rec_line (drop from journal.now)) (K.written sink.old) (K.written sink.new) result }
    ensures faults { CountsFault (K.faults sink.old) (K.faults sink.new) result }
{
    write_pieces(alloc, sink, &journal.as_slice()[from..])
}

/// Writes records in pieces, so that the text of many is not held at once.
fn write_pieces<K: Sink>(alloc: Global, sink: &mut K, recs: &[Rec]) -> Result<(), Status>
    ensures written { Writes (flat_map rec_line recs.now) (K.written sink.old) (K.written sink.new) result }
    ensures faults { CountsFault (K.faults sink.old) (K.faults sink.new) result }
{
    let mut at = 0;
    while at < recs.len() {
        let next = end_of_piece(at, recs.len());
        match write_piece(alloc, sink, &recs[at..next]) {
            Ok(()) => at = next,
            Err(status) => return Err(status),
        }
    }
    Ok(())
}

/// Where the piece ends that begins there, among so many records.
fn end_of_piece(at: usize, len: usize) -> usize
    requires { at < len }
    ensures more { at < result }
    ensures within { result ≤ len }
{
    if len - at <= PIECE {
        return len;
    }
    at + PIECE
}

/// Writes records in one piece.
fn write_piece<K: Sink>(alloc: Global, sink: &mut K, recs: &[Rec]) -> Result<(), Status>
    ensures written { Writes (flat_map rec_line recs.now) (K.written sink.old) (K.written sink.new) result }
    ensures faults { CountsFault (K.faults sink.old) (K.faults sink.new) result }
{
    match lines_of(alloc, recs) {
        Ok(text) => return write(sink, text.as_slice()),
        Err(NoMemory) => return Err(Status::NoMemory),
    }
}

/// The lines of records, one after another.
fn lines_of(alloc: Global, recs: &[Rec]) -> Result<Vec<u8>, NoMemory>
    ensures { IfOk result (λ text. text.items ≡ flat_map rec_line recs.now) }
{
    let mut text = Vec::new(alloc);
    for rec in recs {
        push_line(&mut text, rec)?;
    }
    Ok(text)
}

fn write<K: Sink>(sink: &mut K, text: &[u8]) -> Result<(), Status>
    ensures written { Writes text.now (K.written sink.old) (K.written sink.new) result }
    ensures faults { CountsFault (K.faults sink.old) (K.faults sink.new) result }
{
    match write_all(sink, text) {
        Ok(()) => return Ok(()),
        Err(Failed) => return Err(Status::WriteFault),
    }
}
