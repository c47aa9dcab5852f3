//! The lab.

ghost use Rattle.std.specs.Prelude.{◌≡◌, ◌+◌, ◌<◌, ◌≤◌, Ok, Some, None, IfOk, OnOk, OnErr};
ghost use Rattle.lard_base.specs.Config.{config_check};
ghost use Rattle.lard_files.specs.Files as files;
ghost use Rattle.lard_lab.specs.Desk.{request_passed_over};
ghost use Rattle.lard_lab.specs.Targets.{AreFresh, target_check, target_at};
ghost use Rattle.lard_lab.specs.Text.{request_line};
ghost use Rattle.lard_lab.specs.Lab.{AnswersEvent, KeepsClock, lab_after, fault_of, lab_filed, lab_opened, opened_with, outcome_by, path_fault, requested, requested_by, lab_told, request_told, totals_text};

use crate::assigner::{Assigner, MAX_REQUESTS};
use crate::backends::Backends;
use crate::event::{LabEvent, LabFault};
use crate::policy::Policy;
use crate::targets::{Target, Targets};
use crate::text::{full_line, line_front, totals, with_outcome};
use lard_base::{Bytes, Config, NoMemory, NodeId, Path};
use lard_files::FileFault;
use lard_policy::FirstChoice;
use std::alloc::Global;
use std::marker::Model;

/// A lab: it assigns the requests of a trace by a policy, feeds the cache of each node with what was assigned there, and
/// writes the lines of the report.
#[derive(Drop)]
pub struct Lab {
    alloc: Global,
    assigner: Assigner,
    backends: Backends,
}

impl Model for Lab {
    ghost use Rattle.lard_lab.specs.Lab.{IsFitted, State, coded_state};

    ghost Value = { State };

    ghost coded = { coded_state };

    ghost view = { λ l. record { desk = l.assigner; stores = l.backends } };

    ghost invariant = { λ l. IsFitted (record { desk = l.assigner; stores = l.backends }) };
}

impl Lab {
    /// No file, and no request. The configuration passes its check. It takes the memory for the loads and of the caches at
    /// once.
    pub fn new(alloc: Global, policy: Policy, config: Config) -> Result<Lab, NoMemory>
        requires { config_check config ≡ Ok tt }
        ensures { IfOk result (λ lab. lab ≡ lab_opened policy config) }
    {
        Ok(Lab {
            alloc,
            assigner: Assigner::new(alloc, policy, config)?,
            backends: Backends::new(alloc, config.nodes, config.cache)?,
        })
    }

    /// No request, and files that were added before, for none of which a request was. Else as `new`.
    pub fn with_targets(
        alloc: Global,
        policy: Policy,
        config: Config,
        targets: Targets,
    ) -> Result<Lab, NoMemory>
        requires usable { config_check config ≡ Ok tt }
        requires fresh { AreFresh targets }
        ensures { IfOk result (λ lab. lab ≡ opened_with policy config targets) }
    {
        Ok(Lab {
            alloc,
            assigner: Assigner::with_targets(alloc, policy, config, targets)?,
            backends: Backends::new(alloc, config.nodes, config.cache)?,
        })
    }

    /// Adds a file of so many bytes. The first of these answers that applies comes, and the lab is then as it was: `Repeated`
    /// where the path is there, `TooLong` with the size above 2^20 bytes, `TooMany` with the number of files above 65,536,
    /// `TooMuch` with the sum of their sizes above 2^26 bytes, both counted with this one, `NoMemory`.
    pub fn file(&mut self, path: &[u8], size: u64) -> Result<(), FileFault>
        ensures answer { files.AnswersAddition (target_check self.old.desk.targets path.now size) result }
        ensures ok { OnOk result (self.new ≡ lab_filed self.old path.now size) }
        ensures err { OnErr result (self.new ≡ self.old) }
    {
        self.assigner.add(path, size)
    }

    /// Does what an event does, and answers the line of a request. The first of these answers that applies comes, and the
    /// lab is then as it was: `NoFile` where no file has the request's path, `NotOpen` where no request has this number, or
    /// it was full, or it is done, `Limit` where 16,384 requests were made before this one, `NoMemory`.
    #[tactic(auto, unfolding(crate::specs::Lab::lab_after, crate::specs::Lab::lab_told, crate::specs::Lab::fault_of))]
    pub fn event(&mut self, event: LabEvent) -> Result<Option<Bytes>, LabFault>
        requires { KeepsClock self.old event }
        ensures answer { AnswersEvent (fault_of self.old event) (lab_told self.old event) result }
        ensures ok { OnOk result (self.new ≡ lab_after self.old event) }
        ensures err { OnErr result (self.new ≡ self.old) }
    {
        match event {
            LabEvent::Req(path) => return self.request(path),
            LabEvent::Done(number) => {
                if self.assigner.end(number) {
                    return Ok(None);
                }
                return Err(LabFault::NotOpen(number));
            }
            LabEvent::Clock(ms) => {
                self.assigner.advance(ms);
                return Ok(None);
            }
        }
    }

    /// The lines at the end of a report: how many requests were made, how many of them found their path in the cache of their
    /// node, and how many were full; and of each node, how many were assigned to it and found theirs, and how many were open
    /// at most.
    #[tactic(auto, unfolding(crate::specs::Lab::totals_text))]
    pub fn totals(&self) -> Result<Bytes, NoMemory>
        ensures { IfOk result (λ text. text ≡ totals_text self.now) }
    {
        let made = self.assigner.made();
        let (requests, hits) = self.backends.counts();
        totals(
            self.alloc,
            made,
            hits,
            made - requests,
            self.backends.nodes(),
        )
    }

    /// A request comes.
    fn request(&mut self, path: Path) -> Result<Option<Bytes>, LabFault>
        ensures answer { AnswersEvent (path_fault self.old.desk.made (target_at self.old.desk.targets path)) (request_told self.old path (target_at self.old.desk.targets path)) result }
        ensures ok { OnOk result (self.new ≡ requested self.old path (target_at self.old.desk.targets path)) }
        ensures err { OnErr result (self.new ≡ self.old) }
    {
        let Some(target) = self.assigner.target(path.as_slice()) else {
            return Err(LabFault::NoFile);
        };
        if self.assigner.made() >= MAX_REQUESTS {
            return Err(LabFault::Limit);
        }
        match self.answer(&path, &target) {
            Ok(line) => Ok(Some(line)),
            Err(NoMemory) => Err(LabFault::NoMemory),
        }
    }

    /// A request for a target comes, which may be made. Without memory nothing changes.
    fn answer(&mut self, path: &Path, target: &Target) -> Result<Bytes, NoMemory>
        requires few { self.old.desk.made < 16384 }
        requires there { target_at self.old.desk.targets path.now ≡ Some target.now }
        ensures line { IfOk result (λ line. Some line ≡ request_told self.old path.now (Some target.now)) }
        ensures ok { OnOk result (self.new ≡ requested self.old path.now (Some target.now)) }
        ensures err { OnErr result (self.new ≡ self.old) }
    {
        match self.assigner.choose(path.as_slice(), target) {
            Some(choice) => self.serve(path, target, choice),
            None => self.pass_over(path),
        }
    }

    /// A request goes where the choice says.
    #[tactic(auto, using(crate::proofs::Lines::line_ended))]
    fn serve(
        &mut self,
        path: &Path,
        target: &Target,
        choice: FirstChoice,
    ) -> Result<Bytes, NoMemory>
        requires few { self.old.desk.made < 16384 }
        requires there { target_at self.old.desk.targets path.now ≡ Some target.now }
        requires node { choice.node ≤ self.old.desk.config.nodes }
        ensures line { IfOk result (λ line. line ≡ request_line (self.old.desk.made + 1) path.now (outcome_by self.old path.now (Some choice))) }
        ensures ok { OnOk result (self.new ≡ requested_by self.old path.now target.now (Some choice)) }
        ensures err { OnErr result (self.new ≡ self.old) }
    {
        let number = self.assigner.made() + 1;
        let load = self.assigner.load(choice.node) + 1;
        let text = line_front(self.alloc, number, path.as_slice(), choice.node)?;
        let hit = self.backends.serve(choice.node, path, target.size, load)?;
        self.assigner.assign(path.as_slice(), target, choice);
        Ok(with_outcome(text, hit))
    }

    /// A request is full.
    fn pass_over(&mut self, path: &Path) -> Result<Bytes, NoMemory>
        requires { self.old.desk.made < 16384 }
        ensures line { IfOk result (λ line. line ≡ request_line (self.old.desk.made + 1) path.now None) }
        ensures ok { OnOk result (self.new ≡ record self.old { desk = request_passed_over self.old.desk }) }
        ensures err { OnErr result (self.new ≡ self.old) }
    {
        let number = self.assigner.made() + 1;
        let line = full_line(self.alloc, number, path.as_slice())?;
        self.assigner.pass_over();
        Ok(line)
    }
}
