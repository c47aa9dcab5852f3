//! The audit.

ghost use Rattle.std.specs.Prelude.{◌≡◌, ◌++◌, ◌∷◌, ℕ, [], List, Ok, Some, None, IfOk, IfErr, OnOk, OnErr};
ghost use Rattle.lard_base.specs.Config.{config_check};
ghost use Rattle.lard_base.specs.declared.config.Config.{Config};
ghost use Rattle.lard_files.specs.Files.{AnswersAddition};
ghost use Rattle.lard_journal.specs.declared.rec.Rec.{Rec};
ghost use Rattle.lard_audit.specs.Audit.{IsAuditOf, IsFaultOf};
ghost use Rattle.lard_audit.specs.Sound.{broken, audit_job_at, keeps_cache, size_in};
ghost use Rattle.lard_audit.specs.Books.{AreSound, books_step};
ghost use Rattle.lard_audit.specs.Nodes.{IsAtNode, audit_changed, entries_at, audit_jobs_at, named_by, named_by_event, audit_number_at, number_or_0, queued_by, read_by, size_or_0};
ghost use Rattle.lard_audit.specs.State.{audit_add_check, broken_at, audit_changed_by, audit_noted, sizes_of};

use crate::books::Books;
use crate::nodes::Nodes;
use crate::owners::Owners;
use crate::packets::Packets;
use crate::queue::Job;
use crate::rule::{AuditFault, Rule};
use lard_base::{Config, ConnId, Event, NoMemory, NodeId, Path};
use lard_files::FileFault;
use lard_journal::Rec;
use lard_lab::Targets;
use std::alloc::Global;

/// An audit of a report: what its records so far leave, by which the next one is judged. It grows with the connections and
/// the paths that they name, with the files and the jobs that wait, and with the packets that were lost.
#[derive(Drop)]
pub struct Audit {
    alloc: Global,
    packets: Packets,
    owners: Owners,
    books: Books,
    nodes: Nodes,
    /// The node and the number of the job that the record before named.
    named: Option<(u32, u32)>,
    targets: Targets,
}

impl Audit {
    /// An audit of a report with this configuration, of which no file and no record was fed. The configuration passes its
    /// check. It takes the memory for the loads and of the caches at once.
    pub fn new(alloc: Global, cfg: Config) -> Result<Audit, NoMemory>
        requires { config_check cfg ≡ Ok tt }
        ensures { IfOk result (λ a. IsAuditOf a cfg [] []) }
    {
        let bytes = cfg.cache;
        let packets = Packets::new(alloc);
        let owners = Owners::new(alloc);
        let books = Books::new(alloc, cfg)?;
        let nodes = Nodes::new(alloc, bytes)?;
        let targets = Targets::new(alloc);
        Ok(Audit {
            alloc,
            packets,
            owners,
            books,
            nodes,
            named: None,
            targets,
        })
    }

    /// Tells a file of so many bytes, before any record. The first of these answers that applies comes, and the audit is then
    /// as it was: `Repeated` where the path is there, `TooLong` with the size above 2^20 bytes, `TooMany` with the number of
    /// files above 65,536, `TooMuch` with the sum of their sizes above 2^26 bytes, both counted with this one, `NoMemory`.
    pub fn file(&mut self, path: &[u8], size: u64) -> Result<(), FileFault>
        ensures answer { (cfg : Config) (files : List (List ℕ × ℕ)) → IsAuditOf self.old cfg files [] → AnswersAddition (audit_add_check files path.now size) result }
        ensures ok { OnOk result ((cfg : Config) (files : List (List ℕ × ℕ)) → IsAuditOf self.old cfg files [] → IsAuditOf self.new cfg (files ++ (path.now, size) ∷ []) []) }
        ensures err { OnErr result (self.new ≡ self.old) }
    {
        self.targets.add(path, size)
    }

    /// Judges the next record. `Broken` comes exactly where it breaks a rule, with the first one; `NoMemory` where memory runs
    /// out. After a fault the audit is as before.
    pub fn feed(&mut self, rec: &Rec) -> Result<(), AuditFault>
        ensures ok { OnOk result ((cfg : Config) (files : List (List ℕ × ℕ)) (J : List Rec) → IsAuditOf self.old cfg files J → (broken cfg files J rec.now ≡ None) × IsAuditOf self.new cfg files (J ++ rec.now ∷ [])) }
        ensures err { OnErr result (self.new ≡ self.old) }
        ensures fault { IfErr result (λ fault. (cfg : Config) (files : List (List ℕ × ℕ)) (J : List Rec) → IsAuditOf self.old cfg files J → IsFaultOf fault (broken cfg files J rec.now)) }
    {
        if let Some(rule) = self.broken(rec) {
            return Err(AuditFault::Broken(rule));
        }
        match self.note(rec) {
            Ok(()) => Ok(()),
            Err(NoMemory) => Err(AuditFault::NoMemory),
        }
    }

    /// The first rule that a record breaks, if it breaks one.
    #[tactic(auto, unfolding(crate::specs::State::broken_at))]
    fn broken(&self, rec: &Rec) -> Option<Rule>
        ensures first { result ≡ broken_at self.now rec.now }
        ensures law { AreSound self.now.books }
        ensures node { IsAtNode rec.now }
    {
        let admission = self.books.keeps_admission(rec);
        let cache = self.keeps_cache(rec);
        if !self.packets.keeps(rec) {
            Some(Rule::Network)
        } else if !self.owners.keeps(rec) {
            Some(Rule::Owner)
        } else if !self.owners.keeps_sender(rec) {
            Some(Rule::Sender)
        } else if !admission {
            Some(Rule::Admission)
        } else if !self.books.keeps_choice(rec) {
            Some(Rule::Choice)
        } else if !cache {
            Some(Rule::Cache)
        } else if !self.books.keeps_clock(rec) {
            Some(Rule::Clock)
        } else {
            None
        }
    }

    /// Whether the record keeps the rule of caches and disks.
    fn keeps_cache(&self, rec: &Rec) -> bool
        ensures value { result ≡ keeps_cache (sizes_of self.now.targets) (entries_at self.now.nodes) (λ n. audit_job_at (audit_jobs_at self.now.nodes n) (audit_number_at self.now.named n)) rec.now }
        ensures node { IsAtNode rec.now }
    {
        match rec {
            Rec::Hit { n, path } => {
                let _number = n.number();
                self.nodes.has(*n, path.as_slice())
            }
            Rec::Queued {
                n,
                m: _,
                c: _,
                r: _,
                path,
            } => {
                let _number = n.number();
                !self.nodes.has(*n, path.as_slice()) && self.size(path).is_some()
            }
            Rec::Read { n, m, c, r, path } => {
                let _number = n.number();
                match number_at(self.named, *n) {
                    Some(j) => self.nodes.is_job(*n, j, *m, *c, *r, path.as_slice()),
                    None => false,
                }
            }
            _ => true,
        }
    }

    /// How many bytes the file of a path has, if there is one.
    fn size(&self, path: &Path) -> Option<u32>
        ensures { result ≡ size_in (sizes_of self.now.targets) path.now }
    {
        match self.targets.get(path.as_slice()) {
            Some(target) => Some(target.size),
            None => None,
        }
    }

    /// Notes a record that breaks no rule. Without memory nothing changes.
    #[tactic(auto, unfolding(crate::specs::State::audit_noted))]
    fn note(&mut self, rec: &Rec) -> Result<(), NoMemory>
        requires { broken_at self.old rec.now ≡ None }
        ensures ok { OnOk result (self.new ≡ audit_noted self.old rec.now) }
        ensures err { OnErr result (self.new ≡ self.old) }
    {
        self.change(rec)?;
        self.named = named_by(rec);
        Ok(())
    }

    /// What a record changes that breaks no rule, but for the job that it names. Without memory nothing changes.
    fn change(&mut self, rec: &Rec) -> Result<(), NoMemory>
        requires { broken_at self.old rec.now ≡ None }
        ensures ok { OnOk result (self.new ≡ audit_changed_by self.old rec.now) }
        ensures err { OnErr result (self.new ≡ self.old) }
    {
        match rec {
            Rec::Sent { k, .. } => {
                self.packets.send(*k);
                Ok(())
            }
            Rec::Lost(k) => self.packets.lose(*k),
            Rec::Took { place, c, epoch } => self.owners.take(place, *c, *epoch),
            Rec::Gave { c, .. } => self.owners.give(*c),
            Rec::Admitted(_) => self.change_books(rec),
            Rec::Released(_) => self.change_books(rec),
            Rec::AssignedFirst { .. } => self.change_books(rec),
            Rec::AssignedLater { .. } => self.change_books(rec),
            Rec::BatchOver(_) => self.change_books(rec),
            Rec::Hit { n, path } => {
                self.nodes.hit(*n, path.as_slice());
                Ok(())
            }
            Rec::Queued { n, m, c, r, path } => self.queue(*n, *m, *c, *r, path),
            Rec::Read { n, path, .. } => self.read(*n, path),
            Rec::Closed(_) => self.change_books(rec),
            Rec::Clock(_) => self.change_books(rec),
            _ => Ok(()),
        }
    }

    /// What such a record changes of the books. Without memory nothing changes.
    fn change_books(&mut self, rec: &Rec) -> Result<(), NoMemory>
        requires { broken_at self.old rec.now ≡ None }
        ensures ok { OnOk result (self.new ≡ record self.old { books = books_step self.old.books rec.now }) }
        ensures err { OnErr result (self.new ≡ self.old) }
    {
        match rec {
            Rec::Admitted(c) => self.books.admit(*c),
            Rec::Released(c) => self.books.release(*c),
            Rec::AssignedFirst {
                c,
                path,
                n,
                add,
                remove,
                ..
            } => return self.books.assign_first(*c, path, *n, *add, *remove),
            Rec::AssignedLater {
                c,
                path,
                n,
                add,
                size,
                queue,
                ..
            } => return self.books.assign_later(*c, path, *n, *add, *size, *queue),
            Rec::BatchOver(c) => self.books.end_batch(*c),
            Rec::Closed(n) => self.books.close(*n),
            Rec::Clock(time) => self.books.advance(*time),
            _ => {}
        }
        Ok(())
    }

    /// A job is queued at a node. Without memory nothing changes.
    fn queue(
        &mut self,
        n: NodeId,
        m: NodeId,
        c: ConnId,
        r: u32,
        path: &Path,
    ) -> Result<(), NoMemory>
        ensures ok { OnOk result (self.new ≡ record self.old { nodes = audit_changed self.old.nodes n (queued_by (record { m = m; c = c; r = r; path = path.now })) }) }
        ensures err { OnErr result (self.new ≡ self.old) }
    {
        let path = path.copy(self.alloc)?;
        self.nodes.queue(n, Job { m, c, r, path })
    }

    /// The job that was named is read, which brings its path into the cache. Without memory nothing changes.
    fn read(&mut self, n: NodeId, path: &Path) -> Result<(), NoMemory>
        ensures ok { OnOk result (self.new ≡ record self.old { nodes = audit_changed self.old.nodes n (read_by (number_or_0 self.old.named) path.now (size_or_0 (size_in (sizes_of self.old.targets) path.now))) }) }
        ensures err { OnErr result (self.new ≡ self.old) }
    {
        let size = match self.size(path) {
            Some(size) => size,
            None => 0,
        };
        let j = match self.named {
            Some((_, j)) => j,
            None => 0,
        };
        self.nodes.read(n, j, path, size)
    }
}

/// The number of the job that was named, if it is one of this node.
fn number_at(named: Option<(u32, u32)>, n: NodeId) -> Option<u32>
    ensures { result ≡ audit_number_at named n }
{
    match named {
        Some((k, j)) => { if k == n.number() { Some(j) } else { None } }
        None => None,
    }
}

/// The node and the number of the job that a record names.
fn named_by(rec: &Rec) -> Option<(u32, u32)>
    ensures { result ≡ named_by rec.now }
{
    match rec {
        Rec::Event { i: _, event } => named_by_event(event),
        Rec::Inner(event) => named_by_event(event),
        _ => None,
    }
}

/// The node and the number of the job that an event names.
fn named_by_event(event: &Event) -> Option<(u32, u32)>
    ensures { result ≡ named_by_event event.now }
{
    match event {
        Event::Disk { n, j } => Some((*n, *j)),
        _ => None,
    }
}
