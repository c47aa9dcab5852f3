//! Which contents are awaited.

ghost use Rattle.std.specs.Prelude.{◌≡◌, ◌≤◌, length, Some, is_some, IfOk, OnOk, OnErr};
ghost use Rattle.std.specs.FinMap as map;
ghost use Rattle.lard_base.specs.declared.limits.TheConstants.{MAX_MESSAGE_BYTES, MAX_PATH_BYTES};
ghost use Rattle.lard_base.specs.declared.place.TimerKind.TheVariants as kind;
ghost use Rattle.lard_message.specs.Message.{spelled_message};
ghost use Rattle.lard_resend.specs.Pending.{AreFit, held, pending_settled, under};
ghost use Rattle.lard_lateral.specs.Lateral.{fetching, wanting, is_awaited, is_from, is_node, names_epoch, after_content};

use lard_base::{Bytes, ConnId, Epoch, NoMemory, NodeId, Path, Place, TimerKind};
use lard_message::{Body, Message, encode};
use lard_resend::{Kept, Pending, PendingKey};
use std::alloc::Global;
use std::marker::Model;

/// The Fetches of a node whose Contents are awaited, by connection and in the order of their requests. They are sent again
/// until these come, and nothing else tells that one is awaited.
pub struct Lateral {
    fetches: Pending,
}

impl Model for Lateral {
    ghost use Rattle.std.specs.Prelude.{List};
    ghost use Rattle.std.specs.Coded.{coded_ℕ, coded_list};
    ghost use Rattle.std.specs.FinMap as map;
    ghost use Rattle.std.specs.Ordering.{nat_cmp};
    ghost use Rattle.lard_resend.specs.contracts.kept.Kept as kept;
    ghost use Rattle.lard_resend.specs.declared.kept.Kept.{Kept};

    ghost Value = { map.FinMap nat_cmp (List Kept) };

    ghost coded = { map.code coded_ℕ (coded_list kept.the_row.coded) };

    ghost view = { λ l. l.fetches };
}

impl Lateral {
    /// No content is awaited. It takes no memory yet.
    pub fn new(alloc: Global) -> Lateral
        ensures { result ≡ map.empty }
    {
        Lateral {
            fetches: Pending::new(alloc),
        }
    }

    /// Awaits the content of request `r` from the node, and from no other any longer, and answers the Fetch that asks for it.
    /// Without memory no content of that request is awaited any longer. The path has 1 to 1,024 bytes.
    #[tactic(auto, using(lard_resend::proofs::Renewed::none_left))]
    pub fn want(
        &mut self,
        alloc: Global,
        c: ConnId,
        epoch: Epoch,
        r: u32,
        node: NodeId,
        path: &Path,
    ) -> Result<Bytes, NoMemory>
        requires some_path { 1 ≤ length path.now }
        requires short_path { length path.now ≤ MAX_PATH_BYTES }
        ensures bytes { IfOk result (λ bytes. bytes ≡ spelled_message (fetching c epoch.0 r path.now)) }
        ensures ok { OnOk result (self.new ≡ wanting self.old c epoch.0 r node path.now) }
        ensures size { IfOk result (λ bytes. length bytes ≤ MAX_MESSAGE_BYTES) }
        ensures err { OnErr result (self.new ≡ pending_settled self.old c kind.Fetch r) }
    {
        let kind = TimerKind::Fetch;
        let _ = self.fetches.settle(PendingKey { c, kind, r });
        let bytes = fetch(alloc, &c, epoch, r, path)?;
        let kept = bytes.copy(alloc)?;
        self.fetches
            .hold(PendingKey { c, kind, r }, Place::Node(node), kept)?;
        Ok(bytes)
    }

    /// Whether the content of request `r` is awaited, from whichever node.
    pub fn wants(&self, c: ConnId, r: u32) -> bool
        ensures { result ≡ is_some (under self.now c kind.Fetch r) }
    {
        let key = PendingKey {
            c,
            kind: TimerKind::Fetch,
            r,
        };
        self.fetches.holds(&key)
    }

    /// A Content came. It answers whether it is awaited from this node and in this epoch; then it is awaited no longer.
    pub fn on_content(&mut self, from: NodeId, c: ConnId, epoch: Epoch, r: u32) -> bool
        ensures value { result ≡ is_awaited self.old from c epoch.0 r }
        ensures after { self.new ≡ after_content self.old from c epoch.0 r }
    {
        let key = PendingKey {
            c,
            kind: TimerKind::Fetch,
            r,
        };
        if !self.is_awaited(from, &key, epoch) {
            return false;
        }
        self.fetches.settle(key)
    }

    /// The Fetches of a connection that are sent again, in the order of their requests, lent.
    pub fn of(&self, c: ConnId) -> &[Kept]
        ensures value { result.now ≡ held self.now c }
        ensures fit { AreFit result.now }
    {
        self.fetches.of(c)
    }

    /// Awaits no content of a connection any longer.
    pub fn forget(&mut self, c: ConnId)
        ensures { self.new ≡ map.remove self.old c }
    {
        self.fetches.forget(c);
    }

    /// Drops all that is kept.
    pub fn finish(self) {
        let Lateral { fetches } = self;
        fetches.finish();
    }

    /// Whether what is held under the key was sent to this node, in this epoch.
    fn is_awaited(&self, from: NodeId, key: &PendingKey, epoch: Epoch) -> bool
        ensures { result ≡ is_from from epoch.0 (under self.now key.now.c key.now.kind key.now.r) }
    {
        match self.fetches.get(key) {
            Some(kept) => goes_to(kept, from, epoch),
            None => false,
        }
    }
}

/// Whether a message was sent to this node, in this epoch.
fn goes_to(kept: &Kept, from: NodeId, epoch: Epoch) -> bool
    ensures { result ≡ is_from from epoch.0 (Some kept.now) }
{
    is_node(&kept.to, from) && names_epoch(kept.bytes.as_slice(), epoch.0)
}

fn is_node(place: &Place, from: NodeId) -> bool
    ensures { result ≡ is_node place.now from }
{
    match place {
        Place::Node(node) => node.number() == from.number(),
        Place::Front => false,
        Place::Client(_) => false,
    }
}

/// Whether a message's bytes name this epoch.
fn names_epoch(bytes: &[u8], epoch: u16) -> bool
    ensures { result ≡ names_epoch bytes.now epoch }
{
    if bytes.len() < 6 {
        return false;
    }
    u16::from_be_bytes([bytes[4], bytes[5]]) == epoch
}

/// The bytes of a Fetch.
fn fetch(alloc: Global, c: &ConnId, epoch: Epoch, r: u32, path: &Path) -> Result<Bytes, NoMemory>
    requires some_path { 1 ≤ length path.now }
    requires short_path { length path.now ≤ MAX_PATH_BYTES }
    ensures bytes { IfOk result (λ bytes. bytes ≡ spelled_message (fetching c.now epoch.0 r path.now)) }
    ensures size { IfOk result (λ bytes. length bytes ≤ MAX_MESSAGE_BYTES) }
{
    let path = path.copy(alloc)?;
    let message = Message {
        c: *c,
        epoch,
        body: Body::Fetch { r, path },
    };
    encode(alloc, &message)
}
