//! What is counted for one connection, in a slot of its own.

ghost use Rattle.std.specs.Option.{IfNone};
ghost use Rattle.std.specs.Prelude.{◌≡◌, ◌<◌, ◌≤◌, ◌+◌, ◌-◌, ◌∷◌, ◌++◌, [], Some, None, length, IfSome};

use lard_base::NodeId;

/// The most shares of one connection that are open at a time.
pub const MAX_SHARES: usize = 8;

/// A share of a batch: the number of the node that serves it, and its units in 840ths of a connection. There may be 131,072
/// of them, so each is kept in four bytes.
#[derive(Clone, Copy, Debug)]
pub struct Share {
    pub node: u8,
    pub units: u16,
}

/// What is counted for one connection.
#[derive(Clone, Copy, Debug)]
pub struct Slot {
    /// The node that it was assigned to first, while it is admitted.
    home: Option<NodeId>,
    /// How many shares are open.
    count: u8,
    /// The open shares, in the order in which they were opened; those behind them mean nothing.
    shares: [Share; MAX_SHARES],
    ghost fits: { count ≤ 8 },
}

impl Slot {
    ghost use Rattle.lard_loads.specs.Slot.{is_home_at, shares_open_in};

    /// Of no connection.
    pub const FREE: Slot = Slot {
        home: None,
        count: 0,
        shares: [Share { node: 0, units: 0 }; MAX_SHARES],
    };

    /// The home of its connection; `None` while none is admitted here.
    pub fn home(&self) -> Option<NodeId>
        ensures { result ≡ self.now.home }
    {
        self.home
    }

    /// How many shares are open.
    pub fn open_shares(&self) -> usize
        ensures { result ≡ length (shares_open_in self.now) }
    {
        self.count as usize
    }

    /// Whether the node is the home of its connection.
    pub fn is_home(&self, n: NodeId) -> bool
        ensures { result ≡ is_home_at self.now.home n }
    {
        match self.home {
            Some(home) => n.number() == home.number(),
            None => false,
        }
    }

    /// A connection with this home comes, without a share.
    pub fn occupy(&mut self, home: NodeId)
        ensures home { self.new.home ≡ Some home }
        ensures shares { shares_open_in self.new ≡ [] }
    {
        self.home = Some(home);
        self.count = 0;
    }

    /// The connection goes.
    pub fn vacate(&mut self)
        ensures home { self.new.home ≡ None }
        ensures shares { shares_open_in self.new ≡ shares_open_in self.old }
    {
        self.home = None;
    }

    /// Opens a share, behind fewer than eight.
    pub fn push(&mut self, share: Share)
        requires room { length (shares_open_in self.old) < 8 }
        ensures home { self.new.home ≡ self.old.home }
        ensures shares { shares_open_in self.new ≡ shares_open_in self.old ++ share ∷ [] }
    {
        self.shares[self.count as usize] = share;
        self.count += 1;
    }

    /// Closes the share that was opened last, and answers it. `None` where no share is open.
    pub fn pop(&mut self) -> Option<Share>
        ensures home { self.new.home ≡ self.old.home }
        ensures last { IfSome result (λ share. shares_open_in self.old ≡ shares_open_in self.new ++ share ∷ []) }
        ensures none { IfNone result (shares_open_in self.old ≡ []) }
        ensures same { IfNone result (self.new ≡ self.old) }
    {
        if self.count == 0 {
            return None;
        }
        self.count -= 1;
        Some(self.shares[self.count as usize])
    }
}
