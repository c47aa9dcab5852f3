//! The windows of one sender, and what moves them.

ghost use Rattle.std.specs.Prelude.{◌≡◌, ◌+◌, ◌<◌, ◌≤◌};
ghost use Rattle.lard_congestion.specs.Windows.{first_window, window_made, window_restored, window_grown, threshold_lowered, growth, window_behind_new, after_new, is_third, window_behind_same, threshold_behind_same, after_same, threshold_behind_timer, after_firing, after_lost_syn};

use lard_base::limits::MAX_SEGMENT_DATA;
use std::marker::Model;

/// The greatest window and threshold, in bytes. All sums stop here.
pub const MAX_WINDOW: u32 = 1_073_741_824;

/// The most symbols that are on their way: 2^30 bytes and the FIN.
pub const MAX_FLIGHT: u32 = 1_073_741_825;

/// The congestion window and the slow start threshold of one sender, in whole bytes (RFC 5681, 3.1).
#[derive(Drop)]
pub struct Congestion {
    /// The most bytes of a segment, SMSS: 1 to 1,460.
    mss: u32,
    /// The congestion window, cwnd: 1 to 2^30.
    cwnd: u32,
    /// The slow start threshold, ssthresh: 1 to 2^30.
    ssthresh: u32,
    /// How many duplicates came since what is acknowledged was last new. The count stops at 2^30.
    dups: u32,
}

impl Model for Congestion {
    ghost use Rattle.lard_congestion.specs.Windows.{Congested, IsCongested};

    ghost Value = { Congested };

    ghost view = { λ c. record { mss = c.mss; cwnd = c.cwnd; ssthresh = c.ssthresh; dups = c.dups } };

    ghost invariant = { λ c. IsCongested (record { mss = c.mss; cwnd = c.cwnd; ssthresh = c.ssthresh; dups = c.dups }) };
}

/// The first window: four segments of at most 1,095 bytes each, or three larger ones (RFC 5681, 3.1).
fn first_window(mss: u32) -> u32
    requires { mss ≤ MAX_SEGMENT_DATA }
    ensures { result ≡ first_window mss }
{
    if mss <= 1_095 {
        return 4 * mss;
    }
    3 * mss
}

impl Congestion {
    /// A sender that begins, with segments of at most `mss` bytes. The threshold is as great as can be (RFC 5681, 3.1).
    pub fn make(mss: u16) -> Congestion
        requires some { 1 ≤ mss }
        requires most { mss ≤ MAX_SEGMENT_DATA }
        ensures { result ≡ window_made mss }
    {
        let mss = u32::from(mss);
        let cwnd = first_window(mss);
        Congestion {
            mss,
            cwnd,
            ssthresh: MAX_WINDOW,
            dups: 0,
        }
    }

    /// A sender that goes on elsewhere with this window and this threshold, in bytes. It counts duplicates anew.
    pub fn restore(mss: u16, cwnd: u32, ssthresh: u32) -> Congestion
        requires some { 1 ≤ mss }
        requires most { mss ≤ MAX_SEGMENT_DATA }
        requires window { (1 ≤ cwnd) × (cwnd ≤ MAX_WINDOW) }
        requires threshold { (1 ≤ ssthresh) × (ssthresh ≤ MAX_WINDOW) }
        ensures { result ≡ window_restored mss cwnd ssthresh }
    {
        Congestion {
            mss: u32::from(mss),
            cwnd,
            ssthresh,
            dups: 0,
        }
    }

    /// The congestion window: how many bytes may be on their way, 1 to 2^30.
    pub fn limit(&self) -> u32
        ensures value { result ≡ self.now.cwnd }
        ensures within { (1 ≤ result) × (result ≤ MAX_WINDOW) }
    {
        self.cwnd
    }

    /// The slow start threshold in bytes, 1 to 2^30.
    pub fn threshold(&self) -> u32
        ensures value { result ≡ self.now.ssthresh }
        ensures within { (1 ≤ result) × (result ≤ MAX_WINDOW) }
    {
        self.ssthresh
    }

    /// The window with so many bytes more.
    fn grown(&self, n: u32) -> u32
        requires { n ≤ MAX_WINDOW }
        ensures value { result ≡ window_grown n self.now.cwnd }
        ensures within { (1 ≤ result) × (result ≤ MAX_WINDOW) }
    {
        (self.cwnd + n).min(MAX_WINDOW)
    }

    /// The threshold behind a loss, with so many symbols on their way: half of them, and two segments at least
    /// (RFC 5681, 3.1, equation 4).
    fn lowered(&self, flight: u32) -> u32
        requires { flight ≤ MAX_FLIGHT }
        ensures value { result ≡ threshold_lowered flight self.now.mss }
        ensures within { (1 ≤ result) × (result ≤ MAX_WINDOW) }
    {
        (flight / 2).max(2 * self.mss)
    }

    /// How many bytes the window grows by where `n` symbols are acknowledged: below the threshold as many, up to a
    /// segment (slow start); else a segment's share of the window, and one byte at least (congestion avoidance;
    /// RFC 5681, 3.1, equations 2 and 3).
    fn growth(&self, n: u32) -> u32
        ensures value { result ≡ growth n self.now }
        ensures within { result ≤ MAX_WINDOW }
    {
        if self.cwnd < self.ssthresh {
            return n.min(self.mss);
        }
        (self.mss * self.mss / self.cwnd).max(1)
    }

    /// The window behind an acknowledgement of `n` symbols: behind three duplicates it is the threshold.
    fn behind_new(&self, n: u32) -> u32
        ensures value { result ≡ window_behind_new n self.now }
        ensures within { (1 ≤ result) × (result ≤ MAX_WINDOW) }
    {
        if self.dups >= 3 {
            return self.ssthresh;
        }
        let growth = self.growth(n);
        self.grown(growth)
    }

    /// `n` symbols, the SYN not among them, are acknowledged for the first time. Behind three duplicates or more the
    /// window becomes the threshold (RFC 5681, 3.2, step 6); else it grows, by at most a segment (3.1).
    pub fn on_new(&mut self, n: u32)
        ensures { self.new ≡ after_new n self.old }
    {
        let cwnd = self.behind_new(n);
        self.cwnd = cwnd;
        self.dups = 0;
    }

    /// Whether the next duplicate is the third.
    fn third_is_next(&self) -> bool
        ensures { result ≡ is_third self.now }
    {
        self.dups == 2
    }

    /// The window behind one more duplicate.
    fn behind_same(&self, flight: u32) -> u32
        requires { flight ≤ MAX_FLIGHT }
        ensures value { result ≡ window_behind_same flight self.now }
        ensures within { (1 ≤ result) × (result ≤ MAX_WINDOW) }
    {
        if self.third_is_next() {
            let threshold = self.lowered(flight);
            return (threshold + 3 * self.mss).min(MAX_WINDOW);
        }
        if self.dups >= 3 {
            return self.grown(self.mss);
        }
        self.cwnd
    }

    /// The threshold behind one more duplicate.
    fn threshold_behind_same(&self, flight: u32) -> u32
        requires { flight ≤ MAX_FLIGHT }
        ensures value { result ≡ threshold_behind_same flight self.now }
        ensures within { (1 ≤ result) × (result ≤ MAX_WINDOW) }
    {
        if self.third_is_next() {
            return self.lowered(flight);
        }
        self.ssthresh
    }

    /// A duplicate came, with `flight` symbols on their way. At the third the threshold falls and the window becomes
    /// it and three segments: the answer is true, for what is the oldest on its way to be sent again (RFC 5681, 3.2,
    /// steps 2 and 3). At each further one the window grows by a segment (step 4).
    pub fn on_same(&mut self, flight: u32) -> bool
        requires { flight ≤ MAX_FLIGHT }
        ensures third { result ≡ is_third self.old }
        ensures after { self.new ≡ after_same flight self.old }
    {
        let third = self.third_is_next();
        let cwnd = self.behind_same(flight);
        let ssthresh = self.threshold_behind_same(flight);
        self.cwnd = cwnd;
        self.ssthresh = ssthresh;
        self.dups = (self.dups + 1).min(MAX_WINDOW);
        third
    }

    /// The threshold behind a timer.
    fn threshold_behind_timer(&self, flight: u32, again: bool) -> u32
        requires { flight ≤ MAX_FLIGHT }
        ensures value { result ≡ threshold_behind_timer flight again self.now }
        ensures within { (1 ≤ result) × (result ≤ MAX_WINDOW) }
    {
        if again {
            return self.ssthresh;
        }
        self.lowered(flight)
    }

    /// The timer fired, with `flight` symbols on their way; `again` where nothing was newly acknowledged since it fired
    /// before. The window becomes one segment, and the threshold falls where it is not `again` (RFC 5681, 3.1).
    pub fn on_timer(&mut self, flight: u32, again: bool)
        requires { flight ≤ MAX_FLIGHT }
        ensures { self.new ≡ after_firing flight again self.old }
    {
        let ssthresh = self.threshold_behind_timer(flight, again);
        self.ssthresh = ssthresh;
        self.cwnd = self.mss;
        self.dups = 0;
    }

    /// The SYN was lost and is sent again: the window becomes one segment (RFC 5681, 3.1).
    pub fn on_syn_again(&mut self)
        ensures { self.new ≡ after_lost_syn self.old }
    {
        self.cwnd = self.mss;
    }
}
