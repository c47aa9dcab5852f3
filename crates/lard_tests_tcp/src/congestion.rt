//! Windows beside what RFC 5681, 3.1 and 3.2 give, worked out apart.

ghost use Rattle.std.specs.Prelude.{◌≤◌};

use Step::{New, Same, SynAgain, Timer, Windows};
use lard_base::limits::MAX_SEGMENT_DATA;
use lard_congestion::{Congestion, MAX_FLIGHT, MAX_WINDOW};

/// What happens to a sender. Behind it stand the window and the threshold.
#[derive(Clone, Copy)]
enum Step {
    /// So many symbols are acknowledged.
    New(u32),
    /// A duplicate comes, with so many symbols on their way; whether it is the third.
    Same(u32, bool),
    /// The timer fires, with so many symbols on their way, again or not.
    Timer(u32, bool),
    SynAgain,
    /// Nothing happens.
    Windows,
}

/// Whether it answers a duplicate so.
fn is_same(windows: &mut Congestion, flight: u32, third: bool) -> bool {
    flight <= MAX_FLIGHT && windows.on_same(flight) == third
}

fn is_fired(windows: &mut Congestion, flight: u32, again: bool) -> bool {
    if flight > MAX_FLIGHT {
        return false;
    }
    windows.on_timer(flight, again);
    true
}

/// Whether it does the step.
fn does(windows: &mut Congestion, step: Step) -> bool {
    match step {
        New(n) => windows.on_new(n),
        Same(flight, third) => return is_same(windows, flight, third),
        Timer(flight, again) => return is_fired(windows, flight, again),
        SynAgain => windows.on_syn_again(),
        Windows => {}
    }
    true
}

/// How many of the steps come out as they are written down, up to the first that does not.
fn done(windows: &mut Congestion, steps: &[(Step, u32, u32)]) -> usize {
    for (count, (step, window, threshold)) in steps.iter().enumerate() {
        let agrees = does(windows, *step);
        if !agrees || windows.limit() != *window || windows.threshold() != *threshold {
            return count;
        }
    }
    steps.len()
}

/// The first window of segments of this size.
fn first_window(mss: u16) -> u32
    requires some { 1 ≤ mss }
    requires most { mss ≤ MAX_SEGMENT_DATA }
{
    Congestion::make(mss).limit()
}

#[test]
fn window_begins_with_three_segments_or_four(rt: HostRuntime) {
    let firsts = [
        first_window(1),
        first_window(536),
        first_window(1_095),
        first_window(1_096),
        first_window(1_460),
    ];
    assert_eq!(rt; firsts, [4, 2_144, 4_380, 3_288, 4_380]);
}

const GROWS: &[(Step, u32, u32)] = &[
    (Windows, 4_380, 1_073_741_824),
    (New(1_460), 5_840, 1_073_741_824),
    (Timer(5_840, false), 1_460, 2_920),
    (New(1_460), 2_920, 2_920),
    (New(1_460), 3_650, 2_920),
    (Timer(14_600, true), 1_460, 2_920),
    (Timer(14_600, false), 1_460, 7_300),
];

#[test]
fn window_grows_and_a_timer_takes_it_back(rt: HostRuntime) {
    let mut windows = Congestion::make(1_460);
    assert_eq!(rt; done(&mut windows, GROWS), GROWS.len());
}

const DUPLICATES: &[(Step, u32, u32)] = &[
    (Same(2_144, false), 2_144, 1_073_741_824),
    (Same(2_144, false), 2_144, 1_073_741_824),
    (Same(2_144, true), 2_680, 1_072),
    (Same(2_144, false), 3_216, 1_072),
    (New(536), 1_072, 1_072),
    // an acknowledgement that is new, or a timer, begins the count again
    (Same(1_072, false), 1_072, 1_072),
    (Same(1_072, false), 1_072, 1_072),
    (Timer(1_072, false), 536, 1_072),
    (Same(1_072, false), 536, 1_072),
];

#[test]
fn third_duplicate_answers(rt: HostRuntime) {
    let mut windows = Congestion::make(536);
    assert_eq!(rt; done(&mut windows, DUPLICATES), DUPLICATES.len());
}

const LOST_SYN: &[(Step, u32, u32)] = &[
    (SynAgain, 1_000, 1_073_741_824),
    (New(300), 1_300, 1_073_741_824),
];

#[test]
fn lost_syn_leaves_one_segment(rt: HostRuntime) {
    let mut windows = Congestion::make(1_000);
    assert_eq!(rt; done(&mut windows, LOST_SYN), LOST_SYN.len());
}

const WIDE: &[(Step, u32, u32)] = &[
    (New(MAX_FLIGHT), 1_073_741_824, 1_073_741_824),
    (Timer(MAX_FLIGHT, false), 1_460, 536_870_912),
];

#[test]
fn sums_stop_at_their_ends(rt: HostRuntime) {
    let mut wide = Congestion::restore(1_460, MAX_WINDOW, MAX_WINDOW);
    let mut narrow = Congestion::restore(1, 2, 1);
    let counts = (done(&mut wide, WIDE), done(&mut narrow, &[(New(5), 3, 1)]));
    assert_eq!(rt; counts, (WIDE.len(), 1));
}
