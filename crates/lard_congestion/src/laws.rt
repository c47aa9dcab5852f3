//! What holds of the windows, whatever a sender is told.

ghost use Rattle.std.specs.Prelude.{◌≡◌, ◌+◌, ◌<◌, ◌≤◌, ℕ, List, length, nat_eq};
ghost use Rattle.lard_congestion.specs.Windows.{Congested, window_made, after_new, is_third};
ghost use Rattle.lard_congestion.specs.Laws.{Notice, after_notices, after_duplicates, HoldsSegments};

use crate::congestion::MAX_WINDOW;
use lard_base::limits::MAX_SEGMENT_DATA;

/// A sender that began with some segment size has room in its window for a segment, and in its threshold for two,
/// whatever it was told since (RFC 5681, 3.1).
pub fn windows_hold_a_segment()
    ensures { (mss : ℕ) (notices : List Notice) → 1 ≤ mss → mss ≤ MAX_SEGMENT_DATA → HoldsSegments (after_notices notices (window_made mss)) }
{}

/// Of duplicates in a row, behind none, the third is answered by sending again, and no other one (RFC 5681, 3.2).
pub fn third_duplicate_answers()
    ensures { (s : Congested) (flights : List ℕ) → s.dups ≡ 0 → is_third (after_duplicates flights s) ≡ nat_eq (length flights) 2 }
{}

/// An acknowledgement that is new, with no three duplicates before it, widens a window that holds a segment: by a byte
/// at least, as long as it is not the greatest, and by a segment at most (RFC 5681, 3.1).
pub fn window_grows_by_a_segment_at_most()
    ensures least { (n : ℕ) (s : Congested) → 1 ≤ n → 1 ≤ s.mss → s.dups < 3 → s.cwnd < MAX_WINDOW → s.cwnd < (after_new n s).cwnd }
    ensures most { (n : ℕ) (s : Congested) → 1 ≤ s.mss → s.mss ≤ s.cwnd → s.dups < 3 → (after_new n s).cwnd ≤ s.cwnd + s.mss }
{}
