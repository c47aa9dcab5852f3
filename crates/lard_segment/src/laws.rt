//! What holds of writing and reading together.

ghost use Rattle.lard_segment.specs.Segment.{SegmentReadsAgain};

/// What was written is read again.
pub fn reads_again()
    ensures { SegmentReadsAgain }
{}
