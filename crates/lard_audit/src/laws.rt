//! What the rules mean.

ghost use Rattle.lard_audit.specs.Laws.{SoundMeans};

/// A record breaks no rule exactly where it may stand behind the records before it, in the words of the laws of runs.
pub fn sound_means()
    ensures { SoundMeans }
{}
