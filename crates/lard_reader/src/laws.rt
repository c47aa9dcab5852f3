//! What holds of each batch.

ghost use Rattle.std.specs.Prelude.{◌≡◌, ◌<◌, ◌≤◌, ℕ, false, true, List, ◌++◌, map, length, take, drop};
ghost use Rattle.lard_block.specs.Blocks.{cut_of, Cuts};
ghost use Rattle.lard_answers.specs.Answers.{FilesAt, answer, answers, verdicts_on, verdicts, closes_any};
ghost use Rattle.lard_reader.specs.Batches.{batch_of, bytes_used, batch_pieces, has_long};

use lard_block::Found;
use lard_block::laws::what_is_taken_is_cut;

/// The verdicts of a batch are those on its pieces, and, unless a head is too long, the bytes that it uses are divided
/// into these pieces whatever follows them. Where none of its answers closes the connection, the answers to what it
/// leaves follow; where one does, its verdicts are all, whatever follows. Where it has room for more and none closes,
/// what it leaves begins with no pair CR LF, and holds no whole head.
pub fn what_a_batch_uses_is_cut()
    ensures pieces { (n : ℕ) (q : List ℕ) → verdicts_on (batch_pieces n q) ≡ batch_of n q }
    ensures cut { (n : ℕ) (q : List ℕ) → has_long (batch_pieces n q) ≡ false → Cuts (take (bytes_used n q) q) (batch_pieces n q) }
    ensures open { (files : FilesAt) (n : ℕ) (q z : List ℕ) → closes_any (batch_of n q) ≡ false
        → answers files (q ++ z) ≡ map (answer files) (batch_of n q) ++ answers files (drop (bytes_used n q) q ++ z) }
    ensures closed { (n : ℕ) (q z : List ℕ) → closes_any (batch_of n q) ≡ true → verdicts (q ++ z) ≡ batch_of n q }
    ensures left { (n : ℕ) (q : List ℕ) → length (verdicts q) < n → closes_any (batch_of n q) ≡ false → cut_of (drop (bytes_used n q) q) ≡ Found.More 0 }
{
    what_is_taken_is_cut();
}

/// A batch uses a byte at least for each of its verdicts, and no more bytes than there are.
pub fn each_verdict_uses_a_byte()
    ensures each { (n : ℕ) (q : List ℕ) → length (batch_of n q) ≤ bytes_used n q }
    ensures within { (n : ℕ) (q : List ℕ) → bytes_used n q ≤ length q }
{}
