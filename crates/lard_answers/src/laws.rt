//! What holds of all that a client is answered, for all files and all bytes.

ghost use Rattle.std.specs.Prelude.{◌≡◌, ◌↔◌, ℕ, false, true, List, [], ◌∷◌, ◌++◌, map, length};
ghost use Rattle.std.specs.List.{Contains};
ghost use Rattle.lard_block.specs.Blocks.{cut_of, Piece, Cuts};
ghost use Rattle.lard_request.specs.Verdict.{verdict};
ghost use Rattle.lard_answers.specs.Answers.{FilesAt, answer, verdicts_on, until_close, verdicts, answers, answer_bytes, closes_any, goods, IsGoodAt, Rises, IsPrefix};

use lard_block::Found;

/// What a client writes later changes nothing of what its earlier bytes are answered (RFC 9112, 9.3.2): the verdicts,
/// the answers and their bytes only grow at their end.
pub fn answers_of_a_prefix_come_first()
    ensures verdicts { (q z : List ℕ) → IsPrefix (verdicts q) (verdicts (q ++ z)) }
    ensures answers { (files : FilesAt) (q z : List ℕ) → IsPrefix (answers files q) (answers files (q ++ z)) }
    ensures bytes { (files : FilesAt) (q z : List ℕ) → IsPrefix (answer_bytes files q) (answer_bytes files (q ++ z)) }
{}

/// No bytes have no answer, and bytes that are one whole block have the answer to it.
pub fn one_block_has_one_answer()
    ensures nothing { (files : FilesAt) → answers files [] ≡ [] }
    ensures block { (files : FilesAt) (q : List ℕ) → cut_of q ≡ Found.Block 0 (length q) → answers files q ≡ answer files (verdict q) ∷ [] }
{}

/// Where the first bytes are cut whatever follows them, the answers are those to their pieces, and behind them the
/// answers to the other bytes. Where one of those closes the connection, nothing of the other bytes counts
/// (RFC 9112, 9.6).
pub fn cut_bytes_are_answered_first()
    ensures follow { (files : FilesAt) (x z : List ℕ) (ps : List Piece) → Cuts x ps → closes_any (verdicts_on ps) ≡ false
        → answers files (x ++ z) ≡ map (answer files) (verdicts_on ps) ++ answers files z }
    ensures end { (files : FilesAt) (x z : List ℕ) (ps : List Piece) → Cuts x ps → closes_any (verdicts_on ps) ≡ true
        → answers files (x ++ z) ≡ map (answer files) (until_close (verdicts_on ps)) }
{}

/// The requests for files are those answers whose verdict names a file, each with its number, in order. Those of more
/// bytes begin with those of fewer.
pub fn goods_are_requests_for_files()
    ensures each { (files : FilesAt) (q : List ℕ) (r : ℕ) (path : List ℕ) → Contains (goods files q) (r, path) ↔ IsGoodAt files (verdicts q) r path }
    ensures order { (files : FilesAt) (q : List ℕ) → Rises 0 (goods files q) }
    ensures prefix { (files : FilesAt) (q z : List ℕ) → IsPrefix (goods files q) (goods files (q ++ z)) }
{}
