//! What holds of the division of bytes into blocks, for all bytes.

ghost use Rattle.std.specs.Prelude.{◌≡◌, ℕ, ◌+◌, ◌≤◌, List, [], ◌∷◌, ◌++◌, map, length, take, drop};
ghost use Rattle.lard_block.specs.Blocks.{skipped, cut_of, Piece, Head, piece_moved, blocks, Divides, Cuts};
ghost use Rattle.lard_block.specs.Said.{IsFound};

use crate::block::{Found, MAX_HEAD_BYTES};

/// What is found is what these words say, and nothing else is (RFC 9112, 2.1 and 2.2): the pairs that are skipped are
/// the longest run of them, a block ends by the first CR LF CR LF behind them and has at most 8,192 bytes, and where
/// none ends within so many bytes more may come as long as there are fewer.
pub fn what_is_found_is_as_said()
    ensures said { (q : List ℕ) → IsFound q (cut_of q) }
    ensures nothing_else { (q : List ℕ) (found : Found) → IsFound q found → found ≡ cut_of q }
{}

/// The division is one and no other: what is found first, and then the bytes behind it in the same way.
pub fn division_is_unique()
    ensures divides { Divides blocks }
    ensures unique { (division : List ℕ → List Piece) → Divides division → (q : List ℕ) → division q ≡ blocks q }
{}

/// What follows changes nothing of what is there: a block or a length that was found stays, and the division of more
/// bytes begins with that of fewer. No bytes past the 8,192 behind the skipped ones count.
pub fn what_follows_changes_nothing()
    ensures block { (q z : List ℕ) (skip len : ℕ) → cut_of q ≡ Found.Block skip len → cut_of (q ++ z) ≡ Found.Block skip len }
    ensures long { (q z : List ℕ) (skip : ℕ) → cut_of q ≡ Found.TooLong skip → cut_of (q ++ z) ≡ Found.TooLong skip }
    ensures beyond { (q z : List ℕ) → skipped q + MAX_HEAD_BYTES ≤ length q → cut_of (q ++ z) ≡ cut_of q }
    ensures blocks { (q z : List ℕ) → (later : List Piece) × (blocks (q ++ z) ≡ blocks q ++ later) }
{}

/// What a reader takes off the front is cut whatever follows it: nothing, the skipped pairs, a block, and one after the
/// other.
pub fn what_is_taken_is_cut()
    ensures nothing { Cuts [] [] }
    ensures pairs { (q : List ℕ) → Cuts (take (skipped q) q) [] }
    ensures block { (q : List ℕ) (skip len : ℕ) → cut_of q ≡ Found.Block skip len
        → Cuts (take (skip + len) q) (Head (take len (drop skip q)) (skip + len) ∷ []) }
    ensures joined { (x y : List ℕ) (ps rs : List Piece) → Cuts x ps → Cuts y rs
        → Cuts (x ++ y) (ps ++ map (piece_moved (length x)) rs) }
{}
