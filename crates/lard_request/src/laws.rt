//! What holds of the definitions, for all bytes.

ghost use Rattle.std.specs.Prelude.{◌≡◌, ◌↔◌, ℕ, List, []};
ghost use Rattle.httparse.specs.Grammar.{RequestHead, ReadsRequest};
ghost use Rattle.lard_request.specs.Head.{head_of};

/// What is read as a head is what `httparse`'s grammar accepts, from the first byte to the last, and nothing else
/// (RFC 9112, 2 to 5).
pub fn reads_the_grammar()
    ensures { (b : List ℕ) (h : RequestHead) → (head_of b ≡ Some h) ↔ ReadsRequest b h [] }
{}
