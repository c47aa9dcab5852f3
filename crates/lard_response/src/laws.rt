//! What holds of the bytes of a response.

ghost use Rattle.std.specs.Prelude.{◌≡◌, ℕ, ◌++◌, Bool, true, false, List, [], length};
ghost use Rattle.lard_request.specs.declared.verdict.Code.{Code as AnyCode};
ghost use Rattle.lard_response.specs.Response.{response};

use lard_request::Code;

/// How many bytes a response without content has.
pub fn responses_have_these_lengths()
    ensures ok { length (response Code.Ok [] false false) ≡ 38 }
    ensures ok_close { length (response Code.Ok [] false true) ≡ 57 }
    ensures bad_request { length (response Code.BadRequest [] false true) ≡ 66 }
    ensures not_found { length (response Code.NotFound [] false false) ≡ 45 }
    ensures not_found_close { length (response Code.NotFound [] false true) ≡ 64 }
    ensures too_large { length (response Code.TooLarge [] false true) ≡ 72 }
    ensures fields_too_large { length (response Code.FieldsTooLarge [] false true) ≡ 86 }
    ensures not_implemented { length (response Code.NotImplemented [] false true) ≡ 70 }
{}

/// The answer to HEAD is that to GET without its content (RFC 9110, 9.3.2), and an answer with its content tells its
/// code, the content, and whether the connection closes.
pub fn a_response_tells_its_parts()
    ensures head { (code : AnyCode) (body : List ℕ) (close : Bool) → response code body false close ≡ response code body true close ++ body }
    ensures parts { (code other : AnyCode) (body text : List ℕ) (close shut : Bool) → response code body false close ≡ response other text false shut
        → (code ≡ other) × (body ≡ text) × (close ≡ shut) }
{}
