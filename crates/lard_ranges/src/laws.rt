//! What holds of ranges, for all values and all files.

ghost use Rattle.std.specs.Prelude.{◌≡◌, ◌↔◌, ◌<◌, ◌≤◌, ℕ, List, Some};
ghost use Rattle.lard_ranges.specs.declared.parts.Part.TheVariants.{Slice, Unsatisfiable};
ghost use Rattle.lard_ranges.specs.declared.reading.Range.{Range};
ghost use Rattle.lard_ranges.specs.Reading.{range_read, IsForward};
ghost use Rattle.lard_ranges.specs.Spelled.{SpellsRange};
ghost use Rattle.lard_ranges.specs.Parts.{applied, HasByte, AsksForByte};

/// A value is read as a range exactly where it is spelled so (RFC 9110, 14.1.1 and 14.1.2).
pub fn reads_the_grammar()
    ensures { (value : List ℕ) (range : Range) → (range_read value ≡ Some range) ↔ SpellsRange value range }
{}

/// A slice of a file lies within it, and has at least one byte: where the range's last byte is not before its first, as
/// in each range that is read.
pub fn parts_lie_within()
    ensures { (range : Range) (n first last : ℕ) → IsForward range → applied range n ≡ Slice first last → (first ≤ last) × (last < n) }
{}

/// A part has exactly those bytes of the file that the range asks for; and a range that is read is unsatisfiable exactly
/// where the file has bytes, and it asks for none of them (RFC 9110, 14.1.2).
pub fn parts_have_what_is_asked_for()
    ensures bytes { (range : Range) (n place : ℕ) → place < n → HasByte (applied range n) place ↔ AsksForByte range n place }
    ensures none { (range : Range) (n : ℕ) → IsForward range
        → (applied range n ≡ Unsatisfiable) ↔ ((0 < n) × ((place : ℕ) → place < n → ¬ (AsksForByte range n place))) }
{}
