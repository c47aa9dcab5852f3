//! Laws of the grammar: a line stands for what it spells, and for nothing else.

ghost use Rattle.std.specs.Prelude.{◌≡◌, ◌≢◌, ◌↔◌, ℕ, ◌<◌, ◌≤◌, ◌^◌, List, None, Some, decimal, true};
ghost use Rattle.lard_base.specs.Spelling.{event_words, sentence};
ghost use Rattle.lard_base.specs.declared.config.Key.{Key};
ghost use Rattle.lard_base.specs.declared.event.Event.{Event};
ghost use Rattle.lard_schedule.specs.declared.item.Item.{Item};
ghost use Rattle.lard_schedule.specs.declared.keys.Keys.{Keys};
ghost use Rattle.lard_schedule.specs.declared.reader.Reader.{Reader};
ghost use Rattle.lard_schedule.specs.Words.{number_of, words_of};
ghost use Rattle.lard_schedule.specs.Events.{IsInLineRange, event_of};
ghost use Rattle.lard_schedule.specs.Reader.{HasRange, has_key, item_of, with_key};
ghost use Rattle.lard_schedule.specs.Laws.{AreWords, HasBytes, IsLineOf, MayStand, Spells};

/// A word is read as a number exactly where it is that number in decimal, at most as great as is asked for: no sign, no
/// leading zero.
pub fn numbers()
    ensures { (most : ℕ) (word : List ℕ) (n : ℕ) → most < 2 ^ 64 → (number_of most word ≡ Some n) ↔ ((word ≡ decimal n) × (n ≤ most)) }
{}

/// A line is the sentence of its words, and a sentence of words without spaces is cut into these words.
pub fn words()
    ensures line { (line : List ℕ) → sentence (words_of line) ≡ line }
    ensures words { (words : List (List ℕ)) → AreWords words → words_of (sentence words) ≡ words }
{}

/// Words are read as an event exactly where they spell it, with digits of both cases for bytes, and it is in range. So
/// an event that is in range is read again from the words by which a report tells it.
pub fn events()
    ensures event { (words : List (List ℕ)) (event : Event) → (event_of words ≡ Some event) ↔ (Spells words event × IsInLineRange event) }
    ensures again { (event : Event) → IsInLineRange event → HasBytes event → event_of (event_words event) ≡ Some event }
{}

/// A line stands for an item exactly where it is the sentence of words that spell the item, the item may stand where the
/// reader is, and it is in range. Else it stands for nothing.
pub fn lines()
    ensures item { (reader : Reader) (line : List ℕ) (what : Item)
        → (item_of reader line ≡ Some what) ↔ (IsLineOf line what × MayStand reader what × HasRange what) }
    ensures nothing { (reader : Reader) (line : List ℕ)
        → (item_of reader line ≡ None) ↔ ((what : Item) → ¬ (IsLineOf line what × MayStand reader what × HasRange what)) }
{}

/// A key that is set is set from then on, and the others are as they were.
pub fn keys()
    ensures set { (keys : Keys) (key : Key) → has_key (with_key keys key) key ≡ true }
    ensures others { (keys : Keys) (key other : Key) → other ≢ key → has_key (with_key keys key) other ≡ has_key keys other }
{}
