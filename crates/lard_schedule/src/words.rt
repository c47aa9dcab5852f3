//! The words of a line, one after another.

ghost use Rattle.std.specs.Prelude.{◌≡◌, bytes_eq};
ghost use Rattle.std.specs.List.{position};
ghost use Rattle.lard_schedule.specs.Words.{Finds, ended, first_word, is_space, left_of, seen_word, word_then, words_of};

/// The words of a line that are still to be read; with `None` there are none.
#[derive(Clone, Copy)]
pub struct Words<'a> {
    pub rest: Option<&'a [u8]>,
}

/// The line's first word: its bytes up to the first space, or all of them.
pub fn first_word(line: &[u8]) -> &[u8]
    ensures { result.now ≡ first_word line.now }
{
    match space_in(line) {
        Some(at) => return &line[..at],
        None => return line,
    }
}

/// The words of a whole line.
pub fn words_of(line: &[u8]) -> Words<'_>
    ensures { left_of result ≡ words_of line.now }
{
    Words { rest: Some(line) }
}

/// The next word, and what is left behind it.
pub fn next(words: Words<'_>) -> Option<(&[u8], Words<'_>)>
    ensures { Finds seen_word result (word_then (left_of words.entry)) }
{
    let rest = words.rest?;
    match space_in(rest) {
        Some(at) => Some((
            &rest[..at],
            Words {
                rest: Some(&rest[at + 1..]),
            },
        )),
        None => Some((rest, Words { rest: None })),
    }
}

/// Nothing is left to be read.
pub fn end(words: Words<'_>) -> Option<()>
    ensures { result ≡ ended (left_of words.entry) tt }
{
    match words.rest {
        Some(_) => return None,
        None => return Some(()),
    }
}

/// Whether the word is this text.
pub fn is(word: &[u8], text: &str) -> bool
    ensures { result ≡ bytes_eq word.now text.now }
{
    word == text.as_bytes()
}

/// Where the first space stands.
fn space_in(text: &[u8]) -> Option<usize>
    ensures { result ≡ position is_space text.now }
{
    text.iter().position(|byte| *byte == b' ')
}
