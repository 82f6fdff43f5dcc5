//! A script's lines, and the words of a line.
ghost use Rattle.std.specs.Prelude.{◌≡◌, ◌<◌, ◌∷◌, [], length, MatchOption, nat_eq, position};
ghost use Rattle.std.specs.List.{slice_split};
ghost use Rattle.std.specs.Str.Lines.{lines, strip_carriage_return};
ghost use Rattle.fault_script.specs.Checks.{Gives};
ghost use Rattle.fault_script.specs.Words.{words_of, same_word, one_word, two_words, three_words};

use crate::faults::Why;

/// The place of the first such byte.
fn place_of(text: &[u8], byte: u8) -> Option<usize>
    ensures { result ≡ position (λ b. nat_eq b byte) text.now }
{
    text.iter().position(|b| *b == byte)
}

/// What stands before the first such byte, and what stands after it; `None` where there is no such byte.
pub(crate) fn cut_once(text: &[u8], byte: u8) -> Option<(&[u8], &[u8])>
    ensures { MatchOption result
        (slice_split (λ b. nat_eq b byte) text.now ≡ text.now ∷ [])
        (λ cut. (slice_split (λ b. nat_eq b byte) text.now ≡ cut.0.now ∷ slice_split (λ b. nat_eq b byte) cut.1.now) × (length cut.1.now < length text.now)) }
{
    match place_of(text, byte) {
        Some(at) => Some((&text[..at], &text[at + 1..])),
        None => None,
    }
}

/// The line without the carriage return at its end, if it has one.
fn without_return(line: &[u8]) -> &[u8]
    ensures { result.now ≡ strip_carriage_return line.now }
{
    match line {
        [front @ .., b'\r'] => front,
        _ => line,
    }
}

/// The first line of a text, and the text after it.
pub(crate) fn first_line(text: &[u8]) -> (&[u8], &[u8])
    requires { 0 < length text.now }
    ensures lines { lines text.now ≡ result.0.now ∷ lines result.1.now }
    ensures rest { length result.1.now < length text.now }
{
    match cut_once(text, b'\n') {
        Some((line, rest)) => (without_return(line), rest),
        None => (text, &text[text.len()..]),
    }
}

/// Whether the words are the same.
pub(crate) fn same_word(word: &[u8], other: &[u8]) -> bool
    ensures { result ≡ same_word word.now other.now }
{
    word == other
}

/// The words of a line that are still to be read.
#[derive(Clone, Copy, Drop)]
pub(crate) struct Words<'a> {
    pub(crate) rest: &'a [u8],
}

impl<'a> Words<'a> {
    /// The next word.
    pub(crate) fn next(&mut self) -> Option<&'a [u8]>
        ensures { MatchOption result
            (words_of self.old.rest.now ≡ [])
            (λ word. words_of self.old.rest.now ≡ word.now ∷ words_of self.new.rest.now) }
    {
        while let Some((word, rest)) = cut_once(self.rest, b' ') {
            self.rest = rest;
            if !word.is_empty() {
                return Some(word);
            }
        }
        let last = self.rest;
        self.rest = &[];
        if last.is_empty() { None } else { Some(last) }
    }

    /// Just one word.
    pub(crate) fn one(mut self) -> Result<&'a [u8], Why>
        ensures { Gives (λ word. word.now) result (one_word (words_of self.entry.rest.now)) }
    {
        let Some(first) = self.next() else {
            return Err(Why::Missing);
        };
        match self.next() {
            None => Ok(first),
            Some(_) => Err(Why::BadWord),
        }
    }

    /// Just two words.
    pub(crate) fn two(mut self) -> Result<(&'a [u8], &'a [u8]), Why>
        ensures { Gives (λ words. (words.0.now, words.1.now)) result (two_words (words_of self.entry.rest.now)) }
    {
        let Some(first) = self.next() else {
            return Err(Why::Missing);
        };
        let second = self.one()?;
        Ok((first, second))
    }

    /// Just three words.
    pub(crate) fn three(mut self) -> Result<(&'a [u8], &'a [u8], &'a [u8]), Why>
        ensures { Gives (λ words. (words.0.now, words.1.now, words.2.now)) result (three_words (words_of self.entry.rest.now)) }
    {
        let Some(first) = self.next() else {
            return Err(Why::Missing);
        };
        let (second, third) = self.two()?;
        Ok((first, second, third))
    }
}
