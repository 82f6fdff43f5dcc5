//! The fields of a line.
ghost use Rattle.std.specs.Prelude.{◌≡◌, ◌≤◌, length, true, IfOk};
ghost use Rattle.std.specs.List.{list_all};
ghost use Rattle.fab_base.specs.Fields.{bytes_fit};
ghost use Rattle.fault_script.specs.Checks.{Gives};
ghost use Rattle.fault_script.specs.Words.{words_of};
ghost use Rattle.fault_script.specs.Fields.{is_digit, is_numeral, value_of_digits, number, number_within, one_number, two_numbers, word_within, key_of, value_of};

use crate::faults::Why;
use crate::words::{Words, cut_once};
use fab_base::{LONGEST_KEY, LONGEST_VALUE};

/// Whether the byte is a digit.
fn is_digit(b: u8) -> bool
    ensures { result ≡ is_digit b }
{
    b >= b'0' && b <= b'9'
}

/// Whether each byte is a digit.
fn all_digits(word: &[u8]) -> bool
    ensures { result ≡ list_all is_digit word.now }
{
    word.iter().all(|b| is_digit(*b))
}

/// Whether the word is 1 to 20 digits.
fn is_numeral(word: &[u8]) -> bool
    ensures { result ≡ is_numeral word.now }
{
    if word.is_empty() || word.len() > 20 {
        return false;
    }
    all_digits(word)
}

/// The value of at most 20 digits.
fn value_of_digits(word: &[u8]) -> u128
    requires { length word.now ≤ 20 }
    ensures { result ≡ value_of_digits word.now }
{
    let mut value = 0u128;
    for b in word {
        value = value * 10 + b.saturating_sub(b'0') as u128;
    }
    value
}

/// A number: 1 to 20 digits, below 2^64.
pub(crate) fn number(word: &[u8]) -> Result<u64, Why>
    ensures { result ≡ number word.now }
{
    if !is_numeral(word) {
        return Err(Why::BadNumber);
    }
    match u64::try_from(value_of_digits(word)) {
        Ok(value) => Ok(value),
        Err(_) => Err(Why::BadNumber),
    }
}

/// A number between two limits.
pub(crate) fn number_within(low: u64, high: u64, word: &[u8]) -> Result<u64, Why>
    ensures is { result ≡ number_within low high word.now }
    ensures within { IfOk result (λ n. (low ≤ n) × (n ≤ high)) }
{
    let n = number(word)?;
    if low <= n && n <= high {
        Ok(n)
    } else {
        Err(Why::OutOfRange)
    }
}

/// The whole of a line that sets a number between two limits: just one word, which spells such a number.
pub(crate) fn one_number(low: u64, high: u64, words: Words<'_>) -> Result<u64, Why>
    ensures is { result ≡ one_number low high (words_of words.entry.rest.now) }
    ensures within { IfOk result (λ n. (low ≤ n) × (n ≤ high)) }
{
    number_within(low, high, words.one()?)
}

/// Two numbers with a point between them.
pub(crate) fn two_numbers(word: &[u8]) -> Result<(u64, u64), Why>
    ensures { result ≡ two_numbers word.now }
{
    let Some((front, back)) = cut_once(word, b'.') else {
        return Err(Why::BadNumber);
    };
    if cut_once(back, b'.').is_some() {
        return Err(Why::BadNumber);
    }
    let first = number(front)?;
    let second = number(back)?;
    Ok((first, second))
}

/// A word of at most so many bytes.
fn word_within(longest: usize, word: &[u8]) -> Result<&[u8], Why>
    ensures is { Gives (λ word. word.now) result (word_within longest word.now) }
    ensures within { IfOk result (λ word. bytes_fit longest word.now ≡ true) }
{
    if word.len() <= longest {
        Ok(word)
    } else {
        Err(Why::BadWord)
    }
}

/// A key.
pub(crate) fn key_of(word: &[u8]) -> Result<&[u8], Why>
    ensures is { Gives (λ key. key.now) result (key_of word.now) }
    ensures within { IfOk result (λ key. bytes_fit LONGEST_KEY key.now ≡ true) }
{
    word_within(LONGEST_KEY, word)
}

/// A value.
pub(crate) fn value_of(word: &[u8]) -> Result<&[u8], Why>
    ensures is { Gives (λ value. value.now) result (value_of word.now) }
    ensures within { IfOk result (λ value. bytes_fit LONGEST_VALUE value.now ≡ true) }
{
    word_within(LONGEST_VALUE, word)
}
