//! Words that are numbers: decimal digits without a sign or a leading zero.
ghost use Rattle.std.specs.Prelude.{◌≡◌, ◌≤◌, ◌^◌, ◌↔◌, IsTrue, slice_index};
ghost use Rattle.smore_top.specs.Words.{IsPlain, ReadsNumber, ReadsNumberAt};

use crate::words::Words;

/// Whether it begins with a digit from 1 to 9.
fn has_first_digit(word: &str) -> bool
    ensures { IsTrue result ↔ ((49 ≤ slice_index word.now 0) × (slice_index word.now 0 ≤ 57)) }
{
    matches!(word.as_bytes(), [b'1'..=b'9', ..])
}

/// Of digits: whether they have no sign and no leading zero.
fn is_plain(word: &str) -> bool
    ensures { IsTrue result ↔ IsPlain word.now }
{
    word == "0" || has_first_digit(word)
}

fn read_number(word: &str) -> Option<u32>
    ensures { ReadsNumber (2 ^ 32) word.now result }
{
    let Ok(number) = word.parse::<u32>() else {
        return None;
    };
    if !is_plain(word) {
        return None;
    }
    Some(number)
}

/// The number that the word at this index spells.
pub(crate) fn number_at(words: &Words, index: usize) -> Option<u32>
    ensures { ReadsNumberAt (2 ^ 32) index words.now result }
{
    read_number(words.get(index)?)
}

/// The same, below 2^16.
pub(crate) fn short_at(words: &Words, index: usize) -> Option<u16>
    ensures { ReadsNumberAt (2 ^ 16) index words.now result }
{
    match u16::try_from(number_at(words, index)?) {
        Ok(number) => Some(number),
        Err(_) => None,
    }
}

/// The same, below 2^8.
pub(crate) fn byte_at(words: &Words, index: usize) -> Option<u8>
    ensures { ReadsNumberAt (2 ^ 8) index words.now result }
{
    match u8::try_from(number_at(words, index)?) {
        Ok(number) => Some(number),
        Err(_) => None,
    }
}
