//! Fields, read from the front of a text.

ghost use Rattle.std.specs.Prelude.{◌<◌, ◌≡◌, option_map};
ghost use Rattle.tuple_text.specs.Forms.{plain_number};
ghost use Rattle.carry.specs.Faults.{Tells};
ghost use Rattle.carry.specs.Fields.{after_word, behind, flag_at, number_to, text_at, word_at};

use crate::fault::FieldFault;
use itoa::Buffer;

/// The number whose digits these are, with no zero before another.
fn number_of(digits: &str) -> Option<u64>
    ensures { result ≡ plain_number digits.now }
{
    match digits.parse::<u64>() {
        Ok(number) => {
            let mut buffer = Buffer::new();
            if buffer.format(number) == digits {
                Some(number)
            } else {
                None
            }
        }
        Err(_) => None,
    }
}

/// The number up to the byte that ends it, and what stands behind that.
#[tactic(auto, unfolding(crate::specs::Fields::number_to))]
pub(crate) fn number_to(text: &str, end: char) -> Result<(u64, &str), FieldFault>
    requires { end < 128 }
    ensures { Tells (λ x. (x.0, x.1.now)) result (number_to end text.now) }
{
    let Some((digits, rest)) = text.split_once(end) else {
        return Err(FieldFault::Left(text.len()));
    };
    match number_of(digits) {
        Some(number) => Ok((number, rest)),
        None => Err(FieldFault::Left(text.len())),
    }
}

/// The text of a line, behind its length.
#[tactic(auto, unfolding(crate::specs::Fields::text_at))]
pub(crate) fn text_at(text: &str) -> Result<(&str, &str), FieldFault>
    ensures { Tells (λ x. (x.0.now, x.1.now)) result (text_at text.now) }
{
    let (len, rest) = number_to(text, ' ')?;
    let len = len as usize;
    if len < rest.len() && rest.as_bytes()[len] == b'\n' {
        Ok((&rest[..len], &rest[len + 1..]))
    } else {
        Err(FieldFault::Left(text.len()))
    }
}

/// What stands behind a word, where the text begins with it.
pub(crate) fn word_at<'a>(text: &'a str, word: &str) -> Option<&'a str>
    ensures { option_map (λ s. s.now) result ≡ word_at word.now text.now }
{
    text.strip_prefix(word)
}

/// What stands behind a word.
pub(crate) fn after_word<'a>(text: &'a str, word: &str) -> Result<&'a str, FieldFault>
    ensures { Tells (λ s. s.now) result (after_word word.now text.now) }
{
    match word_at(text, word) {
        Some(rest) => Ok(rest),
        None => Err(FieldFault::Left(text.len())),
    }
}

/// The number behind a word, on a line.
pub(crate) fn number_behind<'a>(text: &'a str, word: &str) -> Result<(u64, &'a str), FieldFault>
    ensures { Tells (λ x. (x.0, x.1.now)) result (behind word.now (number_to 10) text.now) }
{
    let rest = after_word(text, word)?;
    number_to(rest, '\n')
}

/// Which of two words the text begins with.
pub(crate) fn flag_at<'a>(
    text: &'a str,
    first: &str,
    second: &str,
) -> Result<(bool, &'a str), FieldFault>
    ensures { Tells (λ x. (x.0, x.1.now)) result (flag_at first.now second.now text.now) }
{
    if let Some(rest) = word_at(text, first) {
        return Ok((true, rest));
    }
    let rest = after_word(text, second)?;
    Ok((false, rest))
}
