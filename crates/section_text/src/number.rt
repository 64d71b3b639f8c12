//! The numbers that words are.
ghost use Rattle.std.specs.Prelude.{◌≡◌, ◌==◌, ◌+◌, ◌-◌, ◌^◌, ◌<◌, ◌≤◌, true, false, [], ◌∷◌, length, Option, Some, None, IfNone, IfSome};
ghost use Rattle.std.specs.Option.{option_map};
ghost use Rattle.std.specs.List.{list_all};
ghost use Rattle.section_text.specs.Words.{is_digit, is_number, append_digits, words_of, number_of};
ghost use Rattle.section_text.specs.Leading.{leading_number};

// The most digits of a number.
const MAX_DIGITS: usize = 9;

// The number that at most nine digits spell, or `None` if some byte is no digit.
fn read_digits(word: &[u8]) -> Option<u32>
    requires at_most_9 { length word.now ≤ 9 }
    ensures number { IfSome result (λ n. (list_all is_digit word.now ≡ true)
        × (n ≡ append_digits 0 word.now)) }
    ensures none_means_no_digits { IfNone result (list_all is_digit word.now ≡ false) }
{
    let mut number = 0u32;
    for b in word {
        if !b.is_ascii_digit() {
            return None;
        }
        number = 10 * number + u32::from(*b - b'0');
    }
    Some(number)
}

// Whether a word may be a number by its length and its first byte.
fn has_number_length_and_start(word: &[u8]) -> bool
    ensures number { is_number word.now ≡ true → result ≡ true }
    ensures at_most_9 { result ≡ true → length word.now ≤ 9 }
    ensures is_number_if_digits { result ≡ true → list_all is_digit word.now ≡ is_number word.now }
{
    match word {
        [] => false,
        [first, rest @ ..] => rest.len() < 9 && (rest.is_empty() || *first > b'0'),
    }
}

/// Returns the number that a word is, or `None` for any other word.
///
/// A number is `0`, or at most nine digits of which the first is not `0`.
#[tactic(auto, using(crate::proofs::Numbers::not_read, crate::proofs::Numbers::number_read, crate::proofs::Numbers::read_small))]
pub fn read_number(word: &[u8]) -> Option<u32>
    ensures number { result ≡ number_of word.now }
    ensures below_a_billion { IfSome result (λ n. n < 10 ^ 9) }
{
    if has_number_length_and_start(word) {
        read_digits(word)
    } else {
        None
    }
}

// The number whose first digit is given and whose others a line begins with, and what stands behind the number's space.
#[inline(always)]
fn take_digits(first: u8, line: &[u8]) -> Option<(u32, &[u8])>
    requires first { (49 ≤ first) × (first ≤ 57) }
    ensures number { option_map (λ r. (r.0, words_of r.1.now)) result
        ≡ leading_number (words_of (first ∷ line.now)) }
    ensures below_a_billion { IfSome result (λ r. r.0 < 10 ^ 9) }
{
    let mut number = u32::from(first - b'0');
    let most = line.len().min(MAX_DIGITS - 1);
    for at in 0..most {
        let b = line[at];
        if !b.is_ascii_digit() {
            return if b == b' ' {
                Some((number, &line[at + 1..]))
            } else {
                None
            };
        }
        number = 10 * number + u32::from(b - b'0');
    }
    if most < line.len() && line[most] == b' ' {
        Some((number, &line[most + 1..]))
    } else {
        None
    }
}

// The number `0` of a line that goes on so behind this digit, and what stands behind its space.
#[tactic(auto, using(crate::proofs::Leading::zero_else, crate::proofs::Leading::zero_then))]
fn zero_if_space_follows(line: &[u8]) -> Option<(u32, &[u8])>
    ensures number { option_map (λ r. (r.0, words_of r.1.now)) result
        ≡ leading_number (words_of (48 ∷ line.now)) }
    ensures below_a_billion { IfSome result (λ r. r.0 < 10 ^ 9) }
{
    match line {
        [b' ', rest @ ..] => Some((0, rest)),
        _ => None,
    }
}

// The number of a line of this first byte, and what stands behind its space.
#[inline(always)]
#[tactic(auto, using(crate::proofs::Leading::no_digit))]
fn take_number_from_digit(first: u8, line: &[u8]) -> Option<(u32, &[u8])>
    ensures number { option_map (λ r. (r.0, words_of r.1.now)) result
        ≡ leading_number (words_of (first ∷ line.now)) }
    ensures below_a_billion { IfSome result (λ r. r.0 < 10 ^ 9) }
{
    if first == b'0' {
        return zero_if_space_follows(line);
    }
    if first.is_ascii_digit() {
        take_digits(first, line)
    } else {
        None
    }
}

/// Reads the number that is the first of several words of a line, and passes the space behind it.
///
/// It returns the number and the rest of the line, or `None` if the first word is no number or the line has no other
/// word. It passes over the digits once.
#[inline(always)]
#[tactic(auto, using(crate::proofs::Leading::empty_line))]
pub fn take_number(line: &[u8]) -> Option<(u32, &[u8])>
    ensures number { option_map (λ r. (r.0, words_of r.1.now)) result
        ≡ leading_number (words_of line.now) }
    ensures below_a_billion { IfSome result (λ r. r.0 < 10 ^ 9) }
{
    match line {
        [] => None,
        [first, rest @ ..] => take_number_from_digit(*first, rest),
    }
}
