//! The words of a line.
ghost use Rattle.std.specs.Prelude.{drop, ◌≡◌, ◌==◌, ◌+◌, ◌-◌, ◌^◌, ◌<◌, ◌≤◌, true, false, [], ◌∷◌, length, Option, Some, None, IfSome, slice_get};
ghost use Rattle.std.specs.Option.{option_copied, option_map};
ghost use Rattle.std.specs.List.{position};
ghost use Rattle.section_text.specs.Words.{is_space, words_of, names_at, names_beside_arrow, name_after_keyword, number_after_keyword, words_of_three, words_of_four, words_of_five, words_of_rest};
ghost use Rattle.section_text.specs.Listed.{list_of_three_words, list_of_four_words, list_of_five_words};

use crate::name::Name;
use crate::names::Names;
use crate::number::read_number;
use memchr::memchr;

/// The words of a line of three, in order.
#[derive(Clone, Copy)]
pub struct ThreeWords<'a> {
    pub first: &'a [u8],
    pub second: &'a [u8],
    pub third: &'a [u8],
}

/// The words of a line of four, in order.
#[derive(Clone, Copy)]
pub struct FourWords<'a> {
    pub first: &'a [u8],
    pub second: &'a [u8],
    pub third: &'a [u8],
    pub fourth: &'a [u8],
}

/// The words of a line of five, in order.
#[derive(Clone, Copy)]
pub struct FiveWords<'a> {
    pub first: &'a [u8],
    pub second: &'a [u8],
    pub third: &'a [u8],
    pub fourth: &'a [u8],
    pub fifth: &'a [u8],
}

// A word has rarely more bytes, and a vector costs more than a look at so few.
const MAX_SHORT_BYTES: usize = 8;

fn first_space_byte_by_byte(line: &[u8]) -> Option<usize>
    ensures { result ≡ position is_space line.now }
{
    line.iter().position(|b| *b == b' ')
}

// Where the first space of a long line is.
#[tactic(auto, using(crate::proofs::LineFeeds::first_is_position))]
fn first_space_by_vectors(line: &[u8]) -> Option<usize>
    ensures { result ≡ position is_space line.now }
{
    memchr(b' ', line)
}

// Where the first space of a line is. Inlined, the loop takes twice the instructions for a byte, since the compiler
// keeps a count for each word that follows.
#[inline(never)]
fn first_space(line: &[u8]) -> Option<usize>
    ensures { result ≡ position is_space line.now }
{
    if line.len() <= MAX_SHORT_BYTES {
        return first_space_byte_by_byte(line);
    }
    let near = first_space_byte_by_byte(&line[..MAX_SHORT_BYTES]);
    if near.is_some() {
        return near;
    }
    let at = first_space_by_vectors(&line[MAX_SHORT_BYTES..])?;
    Some(MAX_SHORT_BYTES + at)
}

// The first word of a line that has more, and what stands behind its space.
#[tactic(auto, using(crate::proofs::Splitting::split_none, crate::proofs::Splitting::split_some))]
fn split_word(line: &[u8]) -> Option<(&[u8], &[u8])>
    ensures splits_at_space { IfSome result (λ r. words_of line.now ≡ r.0.now ∷ words_of r.1.now) }
    ensures one_word { result ≡ None → words_of line.now ≡ line.now ∷ [] }
{
    let space = first_space(line)?;
    Some((&line[..space], &line[space + 1..]))
}

// The first word of a line, and what stands behind its space, if it has one.
pub(crate) fn next_word(line: &[u8]) -> (&[u8], Option<&[u8]>)
    ensures { words_of line.now ≡ result.0.now ∷ words_of_rest (option_copied result.1) }
{
    match split_word(line) {
        Some((word, rest)) => (word, Some(rest)),
        None => (line, None),
    }
}

// The part of a line from one of its words on, or `None` past the last one.
#[tactic(auto, using(crate::proofs::WordsLeft::none_further, crate::proofs::WordsLeft::one_further))]
fn words_from(line: &[u8], index: usize) -> Option<&[u8]>
    ensures { words_of_rest (option_copied result) ≡ drop index (words_of line.now) }
{
    let mut rest = line;
    for i in 0..index {
        let Some((_, behind)) = split_word(rest) else {
            return None;
        };
        rest = behind;
    }
    Some(rest)
}

#[tactic(auto, using(crate::proofs::Splitting::is_not_alone))]
pub(crate) fn is_one_word(line: &[u8]) -> bool
    ensures { result ≡ (length (words_of line.now) == 1) }
{
    match split_word(line) {
        Some(_) => false,
        None => true,
    }
}

// The name of a line of two words. A name has no space, so what stands behind the first word is not split.
#[tactic(auto, using(crate::proofs::Splitting::lone_name_is, crate::proofs::Splitting::one_word_is_no_name))]
pub(crate) fn name_of_two_word_line(line: &[u8]) -> Option<Name>
    ensures { result ≡ name_after_keyword (words_of line.now) }
{
    let (_, rest) = split_word(line)?;
    Name::of(rest)
}

// The number of a line of two words. A number has no space, so what stands behind the first word is not split.
#[tactic(auto, using(crate::proofs::Splitting::lone_number_is, crate::proofs::Splitting::one_word_is_no_number))]
pub(crate) fn number_of_two_word_line(line: &[u8]) -> Option<u32>
    ensures number { result ≡ number_after_keyword (words_of line.now) }
    ensures below_a_billion { IfSome result (λ n. n < 10 ^ 9) }
{
    let (_, rest) = split_word(line)?;
    read_number(rest)
}

// The words of a line of three.
#[tactic(auto, using(crate::proofs::Splitting::one_of_three, crate::proofs::Splitting::past_third, crate::proofs::Splitting::three_are, crate::proofs::Splitting::two_words_are_not_three))]
pub(crate) fn split_three_words(line: &[u8]) -> Option<ThreeWords<'_>>
    ensures { option_map list_of_three_words result ≡ words_of_three (words_of line.now) }
{
    let Some((first, rest)) = split_word(line) else {
        return None;
    };
    let Some((second, third)) = split_word(rest) else {
        return None;
    };
    match split_word(third) {
        Some(_) => None,
        None => Some(ThreeWords {
            first,
            second,
            third,
        }),
    }
}

// The words of a line of four.
pub(crate) fn split_four_words(line: &[u8]) -> Option<FourWords<'_>>
    ensures { option_map list_of_four_words result ≡ words_of_four (words_of line.now) }
{
    let Some((first, rest)) = split_word(line) else {
        return None;
    };
    let Some((second, rest)) = split_word(rest) else {
        return None;
    };
    let Some((third, fourth)) = split_word(rest) else {
        return None;
    };
    match split_word(fourth) {
        Some(_) => None,
        None => Some(FourWords {
            first,
            second,
            third,
            fourth,
        }),
    }
}

// The words of a line of five: the first one, and those of a line of four.
#[tactic(auto, using(crate::proofs::Splitting::five_are, crate::proofs::Splitting::lone_word, crate::proofs::Splitting::no_five))]
pub(crate) fn split_five_words(line: &[u8]) -> Option<FiveWords<'_>>
    ensures { option_map list_of_five_words result ≡ words_of_five (words_of line.now) }
{
    let Some((first, rest)) = split_word(line) else {
        return None;
    };
    let Some(
        FourWords {
            first: second,
            second: third,
            third: fourth,
            fourth: fifth,
        },
    ) = split_four_words(rest)
    else {
        return None;
    };
    Some(FiveWords {
        first,
        second,
        third,
        fourth,
        fifth,
    })
}

#[tactic(auto, using(crate::proofs::WordsLeft::no_word_at, crate::proofs::WordsLeft::word_at))]
pub(crate) fn word_in(line: &[u8], index: usize) -> Option<&[u8]>
    ensures { option_copied result ≡ slice_get (words_of line.now) index }
{
    let (word, _) = next_word(words_from(line, index)?);
    Some(word)
}

// The names that the next `count` words of what is left of a line are, and what is left behind them.
fn take_names(left: Option<&[u8]>, count: usize) -> Option<(Names, Option<&[u8]>)>
    requires { count ≤ 4 }
    ensures names { option_map (λ r. r.0) result
        ≡ names_at (words_of_rest (option_copied left.entry)) 0 count }
    ensures rest_of_words { IfSome result (λ r. words_of_rest (option_copied r.1)
        ≡ drop count (words_of_rest (option_copied left.entry))) }
{
    let mut names = Names::new();
    let mut rest = left;
    for i in 0..count {
        let (word, behind) = next_word(rest?);
        names.push(Name::of(word)?);
        rest = behind;
    }
    Some((names, rest))
}

// The names on both sides of an arrow, from a word on to the end of the line.
pub(crate) fn names_beside_arrow_in(
    line: &[u8],
    from: usize,
    before: usize,
    after: usize,
) -> Option<(Names, Names)>
    requires before { before ≤ 4 }
    requires after { after ≤ 4 }
    ensures { result ≡ names_beside_arrow (words_of line.now) from before after }
{
    let (ins, rest) = take_names(words_from(line, from), before)?;
    let (arrow, rest) = next_word(rest?);
    if arrow != b"->".as_slice() {
        return None;
    }
    let (outs, rest) = take_names(rest, after)?;
    match rest {
        Some(_) => None,
        None => Some((ins, outs)),
    }
}

pub(crate) fn count_words_in(line: &[u8]) -> usize
    ensures { result ≡ length (words_of line.now) }
{
    1 + line.iter().filter(|b| **b == b' ').count()
}
