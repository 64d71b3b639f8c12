//! A text in pieces, taken line by line.
ghost use Rattle.std.specs.Prelude.{drop, take, ◌≡◌, ◌==◌, ◌+◌, ◌-◌, ◌^◌, ◌<◌, ◌≤◌, ◌↔◌, true, false, [], ◌++◌, length, Option, Some, None, Ok, Err, IfOk, IfErr, ◌≢◌, OnOk, OnErr, IfSome, unwrap_or, slice_get};
ghost use Rattle.std.specs.Option.{option_copied, option_map, ForSome};
ghost use Rattle.std.specs.List.{flat_map, position};
ghost use Rattle.section_text.specs.Words.{lines_of, is_word_at, is_line_feed, bytes_after_last_line_feed, words_of, number_at, names_beside_arrow, if_one_word, number_after_keyword, name_after_keyword, words_of_three, words_of_four, words_of_five};
ghost use Rattle.section_text.specs.declared.code.RefusalCode.TheVariants.{TextCut};
ghost use Rattle.section_text.specs.declared.fault.ReadFault.TheVariants.{Memory};
ghost use Rattle.section_text.specs.Listed.{list_of_three_words, list_of_four_words, list_of_five_words};
ghost use Rattle.section_text.specs.Faults.{refusal};
ghost use Rattle.section_text.specs.Section.{with_line_feed};
ghost use Rattle.section_text.specs.Limits.{begins_with_line, limits_line_bytes, limits_line_count, limits_of, own_text_limit};
ghost use Rattle.section_text.specs.Feeds.{FeedView, ahead, feed_after_lines, IsLine, line_bytes, TakesLine, FindsNoNextLine};
ghost use Rattle.std.specs.Str.{bytes_eq};
ghost use Rattle.lemmas.specs.Bounds.{max_text};

use crate::code::RefusalCode;
use crate::fault::{PushFault, ReadFault, Refusal};
use crate::limits::Limits;
use crate::name::Name;
use crate::names::Names;
use crate::number::read_number;
use crate::seed::Seed;
use crate::words::{
    FiveWords, FourWords, ThreeWords, count_words_in, is_one_word, name_of_two_word_line,
    names_beside_arrow_in, next_word, number_of_two_word_line, split_five_words, split_four_words,
    split_three_words, word_in,
};
use memchr::memchr;
use std::alloc::Global;
use std::marker::Model;

/// A text that comes in pieces and is then taken line by line.
///
/// It takes pieces until it is closed, and readers take its lines after that. The text is the pieces joined, wherever
/// it was cut. It has at most 16,777,216 bytes, or 268,435,456 if it begins with the line `limits 2`.
///
/// A line ends at a line feed, which is not part of it. Its words are the parts between spaces: two spaces in a row,
/// and a space at an end, make an empty word. After a reader has met a fault, every later one answers that same fault,
/// and the text stays as it is.
#[derive(Drop)]
pub struct Feed {
    bytes: Vec<u8>,
    at: usize,
    lines: u32,
    is_closed: bool,
    stop: Option<ReadFault>,
    seed: Seed,
}

impl Model for Feed {
    ghost use Rattle.section_text.specs.Feeds.{FeedView};

    ghost Value = { FeedView };

    ghost use Rattle.section_text.specs.FeedView.{AreFeedFields, feed_view};

    ghost view = { feed_view };

    ghost invariant = { AreFeedFields };
}

/// A line that a feed gave: its number in the stream, counted from 1, and its place in the text, in bytes.
///
/// The feed that gave a line reads it.
#[derive(Clone, Copy, Debug)]
pub struct Line {
    number: u32,
    from: usize,
    to: usize,
}

// How many bytes stand between a place and the next line feed.
fn line_length(bytes: &[u8], at: usize) -> Option<usize>
    requires { at ≤ length bytes.now }
    ensures { result ≡ position is_line_feed (drop at bytes.now) }
{
    first_line_feed_place(&bytes[at..])
}

#[tactic(auto, using(crate::proofs::LineFeeds::first_is_position))]
fn first_line_feed_place(bytes: &[u8]) -> Option<usize>
    ensures { result ≡ position is_line_feed bytes.now }
{
    memchr(b'\n', bytes)
}

// The byte at a place of two joined pieces.
fn joined_byte(first: &[u8], second: &[u8], place: usize) -> Option<u8>
    ensures { result ≡ slice_get (first.now ++ second.now) place }
{
    if place < first.len() {
        return Some(first[place]);
    }
    second.get(place - first.len()).copied()
}

// Whether two joined pieces begin with the line that chooses the second limits.
#[tactic(auto, using(crate::proofs::FrontBytes::all_bytes, crate::proofs::FrontBytes::other_byte, crate::proofs::FrontBytes::same_more))]
fn begins_with_front(first: &[u8], second: &[u8]) -> bool
    ensures { result ≡ bytes_eq (take 9 (first.now ++ second.now)) limits_line_bytes }
{
    let front = b"limits 2\n";
    for place in 0..9 {
        match joined_byte(first, second, place) {
            Some(byte) => {
                if byte != front[place] {
                    return false;
                }
            }
            None => return false,
        }
    }
    true
}

impl Feed {
    /// Creates the empty text, not closed. It takes no memory until the first piece.
    ///
    /// Tables of its names hash by a seed that everybody knows. For a text by somebody else use `seeded`.
    pub fn new(alloc: Global) -> Feed
        ensures { result ≡ record { text = []; taken = 0; closed = false; stop = None } }
    {
        Feed::seeded(alloc, Seed::known())
    }

    /// Creates the empty text, as `new` does. Tables of its names hash by the seed, which changes no result.
    pub fn seeded(alloc: Global, seed: Seed) -> Feed
        ensures { result ≡ record { text = []; taken = 0; closed = false; stop = None } }
    {
        Feed {
            bytes: Vec::new(alloc),
            at: 0,
            lines: 0,
            is_closed: false,
            stop: None,
            seed,
        }
    }

    /// Adds a piece of any length at the end of the text, before the feed is closed.
    ///
    /// # Errors
    ///
    /// `TooLong` if the text would have more than 16,777,216 bytes, or 268,435,456 if it begins with the line
    /// `limits 2`, and `Memory` if there is no memory for it. Both change nothing.
    pub fn push(&mut self, piece: &[u8]) -> Result<(), PushFault>
        requires { self.old.closed ≡ false }
        ensures ok { OnOk result (self.new
            ≡ record self.old { text = self.old.text ++ piece.now }) }
        ensures err { OnErr result (self.new ≡ self.old) }
        ensures too_long { (result ≡ Err PushFault.TooLong)
            ↔ (own_text_limit (self.old.text ++ piece.now)
            < length self.old.text + length piece.now) }
        ensures text_within_limit { length self.new.text ≤ own_text_limit self.new.text }
        ensures text_within_all_limits { length self.new.text ≤ max_text }
    {
        let limits = if begins_with_front(&self.bytes, piece) {
            Limits::Second
        } else {
            Limits::First
        };
        let limit = limits.most_bytes();
        if self.bytes.len() > limit || piece.len() > limit - self.bytes.len() {
            return Err(PushFault::TooLong);
        }
        match self.bytes.extend_from_slice(piece) {
            Ok(()) => Ok(()),
            Err(_) => Err(PushFault::Memory),
        }
    }

    /// Ends the text: no piece comes after this, and readers may begin.
    pub fn close(&mut self)
        ensures { self.new ≡ record self.old { closed = true } }
    {
        self.is_closed = true;
    }

    /// Returns whether the text has ended. Pieces come before that, and readers after it.
    pub fn closed(&self) -> bool
        ensures { result ≡ self.now.closed }
    {
        self.is_closed
    }

    /// Returns the fault that a reader met, if there is one. The feed keeps it.
    pub fn fault(&self) -> Option<ReadFault>
        ensures { result ≡ self.now.stop }
    {
        self.stop
    }

    /// Returns the seed for tables of names that the text contains.
    pub fn seed(&self) -> Seed {
        self.seed
    }

    /// Takes the next line that a line feed ends.
    ///
    /// # Errors
    ///
    /// Code 12 at the line after those taken, if no such line is left. The feed keeps its fault, and a feed that has
    /// one answers it.
    pub fn take(&mut self) -> Result<Line, ReadFault>
        requires { self.old.closed ≡ true }
        ensures earlier_stop_returned { ForSome self.old.stop
            (λ fault. (result ≡ Err fault) × (self.new ≡ self.old)) }
        ensures next { self.old.stop ≡ None → IfOk result (TakesLine self.old self.new) }
        ensures runs_out { self.old.stop ≡ None → IfErr result (FindsNoNextLine self.old self.new) }
    {
        if let Some(fault) = self.stop {
            return Err(fault);
        }
        match line_length(&self.bytes, self.at) {
            Some(len) => {
                let line = Line {
                    number: self.lines + 1,
                    from: self.at,
                    to: self.at + len,
                };
                self.at += len + 1;
                self.lines += 1;
                Ok(line)
            }
            None => {
                let fault = ReadFault::Refused(Refusal {
                    line: self.lines + 1,
                    code: RefusalCode::TextCut.number(),
                });
                self.stop = Some(fault);
                Err(fault)
            }
        }
    }

    // Whether the next line is this one.
    #[tactic(auto, using(crate::proofs::Lines::first_line, crate::proofs::Lines::no_line, crate::proofs::Lines::next_ahead))]
    fn is_next_line(&self, line: &[u8]) -> bool
        ensures { result ≡ begins_with_line line.now (ahead self.now) }
    {
        match line_length(&self.bytes, self.at) {
            Some(len) => &self.bytes[self.at..self.at + len] == line,
            None => false,
        }
    }

    /// Takes the line `limits 2` if it comes next. Returns the limits of the text.
    pub fn take_limits(&mut self) -> Limits
        requires closed { self.old.closed ≡ true }
        requires works { self.old.stop ≡ None }
        ensures limits { result ≡ limits_of (ahead self.old) }
        ensures feed { self.new ≡ feed_after_lines (limits_line_count result) self.old }
    {
        if !self.is_next_line(b"limits 2") {
            return Limits::First;
        }
        match self.take() {
            Ok(_) => Limits::Second,
            Err(_) => unreachable!(),
        }
    }

    /// Returns the lines that were taken, each with its line feed.
    pub fn taken_text(&self) -> &[u8]
        ensures { result.now
            ≡ flat_map with_line_feed (take self.now.taken (lines_of self.now.text)) }
    {
        &self.bytes[..self.at]
    }

    /// Returns the text behind the lines that were taken.
    pub fn untaken_text(&self) -> &[u8]
        ensures { flat_map with_line_feed (take self.now.taken (lines_of self.now.text))
            ++ result.now ≡ self.now.text }
    {
        &self.bytes[self.at..]
    }

    /// Returns the bytes of a line, without its line feed.
    pub fn line(&self, line: &Line) -> &[u8]
        requires { IsLine self.now line.now }
        ensures { result.now ≡ line_bytes self.now line.now }
    {
        &self.bytes[line.from..line.to]
    }

    /// Returns how many words a line has: one more than its spaces.
    pub fn words(&self, line: &Line) -> usize
        requires { IsLine self.now line.now }
        ensures { result ≡ length (words_of (line_bytes self.now line.now)) }
    {
        count_words_in(self.line(line))
    }

    /// Returns a word of a line by its index from 0, or `None` past the last one.
    pub fn word(&self, line: &Line, index: usize) -> Option<&[u8]>
        requires { IsLine self.now line.now }
        ensures { option_copied result ≡ slice_get (words_of (line_bytes self.now line.now)) index }
    {
        word_in(self.line(line), index)
    }

    /// Returns the first word of a line.
    pub fn first_word(&self, line: &Line) -> &[u8]
        requires { IsLine self.now line.now }
        ensures { slice_get (words_of (line_bytes self.now line.now)) 0 ≡ Some result.now }
    {
        let (word, _) = next_word(self.line(line));
        word
    }

    /// Returns a word of a line as a number, or `None` for any other word and past the last one.
    ///
    /// A number is `0`, or at most nine digits of which the first is not `0`.
    #[tactic(auto, unfolding(crate::specs::Words::number_at))]
    pub fn number(&self, line: &Line, index: usize) -> Option<u32>
        requires { IsLine self.now line.now }
        ensures number { result ≡ number_at (words_of (line_bytes self.now line.now)) index }
        ensures below_a_billion { IfSome result (λ n. n < 10 ^ 9) }
    {
        read_number(self.word(line, index)?)
    }

    /// Returns `said` if a line has one word, and `None` for any other line.
    #[tactic(auto, unfolding(crate::specs::Words::if_one_word))]
    pub fn if_one_word<A: Drop>(&self, line: &Line, said: A) -> Option<A>
        requires { IsLine self.now line.now }
        ensures { result ≡ if_one_word (words_of (line_bytes self.now line.now)) said }
    {
        if is_one_word(self.line(line)) {
            Some(said)
        } else {
            None
        }
    }

    /// Returns the words of a line of three, or `None` for any other line. It passes over the line once.
    pub fn three_words(&self, line: &Line) -> Option<ThreeWords<'_>>
        requires { IsLine self.now line.now }
        ensures { option_map list_of_three_words result
            ≡ words_of_three (words_of (line_bytes self.now line.now)) }
    {
        split_three_words(self.line(line))
    }

    /// Returns the words of a line of four, or `None` for any other line. It passes over the line once.
    pub fn four_words(&self, line: &Line) -> Option<FourWords<'_>>
        requires { IsLine self.now line.now }
        ensures { option_map list_of_four_words result
            ≡ words_of_four (words_of (line_bytes self.now line.now)) }
    {
        split_four_words(self.line(line))
    }

    /// Returns the words of a line of five, or `None` for any other line. It passes over the line once.
    pub fn five_words(&self, line: &Line) -> Option<FiveWords<'_>>
        requires { IsLine self.now line.now }
        ensures { option_map list_of_five_words result
            ≡ words_of_five (words_of (line_bytes self.now line.now)) }
    {
        split_five_words(self.line(line))
    }

    /// Returns the number of a line of two words, a keyword and a number, or `None` for any other line.
    pub fn number_after_keyword(&self, line: &Line) -> Option<u32>
        requires { IsLine self.now line.now }
        ensures number { result ≡ number_after_keyword (words_of (line_bytes self.now line.now)) }
        ensures below_a_billion { IfSome result (λ n. n < 10 ^ 9) }
    {
        number_of_two_word_line(self.line(line))
    }

    /// Returns the name of a line of two words, a keyword and a name, or `None` for any other line.
    pub fn name_after_keyword(&self, line: &Line) -> Option<Name>
        requires { IsLine self.now line.now }
        ensures { result ≡ name_after_keyword (words_of (line_bytes self.now line.now)) }
    {
        name_of_two_word_line(self.line(line))
    }

    /// Returns the names on both sides of an arrow: `before` from index `from` on, and `after` to the line's end.
    ///
    /// It returns `None` if one of these words is no name, or is not there, if no `->` is between, or if the line has
    /// more words. It passes over the line once.
    pub fn names_beside_arrow(
        &self,
        line: &Line,
        from: usize,
        before: usize,
        after: usize,
    ) -> Option<(Names, Names)>
        requires line { IsLine self.now line.now }
        requires before { before ≤ 4 }
        requires after { after ≤ 4 }
        ensures { result
            ≡ names_beside_arrow (words_of (line_bytes self.now line.now)) from before after }
    {
        names_beside_arrow_in(self.line(line), from, before, after)
    }

    /// Returns whether a word of a line is `expected`. It is false past the last word.
    #[tactic(auto, unfolding(crate::specs::Words::is_word_at))]
    pub fn is(&self, line: &Line, index: usize, expected: &[u8]) -> bool
        requires { IsLine self.now line.now }
        ensures { result ≡ is_word_at (words_of (line_bytes self.now line.now)) index expected.now }
    {
        match self.word(line, index) {
            Some(word) => word == expected,
            None => false,
        }
    }

    /// Refuses a line with a code. The feed keeps this refusal, but a feed that has a fault keeps and answers that one.
    pub fn refuse(&mut self, line: &Line, code: RefusalCode) -> ReadFault
        ensures answer { result ≡ unwrap_or self.old.stop (refusal line.now.number code) }
        ensures stop_recorded { self.new ≡ record self.old { stop = Some result } }
    {
        let fault = self.stop.unwrap_or(ReadFault::Refused(Refusal {
            line: line.number,
            code: code.number(),
        }));
        self.stop = Some(fault);
        fault
    }

    /// Records that a reader is out of memory. The feed keeps this fault, but a feed that has one keeps and answers
    /// that one.
    pub fn starve(&mut self) -> ReadFault
        ensures answer { result ≡ unwrap_or self.old.stop Memory }
        ensures stop_recorded { self.new ≡ record self.old { stop = Some result } }
    {
        let fault = self.stop.unwrap_or(ReadFault::Memory);
        self.stop = Some(fault);
        fault
    }

    /// Checks that nothing follows the lines that were taken.
    ///
    /// # Errors
    ///
    /// Code 12 at the line after those taken, if a line or bytes without a line feed are left. The feed keeps its
    /// fault, and a feed that has one answers it.
    #[tactic(auto, using(crate::proofs::Lines::nothing_left, crate::proofs::Lines::something_left))]
    pub fn finish(&mut self) -> Result<(), ReadFault>
        requires { self.old.closed ≡ true }
        ensures earlier_stop_returned { ForSome self.old.stop
            (λ fault. (result ≡ Err fault) × (self.new ≡ self.old)) }
        ensures ok { self.old.stop ≡ None →
            OnOk result ((ahead self.old ≡ []) × (bytes_after_last_line_feed self.old.text ≡ [])
            × (self.new ≡ self.old)) }
        ensures more_is_left { self.old.stop ≡ None →
            OnErr result (ahead self.old ≡ [] → bytes_after_last_line_feed self.old.text ≢ []) }
        ensures fault { self.old.stop ≡ None →
            IfErr result (λ fault. (fault ≡ refusal (self.old.taken + 1) TextCut)
            × (self.new ≡ record self.old { stop = Some fault })) }
    {
        if let Some(first) = self.stop {
            return Err(first);
        }
        if self.at == self.bytes.len() {
            return Ok(());
        }
        let fault = ReadFault::Refused(Refusal {
            line: self.lines + 1,
            code: RefusalCode::TextCut.number(),
        });
        self.stop = Some(fault);
        Err(fault)
    }
}
