//! Lines, words, numbers and names. The expected results were worked out by hand from the format.
ghost use Rattle.std.specs.Prelude.{◌≡◌, true, false};
ghost use Rattle.section_text.specs.Feeds.{IsLine};

use section_text::{
    Feed, Line, Name, PushFault, ReadFault, Refusal, Seed, print_number, print_word, read_number,
};
use std::alloc::Global;
use std::hash::{BuildHasher, Hasher};
use std::io;
use std::process::Abort;
use std::random::RandomSource;

/// Adds a piece: at the second time, if no memory was found at the first.
fn add(rt: &impl Abort, feed: &mut Feed, piece: &[u8])
    requires { feed.old.closed ≡ false }
    ensures { feed.new.closed ≡ false }
{
    let pushed = feed.push(piece);
    if pushed.is_ok() {
        return;
    }
    assert!(rt; pushed == Err(PushFault::Memory), "refused");
    assert!(rt; feed.push(piece).is_ok(), "no memory at the second try");
}

/// Returns a text that has ended, in pieces of three bytes.
fn closed_feed_in_pieces(rt: &impl Abort, alloc: Global, text: &[u8]) -> Feed
    ensures { result.closed ≡ true }
{
    let mut feed = Feed::new(alloc);
    for piece in text.chunks(3) {
        assert!(rt; !feed.closed());
        add(rt, &mut feed, piece);
    }
    feed.close();
    feed
}

fn has_words(feed: &Feed, line: &Line, words: &[&str]) -> bool
    requires { IsLine feed.now line.now }
{
    for (index, word) in words.iter().enumerate() {
        if !feed.is(line, index, word.as_bytes()) {
            return false;
        }
    }
    feed.words(line) == words.len()
}

/// Takes a line, and says whether it has these words.
fn takes_line_of_words(feed: &mut Feed, words: &[&str]) -> bool {
    if !feed.closed() || feed.fault().is_some() {
        return false;
    }
    match feed.take() {
        Ok(line) => has_words(feed, &line, words),
        Err(_) => false,
    }
}

#[test]
fn feed_splits_lines_into_words(rt: HostRuntime) {
    let text = b"list 3\nitem 10  x\n\n end\nlast \nthe rest";
    let lines: [&[&str]; 5] = [
        &["list", "3"],
        &["item", "10", "", "x"],
        &[""],
        &["", "end"],
        &["last", ""],
    ];
    let mut feed = closed_feed_in_pieces(&rt, rt.alloc(), text);
    for words in lines {
        assert!(rt; takes_line_of_words(&mut feed, words), "{words:?}");
    }
    assert!(rt; feed.closed());
    let fault = feed.take().err();
    assert!(rt; fault == Some(ReadFault::Refused(Refusal { line: 6, code: 12 })));
}

fn is_name(word: &[u8]) -> bool {
    match Name::of(word) {
        Some(name) => name.bytes() == word,
        None => false,
    }
}

fn is_number_and_name(word: &[u8], number: Option<u32>, named: bool) -> bool {
    read_number(word) == number && is_name(word) == named
}

/// Words, the numbers that they are, and whether they are names.
const WORDS: [(&str, Option<u32>, bool); 23] = [
    ("0", Some(0), false),
    ("10", Some(10), false),
    ("123456789", Some(123_456_789), false),
    ("999999999", Some(999_999_999), false),
    ("00", None, false),
    ("01", None, false),
    ("1000000000", None, false),
    ("4294967296", None, false),
    ("", None, false),
    ("-1", None, false),
    ("1a", None, false),
    ("1\t", None, false),
    ("a", None, true),
    ("z_0", None, true),
    ("abcdefghijklmnopqrstuvwxyz012345", None, true),
    ("abcdefghijklmnopqrstuvwxyz0123456", None, false),
    ("A", None, false),
    ("aB", None, false),
    ("0a", None, false),
    ("_a", None, false),
    ("a-b", None, false),
    ("a b", None, false),
    ("ä", None, false),
];

#[test]
fn numbers_and_names(rt: HostRuntime) {
    for (word, number, named) in WORDS {
        assert!(rt;
            is_number_and_name(word.as_bytes(), number, named),
            "{word}"
        );
    }
}

#[test]
fn words_are_printed_after_space(rt: HostRuntime) {
    let mut out = Vec::new(rt.alloc());
    assert!(rt; print_word(&mut out, b"cut").is_ok() && print_word(&mut out, b"").is_ok());
    for number in [0, 4_294_967_295] {
        assert!(rt; print_number(&mut out, number).is_ok());
    }
    assert!(rt; out.as_slice() == b" cut  0 4294967295".as_slice());
}

/// Random bytes that are all the same.
struct SameBytes(u8);

impl RandomSource for SameBytes {
    fn fill_bytes(&self, buf: &mut [u8]) -> io::Result<()> {
        for byte in buf {
            *byte = self.0;
        }
        Ok(())
    }
}

/// No random bytes.
struct NoRandomBytes;

impl RandomSource for NoRandomBytes {
    fn fill_bytes(&self, _: &mut [u8]) -> io::Result<()> {
        Err(io::Error::from(io::ErrorKind::Unsupported))
    }
}

/// Returns the hash of a byte by the seed.
fn hash_of_p_by_seed(seed: Seed) -> u64 {
    let mut hasher = seed.build_hasher();
    hasher.write(b"p");
    hasher.finish()
}

#[test]
fn feed_keeps_drawn_seed(rt: HostRuntime) {
    let (one, two) = (Seed::drawn(&SameBytes(1)), Seed::drawn(&SameBytes(2)));
    assert!(rt;
        hash_of_p_by_seed(one) != hash_of_p_by_seed(two),
        "the bytes change nothing"
    );
    assert!(rt; hash_of_p_by_seed(one) != hash_of_p_by_seed(Seed::known()));
    assert!(rt; hash_of_p_by_seed(Seed::drawn(&NoRandomBytes)) == hash_of_p_by_seed(Seed::known()));
    let feed = Feed::seeded(rt.alloc(), one);
    assert!(rt;
        hash_of_p_by_seed(feed.seed()) == hash_of_p_by_seed(one),
        "another seed"
    );
    assert!(rt;
        hash_of_p_by_seed(Feed::new(rt.alloc()).seed()) == hash_of_p_by_seed(Seed::known())
    );
}
