//! The seeds of tables come from the source of random bytes, for each text again.

use check_main::{
    CheckFault, Outcome, Over, migrate_stream, modules_stream, run_stream, value_stream,
};
use section_text::{Feed, Name, Seed};
use std::alloc::Global;
use std::hash::BuildHasher;
use std::io;
use std::random::RandomSource;
use std::sync::atomic::{AtomicU64, Ordering};

/// Gives one byte again and again, and counts how many it gave.
#[derive(Drop)]
struct RepeatedByteSource {
    byte: u8,
    given: AtomicU64,
}

impl RepeatedByteSource {
    fn new(byte: u8) -> RepeatedByteSource {
        RepeatedByteSource {
            byte,
            given: AtomicU64::new(0),
        }
    }
}

impl RandomSource for RepeatedByteSource {
    fn fill_bytes(&self, buf: &mut [u8]) -> io::Result<()> {
        self.given.fetch_add(buf.len() as u64, Ordering::SeqCst);
        buf.fill(self.byte);
        Ok(())
    }
}

/// Returns the hash of a name by a seed.
fn hash_of_name(seed: Seed) -> Option<u64> {
    let name = Name::of(b"a")?;
    Some(seed.hash_one(name))
}

#[test]
fn drawn_seeds_differ(rt: HostRuntime) {
    let known = hash_of_name(Seed::known());
    let zero = hash_of_name(Seed::drawn(&RepeatedByteSource::new(0)));
    let first = hash_of_name(Seed::drawn(&RepeatedByteSource::new(1)));
    let second = hash_of_name(Seed::drawn(&RepeatedByteSource::new(2)));
    assert!(rt; known.is_some() && zero == known);
    assert!(rt; first != known && second != known && first != second);
}

#[test]
fn feed_keeps_its_seed(rt: HostRuntime) {
    let source = RepeatedByteSource::new(3);
    let feed = Feed::seeded(rt.alloc(), Seed::drawn(&source));
    let own = hash_of_name(feed.seed());
    assert!(rt; own == hash_of_name(Seed::drawn(&source)) && own != hash_of_name(Seed::known()));
    assert!(rt; hash_of_name(Feed::new(rt.alloc()).seed()) == hash_of_name(Seed::known()));
}

/// Answers an empty text by the command of this number.
fn answer_empty_text(
    source: &RepeatedByteSource,
    alloc: Global,
    command: u8,
) -> Result<Outcome, CheckFault> {
    let empty: &[u8] = b"";
    let (mut reader, mut writer) = (Over::new(empty), Over::new(Vec::new(alloc)));
    match command {
        0 => run_stream(source, alloc, &mut reader, &mut writer),
        1 => value_stream(source, alloc, &mut reader, &mut writer),
        2 => modules_stream(source, alloc, &mut reader, &mut writer),
        _ => migrate_stream(source, alloc, &mut reader, &mut writer),
    }
}

#[test]
fn each_text_draws_a_seed(rt: HostRuntime) {
    for command in 0..4u8 {
        let source = RepeatedByteSource::new(5);
        let answered = answer_empty_text(&source, rt.alloc(), command);
        assert!(rt; answered == Ok(Outcome::Refused), "{command}");
        assert!(rt; source.given.load(Ordering::SeqCst) == 16, "{command}");
    }
}
