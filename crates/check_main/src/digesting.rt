//! Reads a certificate, while a thread takes its digest.
ghost use Rattle.std.specs.Prelude.{◌≡◌, ℕ, List, true, IfOk, IfSome};
ghost use Rattle.sha2.specs.Sha256.{sha256};
ghost use Rattle.section_text.specs.Section.{Reads};
ghost use Rattle.certificate.specs.Grammars.{certificate_grammar, certificate_section};
ghost use Rattle.certificate_lines.specs.Settings.{setting_of};
ghost use Rattle.check_main.specs.Preparing.{FollowsTakenLines};

use answers::Design;
use certificate::Cert;
use section_text::{Feed, Limits, ReadFault};
use sha2::{Digest, Sha256};
use std::alloc::Global;
use std::thread::{Threads, join_mut};

// The fewest bytes whose digest is worth a thread of its own.
const MIN_BYTES_FOR_THREAD: usize = 16_384;

// A copy of the rest of the text, if there are several workers, the rest is long, and there is memory.
fn copy_rest_if_worthwhile(alloc: Global, feed: &Feed, workers: usize) -> Option<Vec<u8>>
    ensures { IfSome result (λ copy. FollowsTakenLines feed.now copy.items) }
{
    let rest = feed.untaken_text();
    if workers == 1 || rest.len() < MIN_BYTES_FOR_THREAD {
        return None;
    }
    let mut copy = Vec::new(alloc);
    match copy.extend_from_slice(rest) {
        Ok(()) => Some(copy),
        Err(_) => None,
    }
}

/// Reads a certificate. If there are several workers, a thread takes the digest of the rest of the text meanwhile.
///
/// The thread has a copy of that text. If the text is short, or there is no memory for the copy, no digest is taken.
pub(crate) fn read_certificate_and_digest<'a, R: Threads>(
    rt: &R,
    alloc: Global,
    feed: &mut Feed,
    limits: Limits,
    design: &'a Design,
    workers: usize,
) -> (Option<[u8; 32]>, Result<Cert<'a>, ReadFault>)
    requires { feed.old.closed ≡ true }
    ensures digest { IfSome result.0 (λ digest. (rest : List ℕ) → FollowsTakenLines feed.old rest →
        digest ≡ sha256 rest) }
    ensures reads { Reads (certificate_grammar limits
        (setting_of design.now.circuit design.now.layout)) certificate_section feed.old
        feed.new result.1 }
    ensures circuit { IfOk result.1 (λ cert. cert.circuit ≡ design.now.circuit) }
    ensures layout { IfOk result.1 (λ cert. cert.layout ≡ design.now.layout) }
{
    let Some(copy) = copy_rest_if_worthwhile(alloc, feed, workers) else {
        return (None, design.read_certificate(alloc, feed, limits));
    };
    let (digest, read) = read_certificate_while_digesting(rt, alloc, feed, limits, design, &copy);
    (Some(digest), read)
}

// The digest of the bytes, by a thread of its own, and the certificate.
fn read_certificate_while_digesting<'a, R: Threads>(
    rt: &R,
    alloc: Global,
    feed: &mut Feed,
    limits: Limits,
    design: &'a Design,
    bytes: &[u8],
) -> ([u8; 32], Result<Cert<'a>, ReadFault>)
    requires { feed.old.closed ≡ true }
    ensures digest { result.0 ≡ sha256 bytes.now }
    ensures reads { Reads (certificate_grammar limits
        (setting_of design.now.circuit design.now.layout)) certificate_section feed.old
        feed.new result.1 }
    ensures circuit { IfOk result.1 (λ cert. cert.circuit ≡ design.now.circuit) }
    ensures layout { IfOk result.1 (λ cert. cert.layout ≡ design.now.layout) }
{
    join_mut(
        rt,
        &mut || -> [u8; 32]
            ensures { result ≡ sha256 bytes.entry.now }
        { Sha256::digest(bytes) },
        &mut || design.read_certificate(alloc, feed, limits),
    )
}
