//! The work on a certificate before its modules run.
ghost use Rattle.std.specs.Prelude.{◌≡◌, ◌≤◌, IfOk, IfSome, drop, length};
ghost use Rattle.sha2.specs.Sha256.{sha256};
ghost use Rattle.certificate.specs.Text.{certificate_text};
ghost use Rattle.check_main.specs.Preparing.{IsCertificateTextFrom, IsPreparedFor, taken_bytes};

use border_match::{BorderFault, match_borders};
use certificate::Cert;
use core_book::BookState;
use section_text::Feed;
use sha2::{Digest, Sha256};
use std::alloc::{AllocError, Global};

/// A new book of the jobs of a certificate under its digest, and the faults of its borders.
#[derive(Drop)]
pub(crate) struct Prepared {
    pub(crate) state: BookState,
    pub(crate) borders: Vec<Option<BorderFault>>,
}

/// Takes the digest of a certificate, unless it is given, makes the jobs and their book, and matches the borders.
///
/// The text is freed before the jobs are made, so that they and the modules can use its memory. The certificate's
/// section is the last part of the text's lines, from the byte `from` on.
pub(crate) fn prepare(
    alloc: Global,
    cert: &Cert<'_>,
    text: Feed,
    from: usize,
    digest: Option<[u8; 32]>,
) -> Result<Prepared, AllocError>
    requires section { IsCertificateTextFrom text from cert.now }
    requires digest { IfSome digest (λ d. d ≡ sha256 (certificate_text cert.now)) }
    ensures { IfOk result (IsPreparedFor cert.now) }
{
    let digest = match digest {
        Some(digest) => digest,
        None => Sha256::digest(certificate_section_in(&text, from)),
    };
    drop(text);
    let jobs = cert.jobs(alloc)?;
    let borders = match_borders(alloc, cert, &jobs)?;
    let state = BookState::new(alloc, digest, jobs)?;
    Ok(Prepared { state, borders })
}

fn certificate_section_in(text: &Feed, from: usize) -> &[u8]
    requires { from ≤ length (taken_bytes text.now) }
    ensures { result.now ≡ drop from (taken_bytes text.now) }
{
    bytes_from(text.taken_text(), from)
}

fn bytes_from(bytes: &[u8], from: usize) -> &[u8]
    requires { from ≤ length bytes.now }
    ensures { result.now ≡ drop from bytes.now }
{
    &bytes[from..]
}
