//! `section_text`.
ghost use Rattle.std.specs.Prelude.{◌≡◌, false, true};

use section_text::{Feed, Name, PortNames, PushFault, ReadFault, Refusal};
use std::alloc::Global;

/// Makes a feed of one piece, closes it, and looks whether anything follows.
pub fn finish_feed(alloc: Global, piece: &[u8]) -> Result<Result<(), ReadFault>, PushFault> {
    let mut feed = Feed::new(alloc);
    feed.push(piece)?;
    feed.close();
    assert_closed(&feed);
    Ok(feed.finish())
}

fn assert_closed(feed: &Feed) -> bool
    requires { feed.now.closed ≡ true }
    ensures { result ≡ true }
{
    feed.closed()
}

/// Returns whether a piece was too long.
pub fn is_too_long(fault: PushFault) -> bool {
    match fault {
        PushFault::TooLong => true,
        PushFault::Memory => false,
    }
}

/// Returns the line and the code of a refusal.
pub fn line_and_code(fault: ReadFault) -> Option<(u32, u8)> {
    match fault {
        ReadFault::Refused(Refusal { line, code }) => Some((line, code)),
        ReadFault::Memory => None,
    }
}

/// Returns how long a name is.
pub fn name_length(word: &[u8]) -> Option<usize> {
    let name = Name::of(word)?;
    Some(name.bytes().len())
}

/// Returns how many names of ports there are.
pub fn port_count(ports: &PortNames) -> Option<(usize, usize)> {
    match ports {
        PortNames::Any => None,
        PortNames::Only { ins, outs } => Some((ins.len(), outs.len())),
    }
}
