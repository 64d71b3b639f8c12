//! Readers of texts. A test that can go on only with all of the result uses `expect`.
ghost use Rattle.std.specs.Prelude.{◌≡◌, true, IfOk};

use certificate::{Job, read_certificate};
use circuit::{Circuit, port_names, read_circuit};
use pattern::{Layout, read_layout};
use section_text::{Feed, PortNames, ReadFault};
use std::alloc::Global;
use std::sync::Arc;

/// Returns a feed of a text that has ended.
///
/// No test has a text of more than 16 MiB, so a piece that is not taken means out of memory.
pub fn closed_feed(alloc: Global, text: &[u8]) -> Result<Feed, ReadFault>
    ensures { IfOk result (λ feed. feed.closed ≡ true) }
{
    let mut feed = Feed::new(alloc);
    match feed.push(text) {
        Ok(()) => {
            feed.close();
            Ok(feed)
        }
        Err(_) => Err(ReadFault::Memory),
    }
}

/// Reads the circuit with which a text begins.
pub fn circuit_of(alloc: Global, text: &str) -> Result<Circuit, ReadFault> {
    let mut feed = closed_feed(alloc, text.as_bytes())?;
    read_circuit(alloc, &mut feed)
}

/// Reads the layout with which a text begins, whatever its ports are named.
pub fn layout_of(alloc: Global, text: &[u8]) -> Result<Layout, ReadFault> {
    let mut feed = closed_feed(alloc, text)?;
    read_layout(alloc, &mut feed, &PortNames::Any)
}

/// Reads the two sections before a certificate.
pub fn read_circuit_and_layout(
    alloc: Global,
    feed: &mut Feed,
) -> Result<(Circuit, Layout), ReadFault>
    requires { feed.old.closed ≡ true }
    ensures { feed.new.closed ≡ true }
{
    let circuit = read_circuit(alloc, feed)?;
    let Ok(ports) = port_names(alloc, &circuit) else {
        return Err(ReadFault::Memory);
    };
    let layout = read_layout(alloc, feed, &ports)?;
    Ok((circuit, layout))
}

/// A certificate's digest and jobs.
#[derive(Drop)]
pub struct Work {
    pub digest: [u8; 32],
    pub jobs: Vec<Arc<Job>>,
}

/// Reads a bundle and returns what must be done for it.
pub fn work_of(alloc: Global, text: &str) -> Result<Work, ReadFault> {
    let mut feed = closed_feed(alloc, text.as_bytes())?;
    let (circuit, layout) = read_circuit_and_layout(alloc, &mut feed)?;
    let certificate = read_certificate(alloc, &mut feed, &circuit, &layout)?;
    match (certificate.digest(alloc), certificate.jobs(alloc)) {
        (Ok(digest), Ok(jobs)) => Ok(Work { digest, jobs }),
        _ => Err(ReadFault::Memory),
    }
}
