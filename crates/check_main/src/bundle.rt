//! Reads a bundle, and answers with its report.
ghost use Rattle.std.specs.Prelude.{◌≡◌, ◌<◌, ◌≤◌, ◌↔◌, true, None, IfOk};
ghost use Rattle.answers.specs.Answers.{AnswersOrRefuses};
ghost use Rattle.answers.specs.BundleText.{bundle_with_limits};
ghost use Rattle.answers.specs.CheckText.{IsReportOf, SaysReport};
ghost use Rattle.section_text.specs.Limits.{limits_line_count};
ghost use Rattle.meaning.specs.Headline.{IsRight};
ghost use Rattle.meaning.specs.Streams.{FourthLineSaysYes};
ghost use Rattle.headline.specs.Stops.{HasRightStops};
ghost use Rattle.headline.specs.Plain.{IsWrongIfPlain};
ghost use Rattle.headline.specs.ReportLines.{LinesHaveMeaning};
ghost use Rattle.headline.specs.RightInFull.{IsRightInFull};
ghost use Rattle.headline.specs.SmallDesigns.{IsNoSmallDesignText};

use crate::check::report_on;
use crate::digesting::read_certificate_and_digest;
use crate::preparing::prepare;
use answers::{Answered, Outcome, read_design, refusal_answer};
use certificate::laws::text_round_trips;
use job_pool::Gate;
use section_text::{Feed, Limits};
use std::alloc::{AllocError, Global};
use std::sync::Wait;
use std::thread::Threads;

/// Checks a bundle whose text is in memory, and returns the report.
///
/// The text is all that the feed took before it was closed. No line of it is taken yet. 1 to 64 workers run the modules
/// of its certificate. The answer is the same for every number of workers, every gate and every order in which they
/// end.
///
/// If the outcome is `Yes`,
///
/// - the text begins with a circuit and a layout, and the whole layout computes the circuit
///   (`meaning/specs/Headline.antt`);
/// - it goes on with a certificate whose stops hold on the whole layout (`headline/specs/Stops.antt`);
/// - the circuit has one valuation for all values of its inputs;
/// - no cell of the rim is live at an odd time below the steps;
/// - each line of the design is as the grammar asks (`headline/specs/RightInFull.antt` has all of this).
///
/// If it is `No`, and the certificate is one plain module, the whole rectangle, the text is wrong
/// (`headline/specs/Plain.antt`). `headline/specs/ReportLines.antt` says what the lines of the report mean. The plain
/// text of a small design is never `Refused` (`headline/specs/SmallDesigns.antt`).
///
/// # Errors
///
/// Out of memory. Then there is no answer.
pub fn check_text<G: Gate + Sync, R: Threads + Wait + Sync>(
    rt: &R,
    alloc: Global,
    feed: Feed,
    workers: usize,
    gate: &G,
) -> Result<Answered, AllocError>
    requires workers { (0 < workers) × (workers ≤ 64) }
    requires text_closed { feed.closed ≡ true }
    requires unread { feed.taken ≡ 0 }
    requires feed_not_stopped { feed.stop ≡ None }

    // The output is the report on the text, with its outcome. `verdict yes` is its fourth line exactly at a yes.
    ensures reported { IfOk result (λ answered. IsReportOf feed.text answered.output.items
        answered.outcome) }
    ensures fourth_line { IfOk result (λ answered. FourthLineSaysYes answered.output.items
        ↔ (answered.outcome ≡ Outcome.Yes)) }

    // A yes: the layout computes the circuit, and the stops hold. `IsRightInFull` has both, and more.
    ensures right { IfOk result (λ answered. answered.outcome ≡ Outcome.Yes → IsRight feed.text) }
    ensures stops { IfOk result (λ answered. answered.outcome ≡ Outcome.Yes →
        HasRightStops feed.text) }
    ensures in_full { IfOk result (λ answered. answered.outcome ≡ Outcome.Yes →
        IsRightInFull feed.text) }

    // A no: if the certificate is plain, the text is wrong. The lines of the report have a meaning.
    ensures wrong { IfOk result (λ answered. answered.outcome ≡ Outcome.No →
        IsWrongIfPlain feed.text) }
    ensures lines { IfOk result (λ answered. answered.outcome ≡ Outcome.No →
        LinesHaveMeaning feed.text answered.output.items) }

    // A refusal: the text is not the plain text of a small design.
    ensures refused_not_small { IfOk result (λ answered. answered.outcome ≡ Outcome.Refused →
        IsNoSmallDesignText feed.text) }
{
    report_of_text(rt, alloc, feed, workers, gate)
}

// Reads a bundle up to the end of the text, drops the text, and has `workers` workers run the modules.
#[tactic(auto, unfolding(answers::specs::BundleText::bundle_of))]
fn report_of_text<G: Gate + Sync, R: Threads + Wait + Sync>(
    rt: &R,
    alloc: Global,
    feed: Feed,
    workers: usize,
    gate: &G,
) -> Result<Answered, AllocError>
    requires workers { (0 < workers) × (workers ≤ 64) }
    requires text_closed { feed.closed ≡ true }
    requires unread { feed.taken ≡ 0 }
    requires feed_not_stopped { feed.stop ≡ None }
    ensures answered { IfOk result (λ answered. IsReportOf feed.text answered.output.items
        answered.outcome) }
{
    let mut feed = feed;
    let limits = feed.take_limits();
    report_after_front(rt, alloc, feed, limits, workers, gate)
}

// Reads a bundle with these limits, of which the lines before the first section were taken, up to the end of the text,
// drops the text, and has `workers` workers run the modules.
fn report_after_front<G: Gate + Sync, R: Threads + Wait + Sync>(
    rt: &R,
    alloc: Global,
    feed: Feed,
    limits: Limits,
    workers: usize,
    gate: &G,
) -> Result<Answered, AllocError>
    requires workers { (0 < workers) × (workers ≤ 64) }
    requires text_closed { feed.closed ≡ true }
    requires front_taken { feed.taken ≡ limits_line_count limits }
    requires feed_not_stopped { feed.stop ≡ None }
    ensures answered { IfOk result (λ answered. AnswersOrRefuses SaysReport
        (bundle_with_limits limits feed.text) answered.output.items answered.outcome) }
{
    let mut feed = feed;
    let design = match read_design(alloc, &mut feed, limits) {
        Err(fault) => return refusal_answer(alloc, fault),
        Ok(design) => design,
    };
    let from = feed.taken_text().len();
    let (digest, read) = read_certificate_and_digest(
        rt, alloc, &mut feed, limits, &design, workers,
    );
    let cert = match read {
        Err(fault) => return refusal_answer(alloc, fault),
        Ok(cert) => cert,
    };
    if let Err(fault) = feed.finish() {
        return refusal_answer(alloc, fault);
    }
    // A certificate prints as the bytes that it was read from.
    text_round_trips();
    let prepared = prepare(alloc, &cert, feed, from, digest)?;
    report_on(rt, alloc, &cert, prepared, workers, gate)
}
