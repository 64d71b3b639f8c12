//! Reads a bundle, and answers what is asked of it.
ghost use Rattle.std.specs.Prelude.{◌≡◌, true, None, IfOk};
ghost use Rattle.section_text.specs.Words.{lines_of};
ghost use Rattle.answers.specs.Answers.{AnswersOrRefuses as AnsweredAs};
ghost use Rattle.answers.specs.BundleText.{bundle_of, bundle_with_limits};
ghost use Rattle.section_text.specs.Limits.{limits_line_count, limits_of};
ghost use Rattle.answers.specs.MigrateText.{IsMigrationOf};
ghost use Rattle.answers.specs.ModulesText.{IsModulesAnswerOf};
ghost use Rattle.answers.specs.Questions.{AnswersQuestion};

use crate::design::read_design;
use crate::migration::migrate;
use crate::modules::list_modules;
use crate::outcome::Answered;
use crate::refusing::refusal_answer;
use section_text::{Feed, Limits};
use std::alloc::{AllocError, Global};

/// A question about a bundle.
#[derive(Clone, Copy)]
pub(crate) enum Question {
    /// The modules of its certificate.
    Modules,
    /// The bundle in certificate version 2.
    Migration,
}

/// Reads a bundle up to the end of the text, and lists its modules. The text is read whole.
pub fn modules_text(alloc: Global, text: &mut Feed) -> Result<Answered, AllocError>
    requires text_closed { text.old.closed ≡ true }
    requires unread { text.old.taken ≡ 0 }
    requires feed_not_stopped { text.old.stop ≡ None }
    ensures { IfOk result (λ answered. IsModulesAnswerOf text.old.text answered.output.items
        answered.outcome) }
{
    answer_bundle_question(alloc, text, Question::Modules)
}

/// Reads a bundle up to the end of the text, and writes it in certificate version 2, without halo lines. The text is
/// read whole.
pub fn migrate_text(alloc: Global, text: &mut Feed) -> Result<Answered, AllocError>
    requires text_closed { text.old.closed ≡ true }
    requires unread { text.old.taken ≡ 0 }
    requires feed_not_stopped { text.old.stop ≡ None }
    ensures { IfOk result (λ answered. IsMigrationOf text.old.text answered.output.items
        answered.outcome) }
{
    answer_bundle_question(alloc, text, Question::Migration)
}

// Reads a bundle up to the end of the text, and answers the question.
#[tactic(auto, unfolding(crate::specs::BundleText::bundle_of))]
fn answer_bundle_question(
    alloc: Global,
    text: &mut Feed,
    question: Question,
) -> Result<Answered, AllocError>
    requires text_closed { text.old.closed ≡ true }
    requires unread { text.old.taken ≡ 0 }
    requires feed_not_stopped { text.old.stop ≡ None }
    ensures { IfOk result (λ answered. AnsweredAs
        (AnswersQuestion (limits_of (lines_of text.old.text)) question) (bundle_of text.old.text)
        answered.output.items answered.outcome) }
{
    let limits = text.take_limits();
    answer_after_front(alloc, text, limits, question)
}

// Reads a bundle with the limits of its text up to the end of it, of which the lines before the first section were
// taken, and answers the question.
fn answer_after_front(
    alloc: Global,
    text: &mut Feed,
    limits: Limits,
    question: Question,
) -> Result<Answered, AllocError>
    requires text_closed { text.old.closed ≡ true }
    requires own_limits { limits ≡ limits_of (lines_of text.old.text) }
    requires front_taken { text.old.taken ≡ limits_line_count limits }
    requires feed_not_stopped { text.old.stop ≡ None }
    ensures { IfOk result (λ answered. AnsweredAs (AnswersQuestion limits question)
        (bundle_with_limits limits text.old.text) answered.output.items answered.outcome) }
{
    let design = match read_design(alloc, text, limits) {
        Err(fault) => return refusal_answer(alloc, fault),
        Ok(design) => design,
    };
    let from = text.taken_text().len();
    let cert = match design.read_certificate(alloc, text, limits) {
        Err(fault) => return refusal_answer(alloc, fault),
        Ok(cert) => cert,
    };
    if let Err(fault) = text.finish() {
        return refusal_answer(alloc, fault);
    }
    match question {
        Question::Modules => list_modules(alloc, &cert),
        Question::Migration => {
            // So that the output can use their memory.
            drop(cert);
            drop(design);
            migrate(alloc, text.taken_text(), from)
        }
    }
}
