//! The part that the commands over two sections have in common.
ghost use Rattle.std.specs.Prelude.{◌≡◌, true, None};
ghost use Rattle.section_text.specs.Feeds.{ahead};
ghost use Rattle.section_text.specs.Section.{ReaderReturnsSection};
ghost use Rattle.answers.specs.Answers.{names_on_from_last_section};

use pattern::read_assign;
use section_text::{Feed, Name, ReadFault};
use std::alloc::Global;

/// Reads which of the names are on, and the end of the text.
pub(crate) fn read_assign_and_end(
    alloc: Global,
    feed: &mut Feed,
    names: &[Name],
) -> Result<Vec<Name>, ReadFault>
    requires text_closed { feed.old.closed ≡ true }
    requires feed_not_stopped { feed.old.stop ≡ None }
    ensures { ReaderReturnsSection (λ on. on.items) result
        (names_on_from_last_section feed.old.text names.now feed.old.taken (ahead feed.old)) }
{
    match read_assign(alloc, feed, names) {
        Err(fault) => Err(fault),
        Ok(on) => match feed.finish() {
            Err(fault) => Err(fault),
            Ok(()) => Ok(on),
        },
    }
}
