//! Laws of books and of the core, each the contract of a function without a body.
ghost use Rattle.core_book.specs.CoreLaws.{AcceptsAtMostOnePerNumber, DrawsEachNumberOnce, EmptyOnlyIfAllAreDrawn, EventsKeepHeldFindings, HistoryReplaysAfterEvents, HeldFindingsAreBooksAndLeast, HoldsAcceptedFindings, OnlyAcceptedChangesFindings, VerdictIsUnique};
ghost use Rattle.core_book.specs.Laws.{AcceptedFindingMatchesBookAndIsNew, BooksAgreeOnFaults, ClosedBookAloneAnswersClosed, ClosedIfHistoryHasClosing, DoubleFindingMatchesBookAndIsHeld, FullBookHoldsAll, AcceptedFindingIsHeld, UnacceptedKeepsFindings, FilingKeepsHeldFindings, MatchingFindingIsNoStranger, FilingKeepsBookValid, EachEntryKeepsReplay};

/// States that, after any events, a new core has given each number below the next to one seat, once.
///
/// No other number was drawn. A claim answers `Empty` only if all numbers were drawn.
pub fn core_draws_each_number_once()
    ensures drawn_once { DrawsEachNumberOnce }
    ensures empty { EmptyOnlyIfAllAreDrawn }
{}

/// States that, after any events, a new core holds the findings that were answered `Accepted`, one for each number.
///
/// Each is honest and of the book's job. The history replays to the book.
pub fn core_holds_what_was_accepted()
    ensures accepted { HoldsAcceptedFindings }
    ensures one { AcceptsAtMostOnePerNumber }
    ensures honest { HeldFindingsAreBooksAndLeast }
    ensures replays { HistoryReplaysAfterEvents }
{}

/// States that no event changes a finding that is held.
///
/// No claim, no loss and no filing that is not answered `Accepted` changes what is held.
pub fn events_keep_held_findings()
    ensures keeps_findings { EventsKeepHeldFindings }
    ensures only { OnlyAcceptedChangesFindings }
{}

/// States that the modules of a certificate have exactly one verdict: two books from which it is concluded give the
/// same.
pub fn verdict_is_unique()
    ensures { VerdictIsUnique }
{}

/// States that a closed book answers `Closed` to every finding, and that no other book does.
pub fn closed_book_answers_closed()
    ensures { ClosedBookAloneAnswersClosed }
{}

/// States that a book whose history replays to it keeps this after each filing and after a closing.
///
/// The book is closed exactly if the history has a closing entry.
pub fn history_replays()
    ensures stays { EachEntryKeepsReplay }
    ensures closed { ClosedIfHistoryHasClosing }
{}

/// States what replies say of a finding.
///
/// - A finding that is accepted is the book's own, by digest, number and job, and none is held for its number.
/// - One that is answered `Double` is the book's own, and one is held for its number.
/// - One that is the book's own is no stranger.
pub fn replies_tell_whose_a_finding_is()
    ensures accepted { AcceptedFindingMatchesBookAndIsNew }
    ensures double { DoubleFindingMatchesBookAndIsHeld }
    ensures knows_its_own { MatchingFindingIsNoStranger }
{}

/// States what a book holds after a filing.
///
/// - The finding is held if it was accepted.
/// - No finding that was held is lost or changed, and else nothing new is held.
/// - Each finding that is held is still the book's own.
pub fn filing_holds_what_is_accepted()
    ensures accepted { AcceptedFindingIsHeld }
    ensures keeps_findings { FilingKeepsHeldFindings }
    ensures nothing_else { UnacceptedKeepsFindings }
    ensures book { FilingKeepsBookValid }
{}

/// States that two books of the same jobs hold findings with the same fault for one number, whatever the order of
/// filings.
pub fn books_agree_on_faults()
    ensures { BooksAgreeOnFaults }
{}

/// States that a book that accepted as many findings as it has jobs holds a finding for each of them, of that job.
pub fn full_book_holds_all()
    ensures { FullBookHoldsAll }
{}
