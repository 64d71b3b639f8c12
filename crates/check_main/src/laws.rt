//! Laws of the words, each the contract of a function without a body.
ghost use Rattle.check_main.specs.Laws.{EachWorkerCountIsAccepted, CheckWordAsksForCheck};

/// States that the word `check` asks for `check`.
pub fn check_word_asks_for_check()
    ensures { CheckWordAsksForCheck }
{}

/// States that `check --workers N` asks for `check` with N workers, for each whole number N from 1 to 64.
pub fn each_worker_count_is_accepted()
    ensures { EachWorkerCountIsAccepted }
{}
