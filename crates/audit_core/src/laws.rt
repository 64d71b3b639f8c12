//! Laws of books, of the core and of the whole plane, each the contract of a function without a body.
pub use core_book::laws::{
    books_agree_on_faults, closed_book_answers_closed, core_draws_each_number_once,
    core_holds_what_was_accepted, events_keep_held_findings, filing_holds_what_is_accepted,
    full_book_holds_all, history_replays, replies_tell_whose_a_finding_is, verdict_is_unique,
};
pub use soundness::laws::{
    accepted_has_no_undefined_gate, accepted_is_correct, accepted_is_on_time,
    accepted_stays_without_halos, first_fault_is_real, inputs_decide_the_run, module_has_one_job,
    plain_verdict_decides_design, plane_ends_as_asked, plane_starts_as_jobs, plane_steps_as_jobs,
    some_layout_is_wrong, something_is_accepted, verdict_exists,
};
