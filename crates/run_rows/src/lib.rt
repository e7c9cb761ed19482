//! Worked rows of a run and of the top call: what their definitions say of words, statuses, lines
//! and runs that are written out, each the contract of a function that does nothing.
#![tactic(auto)]

mod playing_rows;
mod rows;

pub use playing_rows::{
    a_client_plays_its_lines, a_crash_keeps_what_was_flushed,
    each_part_of_what_was_flushed_excludes, sessions_are_opened,
};
pub use rows::{
    a_bad_script_is_told, a_missing_table_is_told, a_run_has_its_headline, endings_are_as_written,
    forced_writes_are_kept, lost_steps_are_refused, refusals_have_lines,
    statuses_come_with_reports, tables_have_their_text, words_ask_for_runs, wrong_ends_are_refused,
    wrong_runs_are_refused,
};
