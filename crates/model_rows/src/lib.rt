//! Worked rows: what the definitions of the model say of values that are written out, right ones
//! and wrong ones, each the contract of a function that does nothing.
#![tactic(auto)]

mod rows;

pub use rows::{
    a_table_is_read, bytes_are_printed, clients_are_as_written, disks_are_as_written,
    each_report_field_is_needed, each_session_field_is_needed, frames_are_as_written,
    groups_are_as_written, intakes_are_as_written, memory_disks_are_as_written,
    partitions_are_served, records_are_as_written, reports_are_as_written, rings_are_as_written,
    sessions_are_lawful, texts_are_scripts, the_cache_is_as_written,
    the_realistic_script_is_played, turns_are_as_written, verdicts_are_as_written,
    words_are_commands, wrong_reports_are_refused, wrong_sessions_are_refused,
    wrong_tables_are_refused,
};
