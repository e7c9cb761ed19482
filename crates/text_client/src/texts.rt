//! The tests of the crates that read and write texts and records: `host_text`, `host_record`,
//! `host_report` and `host_script`.

#[cfg(test)]
mod tests;
