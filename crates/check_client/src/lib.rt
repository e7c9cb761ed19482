//! The tests of the judge: one lawful report, and reports that differ from it in one thing.
#![tactic(auto)]

#[cfg(test)]
mod tests;
