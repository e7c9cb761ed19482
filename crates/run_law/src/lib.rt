//! How a run ends, by the causes that its script and its image give: what the contract of the top
//! call says together.
#![tactic(auto)]

mod laws;

pub use laws::{
    absent_tables_are_told, bad_scripts_are_told, large_disks_are_told, large_images_are_told,
    large_tables_are_told, long_scripts_are_told, made_limits_are_told, passed_limits_are_told,
    unserved_sessions_are_told,
};
