// Laws over the definitions, each the contract of a function that does nothing.
ghost use Rattle.host_gpt.specs.Laws.{LargeExcludes, OneTable, TableExcludes};

/// An image has one table at most.
#[tactic(auto, using(crate::proofs::LawLemmas::one_table))]
pub fn one_table()
    ensures { OneTable }
{}

/// An image that has a table has neither an absent one nor one that is too large.
#[tactic(auto, using(crate::proofs::LawLemmas::table_excludes))]
pub fn table_excludes()
    ensures { TableExcludes }
{}

/// A table that is too large isn't absent.
#[tactic(auto, using(crate::proofs::LawLemmas::large_excludes))]
pub fn large_excludes()
    ensures { LargeExcludes }
{}
