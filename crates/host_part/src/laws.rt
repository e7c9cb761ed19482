// Laws over the definitions, each the contract of a function that does nothing.
ghost use Rattle.host_part.specs.Laws.{OneRange, RangeLiesInside, RangesShareNoBlock};

/// No block lies in the ranges of two numbers.
#[tactic(auto, using(crate::proofs::RangeLemmas::ranges_share_no_block))]
pub fn ranges_share_no_block()
    ensures { RangesShareNoBlock }
{}

/// A range lies within the usable blocks, and in the image.
#[tactic(auto, using(crate::proofs::RangeLemmas::range_lies_inside))]
pub fn range_lies_inside()
    ensures { RangeLiesInside }
{}

/// A number has one range at most.
pub fn one_range()
    ensures { OneRange }
{}
