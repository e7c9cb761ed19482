//! Laws over the definitions, each the contract of a function that does nothing.
ghost use Rattle.host_report.specs.Laws.{RangesLieInImage};

/// The range of each session of a lawful report lies in the image.
pub fn ranges_lie_in_image()
    ensures { RangesLieInImage }
{}
