//! The rule that the pool's table keeps. These types are for the proofs alone.
use crate::view::View;
use atomic_table::TableRule;

/// What a pool is made with.
#[derive(Drop)]
pub struct Opening {
    pub frames: u32,
    /// How long a page is, in bytes.
    pub page_size: u32,
    pub seats: u32,
}

/// Each frame is in one place.
pub struct FrameRule;

impl TableRule<Option<Vec<u8>>, View, Opening> for FrameRule {
    ghost use Rattle.host_frames.specs.Rule.{OnePlace};
    ghost use Rattle.host_frames.specs.Views.{first_view};
    ghost use Rattle.host_frames.specs.Homes.{IsBlankPage};

    ghost holds = { λ k. OnePlace IsBlankPage k };

    ghost first = { first_view };
}
