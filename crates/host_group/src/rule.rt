//! The rule that the cells' table keeps. These types are for the proofs alone.
use crate::view::View;
use atomic_table::TableRule;

/// Each closed instance ends once.
pub struct CellRule;

impl TableRule<(), View, ()> for CellRule {
    ghost use Rattle.host_group.specs.Rule.{OneEnd};
    ghost use Rattle.host_group.specs.Views.{first_cell_view};

    ghost holds = { λ k. OneEnd };

    ghost first = { λ k. first_cell_view };
}
