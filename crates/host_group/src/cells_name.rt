//! The name of cells, for the fixed part of a state.
use std::marker::Model;

/// Which cells a seat is of. Contracts see it as the id of their table. No value of it is made.
pub struct CellsName;

impl Model for CellsName {
    ghost use Rattle.std.specs.Prelude.{[]};
    ghost use Rattle.atomic_table.specs.Seated.{TableId, table_id_coded};

    ghost Value = { TableId };

    ghost coded = { table_id_coded };

    ghost view = { λ _.
        record {
          words = 0;
          slots = 0;
          views_name = 0;
          atom = 0;
          block = 0;
          offset = 0;
          slot_names = [];
        } };
}
