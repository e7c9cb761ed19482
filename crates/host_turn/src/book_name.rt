//! The name of a book, for the fixed part of another book's state.
use std::marker::Model;

/// Which book a seat is of, or which table another object over `atomic_table` has. Contracts see it
/// as the table's id. No value of it is made.
pub struct BookName;

impl Model for BookName {
    ghost use Rattle.std.specs.Prelude.{[]};
    ghost use Rattle.atomic_table.specs.Seated.{TableId, table_id_coded};

    ghost Value = { TableId };

    ghost coded = { table_id_coded };

    ghost view = { λ _.
        record {
          words = 0;
          slots = 0;
          views_name = 0;
          atom = 0;
          block = 0;
          offset = 0;
          slot_names = [];
        } };
}
