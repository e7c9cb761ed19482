//! The name of a pool, for the fixed part of a state.
use std::marker::Model;

/// Which pool a seat or pages are of. Contracts see it as the pool's id. No value of it is made.
pub struct PoolName;

impl Model for PoolName {
    ghost use Rattle.std.specs.Prelude.{ℕ, []};
    ghost use base.Stored.{coded×, coded_ℕ};
    ghost use Rattle.atomic_table.specs.Seated.{TableId, table_id_coded};

    ghost Value = { TableId × ℕ };

    ghost coded = { coded× table_id_coded coded_ℕ };

    ghost view = { λ _. (
      record {
        words = 0;
        slots = 0;
        views_name = 0;
        atom = 0;
        block = 0;
        offset = 0;
        slot_names = [];
      },
      0,
    ) };
}
