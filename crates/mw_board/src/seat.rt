// What one worker steps with.
use crate::view::View;
use std::marker::Model;

/// What one worker steps with. Contracts see its board and its view.
#[derive(Drop)]
pub struct Seat {
    pub(crate) place: atomic_table::Seat<(), View>,
    pub(crate) saw: u64,
    pub(crate) mark: u64,
}

impl Model for Seat {
    ghost use Rattle.std.specs.Prelude.{◌≡◌, ◌≤◌, []};
    ghost use Rattle.std.specs.Coded.{codes};
    ghost use Rattle.atomic_table.specs.Seated.{table_id_coded};
    ghost use Rattle.mw_board.specs.Rule.{Worker, mark_of};

    ghost Value = { Worker };

    ghost coded = { Prim.hlevel (codes, table_id_coded) };

    ghost view = { λ s. record { board = s.place.table_id; view = s.place.me.0 } };

    ghost invariant = { λ s. (s.place.me.1 ≡ []) × (s.place.me.0.saw ≡ s.saw) × (s.saw ≤ 64)
        × (s.mark ≡ mark_of s.place.me.0.numbers) };
}
