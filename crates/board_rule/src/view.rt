ghost use Rattle.board_rule.specs.Views.{OnRows, OnLives, OnPending, OnCount, Share};
ghost use Rattle.std.specs.Prelude.{ℕ};
ghost use Rattle.std.specs.Borrow.{ftrue};

use std::marker::Model;

/// What a seat knows, with one part for each subject of the rule. No value of it is ever made.
pub struct View {
    // How many entries the board may have.
    pub ghost limit: { ℕ },
    // How many of them a row may have, 0 once the seat is given up.
    pub ghost places: { ℕ },
    pub ghost rows: { OnRows },
    pub ghost lives: { OnLives },
    pub ghost pending: { OnPending },
    pub ghost count: { OnCount },
    pub ghost share: { Share },
}

impl Model for View {
    ghost also_owns = { λ _. ftrue };
}
