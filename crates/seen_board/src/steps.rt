//! The rule of a board's table, and the names of the steps on it.
ghost use Rattle.std.specs.Prelude.{ℕ};
ghost use Rattle.board_rule.specs.Rule.{IsKept};
ghost use Rattle.board_rule.specs.Changes.{first_view, with_half_share, fresh_seat};
ghost use Rattle.board_rule.specs.Changes.{both_views, impossible_view, spent_view};
ghost use Rattle.board_rule.specs.Plays.{Peeks, never, IsAtShard, Enters, Seizes, Leaves, Measures, ReadsLow};
ghost use Rattle.board_rule.specs.Plays.{ReadsHigh, LaysLow, LaysHigh, Publishes, ReadsMark, ScansIndex, Files, Claims};
ghost use Rattle.board_rule.specs.Plays.{Settles, Announces, Repays, Ends, CountsEntry, Stops, Overflows};

use atomic_table::{Join, Play, Split, TableRule};
use board_rule::View;
use state_space::Space;
use std::marker::{Brand, PhantomData};
use std::snapshot::Snapshot;

/// What is known of a board's table when it is made.
#[derive(Drop)]
pub struct About<S> {
    pub space: Snapshot<S>,
    pub limit: usize,
    pub places: usize,
}

/// The rule of a board's table.
pub struct Order<S> {
    marker: PhantomData<S>,
}

impl<S: Space> TableRule<(), View, About<S>> for Order<S> {
    ghost holds = { λ about.
        IsKept (record {
          limit = about.limit;
          places = about.places;
          next = S.successors about.space.value;
          origin = S.initial about.space.value;
        }) (S.is_good about.space.value) };

    ghost first = { λ about. first_view about.limit about.places (S.initial about.space.value) };
}

/// What holds of each entry. A load of one gets it from its type, since it cannot read the table's space.
pub trait EntryFact {
    ghost holds_of: { ℕ → Type 0 };
}

impl EntryFact for Brand {
    ghost holds_of = { λ _. Unit {0} };
}

pub struct Peek;

impl Play<(), View> for Peek {
    ghost then = { Peeks };
}

/// A step that no seat takes.
pub struct Never;

impl Play<(), View> for Never {
    ghost then = { never };
}

pub struct Placed;

impl Play<(), View> for Placed {
    ghost then = { IsAtShard };
}

pub struct Enter;

impl Play<(), View> for Enter {
    ghost then = { Enters };
}

pub struct Seize;

impl Play<(), View> for Seize {
    ghost then = { Seizes };
}

pub struct Leave;

impl Play<(), View> for Leave {
    ghost then = { Leaves };
}

pub struct Measure;

impl Play<(), View> for Measure {
    ghost then = { Measures };
}

pub struct ReadLow<F> {
    marker: PhantomData<F>,
}

impl<F: EntryFact> Play<(), View> for ReadLow<F> {
    ghost then = { ReadsLow F.holds_of };
}

pub struct ReadHigh;

impl Play<(), View> for ReadHigh {
    ghost then = { ReadsHigh };
}

pub struct LayLow;

impl Play<(), View> for LayLow {
    ghost then = { LaysLow };
}

pub struct LayHigh;

impl Play<(), View> for LayHigh {
    ghost then = { LaysHigh };
}

pub struct Publish;

impl Play<(), View> for Publish {
    ghost then = { Publishes };
}

pub struct Mark;

impl Play<(), View> for Mark {
    ghost then = { ReadsMark };
}

pub struct Scan;

impl Play<(), View> for Scan {
    ghost then = { ScansIndex };
}

pub struct File;

impl Play<(), View> for File {
    ghost then = { Files };
}

pub struct Claim;

impl Play<(), View> for Claim {
    ghost then = { Claims };
}

pub struct Settle;

impl Play<(), View> for Settle {
    ghost then = { Settles };
}

pub struct Announce;

impl Play<(), View> for Announce {
    ghost then = { Announces };
}

pub struct Repay;

impl Play<(), View> for Repay {
    ghost then = { Repays };
}

pub struct End;

impl Play<(), View> for End {
    ghost then = { Ends };
}

pub struct Count;

impl Play<(), View> for Count {
    ghost then = { CountsEntry };
}

pub struct Stop;

impl Play<(), View> for Stop {
    ghost then = { Stops };
}

pub struct Overflow;

impl Play<(), View> for Overflow {
    ghost then = { Overflows };
}

pub struct Fresh;

impl Split<View> for Fresh {
    ghost left = { with_half_share };

    ghost right = { fresh_seat };
}

pub struct BothSeats;

impl Join<View> for BothSeats {
    ghost both = { both_views };

    ghost spent = { spent_view };
}

/// Two seats that cannot exist together.
pub struct Clash;

impl Join<View> for Clash {
    ghost both = { impossible_view };

    ghost spent = { spent_view };
}
