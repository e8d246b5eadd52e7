//! A pool whose sequences of operations are judged.

ghost use Rattle.std.specs.Prelude.{IsTrue};
ghost use Rattle.std.specs.List.{All};
ghost use Rattle.crash_model.specs.Sound.{IsSound, HasZeroJournal};
ghost use Rattle.question_model.specs.Workloads.{is_place, is_keep};

use crash_model::orderings::Ordering;
use crash_model::settings::Asked;
use crash_model::steps::Step;
use disk_image::Image;
use question_model::WorkloadLength;
use std::alloc::Allocator;

/// A pool, whose sequences of up to the longest length are judged over a base, under an ordering.
///
/// A sequence is made of operations and of lines that wait. Each begins with the promises `keeps`. What the checker
/// requires of each set that a crash leaves is `asked`. The base is sound, and its journal is zero.
#[derive(Drop)]
pub struct PoolJudge<'a, A: Allocator + Copy> {
    pub alloc: A,
    pub base: &'a Image<A>,
    pub pool: &'a [Step],
    pub keeps: &'a [Step],
    pub longest: WorkloadLength,
    pub ordering: &'a Ordering,
    pub asked: Asked,
    ghost places: { All (λ step. IsTrue (is_place step.act)) pool.now },
    ghost promises: { All (λ step. IsTrue (is_keep step.act)) keeps.now },
    ghost sound: { ∥ IsSound base.now × HasZeroJournal base.now ∥₁ },
}
