//! What is certain of a search under the full journal, as a function that does nothing and promises the law.

ghost use Rattle.std.specs.Prelude.{◌≡◌, ℕ, List};
ghost use Rattle.std.specs.List.{All};
ghost use Rattle.crash_model.specs.Disk.{IsDisk};
ghost use Rattle.crash_model.specs.Script.{IsAct};
ghost use Rattle.crash_model.specs.Sound.{IsSound, HasZeroJournal};
ghost use Rattle.question_model.specs.SearchCounts.{AreSearchCounts};
ghost use Rattle.question_model.specs.Workloads.{Search, Fails};
ghost use Rattle.question_model.specs.declared.found.SearchCounts.{SearchCounts};
ghost use Rattle.pool_judging.specs.Judging.{IsFullJournal};
ghost use Rattle.pool_judging.specs.Pools.{IsPlace, IsKeep};

/// From a sound disk with a zero journal, under the full journal with all its rules and with any others put in, no
/// sequence of steps fails, by a strict checker either. The promises of a sequence stand before its first step, so no
/// set breaks one, nor one of an fsync if fsyncs promise. So a search finds no workload that fails.
pub fn nothing_fails_under_the_full_journal()
    ensures sequences { (s : Search) → IsFullJournal s → IsDisk s.base → IsSound s.base → HasZeroJournal s.base
        → All (λ step. IsAct step.act) s.pool → All IsPlace s.pool → All IsKeep s.keeps
        → (places : List ℕ) → ¬ (Fails s places) }
    ensures found { (s : Search) (found : SearchCounts) → AreSearchCounts s found
        → ((places : List ℕ) → ¬ (Fails s places))
        → found.failing ≡ 0 }
{}
