//! What the definitions determine, as a function that does nothing and promises the law.

ghost use Rattle.std.specs.Prelude.{◌≡◌, ℕ, List};
ghost use Rattle.report.specs.Answers.{Answer};
ghost use Rattle.crash_model.specs.declared.settings.Settings.{Settings};
ghost use Rattle.report.specs.Answers.{IsAnswerTo};
ghost use Rattle.question_model.specs.declared.question.Question.{Question};

/// Two answers to one question about one script, under the same settings, are the same.
pub fn no_question_has_two_answers()
    ensures { (question : Question) (bytes : List ℕ) (settings : Settings) (answer other : Answer)
        → IsAnswerTo question bytes settings answer → IsAnswerTo question bytes settings other → answer ≡ other }
{}
