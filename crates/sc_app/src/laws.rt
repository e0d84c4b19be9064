//! Laws of the answers to inputs.

ghost use Rattle.std.specs.Prelude.{◌≡◌, ◌↔◌, ℕ, List};
ghost use Rattle.sc_app.specs.Forms.{IsForm, AreWordsOfScl, AreWordsOfBall, AreWordsOfGenerate};
ghost use Rattle.sc_app.specs.Answers.{Answers, HasOneAnswer};
ghost use Rattle.sc_app.specs.declared.command.Command.{Command};
ghost use Rattle.sc_app.specs.declared.command.Command.TheVariants.{Scl, Ball, Generate};
ghost use Rattle.sc_app.specs.declared.status.Status.{Status};

/// No input that has one answer has two: the same words and the same input give one status and one text.
pub fn an_input_has_at_most_one_answer()
    ensures status { (words : List (List ℕ)) (input text other : List ℕ) (status elsewise : Status) → HasOneAnswer words input
        → Answers words input status text → Answers words input elsewise other → status ≡ elsewise }
    ensures text { (words : List (List ℕ)) (input text other : List ℕ) (status elsewise : Status) → HasOneAnswer words input
        → Answers words input status text → Answers words input elsewise other → text ≡ other }
{}

/// No input that has at most one right answer is left without: it can't be that none is one.
pub fn an_input_has_an_answer()
    ensures { (words : List (List ℕ)) (input : List ℕ) (c : Command) → IsForm c words → HasOneAnswer words input
        → ¬ ((status : Status) (text : List ℕ) → ¬ Answers words input status text) }
{}

/// The forms of `scl`: the word alone, or with the option `--pivots` and a number.
pub fn scl_has_two_forms()
    ensures { (n : ℕ) (words : List (List ℕ)) → IsForm (Scl n) words ↔ AreWordsOfScl n words }
{}

/// The forms of `ball`: the word alone, or with the option `--pivots` and a number.
pub fn ball_has_two_forms()
    ensures { (n : ℕ) (words : List (List ℕ)) → IsForm (Ball n) words ↔ AreWordsOfBall n words }
{}

/// The form of `gen`: the word, a seed and a number of letters.
pub fn gen_has_one_form()
    ensures { (seed letters : ℕ) (words : List (List ℕ)) → IsForm (Generate seed letters) words ↔ AreWordsOfGenerate seed letters words }
{}
