//! What holds of the definitions: calls that do nothing and whose clauses are the laws.
ghost use Rattle.std.specs.Prelude.{◌≡◌, ℕ, List};
ghost use Rattle.cli_words.specs.Words.{IsJob};
ghost use Rattle.cli_words.specs.declared.job.Job.{Job};

/// Words ask for one thing.
pub fn one_job()
    ensures { (words : List (List ℕ)) (one other : Job) → IsJob words one → IsJob words other → one ≡ other }
{}
