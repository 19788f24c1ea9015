//! What holds of the definitions: calls that do nothing and whose clauses are the laws.
ghost use Rattle.std.specs.Prelude.{◌≡◌, ◌⊎◌, ℕ, List};
ghost use Rattle.outside.specs.Tree.{Tree};
ghost use Rattle.pack_run.specs.WithinLimits.{ExceedsNone, IsLimit};
ghost use Rattle.pack_run.specs.Verdict.{IsVerdict};
ghost use Rattle.pack_run.specs.declared.verdict.Verdict.{Verdict};

use cli_words::laws::one_job;
use graph_types::laws::one_graph;
use module_build::laws::one_record;
use pack_config::laws::one_configuration_or_one_fault;
use seal_build::laws::one_outcome;

/// Words have one verdict on a tree, but where each verdict names a limit: the tree, or the files that its modules are made
/// of, may exceed several. Where they exceed none, the words have one.
pub fn one_verdict()
    ensures within { (words : List (List ℕ)) (readers : ℕ) (tree : Tree) (one other : Verdict) (paths others : List (List ℕ))
        → ExceedsNone words readers tree → IsVerdict words readers tree one paths → IsVerdict words readers tree other others → one ≡ other }
    ensures or_limits { (words : List (List ℕ)) (readers : ℕ) (tree : Tree) (one other : Verdict) (paths others : List (List ℕ))
        → IsVerdict words readers tree one paths → IsVerdict words readers tree other others → (one ≡ other) ⊎ (IsLimit one × IsLimit other) }
{
    one_job();
    one_configuration_or_one_fault();
    one_record();
    one_graph();
    one_outcome();
}
