ghost use Rattle.std.specs.Prelude.{◌≡◌, ℕ};
ghost use Rattle.policy.specs.Nesting.{nested_by};
ghost use Rattle.table.specs.Answers.{meaning};
ghost use Rattle.theory.specs.Roles.{is_unsafe};
ghost use Rattle.verdict.specs.Verdicts.{VerdictOf};

use crate::verdict::Verdict;
use policy::SafeShared;
use table::checked::Checked;

/// A table with its verdict and the set of its unsafe axioms, which is the policy of sessions: the only kind of table that will open one.
#[derive(Drop)]
pub struct Judged {
    table: Checked,
    verdict: Verdict,
    policy: SafeShared,
    ghost own: { ∥ VerdictOf (meaning table) verdict ∥₁ },
    ghost unsafe_ones: { (k : ℕ) → nested_by policy k ≡ is_unsafe (meaning table) k },
}

impl Judged {
    /// The checked table with what judging it gave.
    pub fn new(table: Checked, verdict: Verdict) -> Judged
        requires { ∥ VerdictOf (meaning table) verdict ∥₁ }
        ensures table { result.table ≡ table }
        ensures verdict { result.verdict ≡ verdict }
    {
        let policy = SafeShared::of(&table);
        Judged {
            table,
            verdict,
            policy,
        }
    }

    /// Its verdict.
    pub fn verdict(&self) -> Verdict
        ensures value { result ≡ self.now.verdict }
        ensures own { ∥ VerdictOf (meaning self.now.table) result ∥₁ }
    {
        self.verdict
    }

    /// The policy that nests the witnesses of exactly its unsafe axioms.
    pub fn policy(&self) -> SafeShared
        ensures { (k : ℕ) → nested_by result k ≡ is_unsafe (meaning self.now.table) k }
    {
        self.policy
    }
}
