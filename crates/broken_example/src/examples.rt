//! A broken run, and what is said of it.
ghost use Rattle.std.specs.Prelude.{◌≡◌, ℕ, ◌++◌, List, Some, codes, decimal};
ghost use Rattle.run_words.specs.declared.ends.End.{End};
ghost use Rattle.run_worlds.specs.Sights.{first_evidence};
ghost use Rattle.run_worlds.specs.Endings.{IsEnd};
ghost use Rattle.ledger_report.specs.Report.{end_line, id_text};
ghost use Rattle.fabric_run.specs.Simulated.{exit_of};
ghost use Rattle.fabric_run.specs.Statuses.{status_of};
ghost use Rattle.broken_example.specs.Broken.{member, broken_run, forgery};

/// Where the first entry of 1.1 is a Prepare under the name of 1.2, who never signed it, the first evidence names 1.1, the place 0 of its
/// journal, and 1.2, whatever the signature is (`evidence`); the run ends broken (`end`); the report's last line says so, `end forged 1.1 0 1.2`
/// (`line`), and the program's status is 9 (`status`).
pub fn broken_example()
    ensures evidence { (sig : List ℕ) → first_evidence (broken_run sig) ≡ Some forgery }
    ensures end { (sig : List ℕ) → IsEnd (broken_run sig) (End.Broken forgery) }
    ensures line { end_line (End.Broken forgery)
        ≡ codes "end forged " ++ id_text (member 1) ++ codes " " ++ decimal 0 ++ codes " " ++ id_text (member 2) ++ codes "\n" }
    ensures status { status_of (exit_of (End.Broken forgery)) ≡ 9 }
{}
