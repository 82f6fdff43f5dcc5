//! What is read off an answer of the turn.

ghost use Rattle.std.specs.Prelude.{◌≡◌};
ghost use Rattle.fab_machine.specs.Step.{makes_entry};
ghost use Rattle.run_words.specs.Acts.{told_entry};
ghost use Rattle.turn_laws.specs.Doings.{is_refused};

use fab_base::Answer;
use run_words::Told;

/// Whether an answer of the machine is of an entry.
fn makes_entry(answer: &Answer) -> bool
    ensures { result ≡ makes_entry answer.now }
{
    matches!(
        answer,
        Answer::Heard(_)
            | Answer::Proposed { .. }
            | Answer::Sent(_)
            | Answer::Executed { .. }
            | Answer::Voted { .. }
            | Answer::Moved { .. }
            | Answer::Asked { .. }
            | Answer::Missed { .. }
    )
}

/// Whether an entry was made.
pub(crate) fn told_entry(told: &Told) -> bool
    ensures { result ≡ told_entry told.now }
{
    match told {
        Told::Core(answer) => makes_entry(answer),
        Told::Out(_) => true,
        Told::KeySpent { used: _ } => false,
        Told::NoMemory => false,
    }
}

/// Whether memory was refused.
pub(crate) fn is_refused(told: &Told) -> bool
    ensures { result ≡ is_refused told.now }
{
    matches!(told, Told::NoMemory)
}
