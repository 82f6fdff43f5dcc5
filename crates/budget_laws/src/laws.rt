//! The laws of budgets.
ghost use Rattle.budget_laws.specs.Budgets.{BudgetLaw};
ghost use Rattle.budget_laws.specs.Opened.{OpenedLaw, SignedLaw, NextLaw, MovedLaw, SentLaw, EntriesLaw};
ghost use Rattle.budget_laws.specs.Proposals.{ThriftyLaw};

/// In a lawful run of a script of one cluster, settled or not, in which nobody timed out, each replica has signed five contents at most for each
/// slot that the primary opened (`signed`), so a key that was used up has no more leaves than that (`opened`); these slots are as many as those
/// below the primary's next one (`next`). Its entries that are neither hearings nor sendings are six at most for each such slot (`moved`), and it
/// sent five times at most for each (`sent`). With o such slots, n members and q requests all journals have 11on + 5on² + nq entries at most
/// (`entries`): each hears no more than was put to it, which is one copy at most of each request and of each item that was sent.
///
/// A primary wastes nothing, after each number of steps of the one run in which nobody timed out (`thrifty`): it proposed once for each slot below
/// its next one, and of each client the stamps from 1 on, each once. So it opens no more slots than its clients' requests fill, and one more: each
/// batch is full, but for one, which is proposed at a moment at which nothing else can move, and which has all that the script asks and that wasn't
/// proposed. So the one run of a script of one cluster without timeout lines whose keys and turns are enough for that many rounds ends done, or two
/// batches have one digest (`budget`). This is so however much patience the script has: with such keys nobody times out (`timely` of `plain_laws`).
pub fn budget_law()
    ensures signed { SignedLaw }
    ensures opened { OpenedLaw }
    ensures next { NextLaw }
    ensures moved { MovedLaw }
    ensures sent { SentLaw }
    ensures entries { EntriesLaw }
    ensures thrifty { ThriftyLaw }
    ensures budget { BudgetLaw }
{}
