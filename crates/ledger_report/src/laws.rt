//! The law of what is printed.
ghost use Rattle.ledger_report.specs.Printed.{PrintedLaw};

/// The report of a run is that of its world: the ledger lines of correct replicas are those of their diaries, by id, a faulty replica's line
/// says what the script has it do, and the blocks, replies and table are those of the common ledger of the world. So what is printed is what
/// safety speaks of.
pub fn report_law()
    ensures { PrintedLaw }
{}
