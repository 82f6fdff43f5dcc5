//! The law of histories.

ghost use Rattle.party_turn.specs.Histories.{HistoryLaw};

use run_words::Party;

/// The entries of a turn's history, without the seats, are a journal that the replica's machine makes, in which each heard message is sound.
pub fn history_law<P: Party>()
    ensures { HistoryLaw P.made }
{}
