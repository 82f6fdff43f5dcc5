//! The timeouts of a script.
ghost use Rattle.std.specs.Prelude.{◌≡◌, ◌≤◌, false, map, IfOk};
ghost use Rattle.sim_sched.specs.Seats.{seen};
ghost use Rattle.sim_sched.specs.Putting.{AreDistinct};
ghost use Rattle.sim_sched.specs.Simulating.{IsReady};
ghost use Rattle.sim_sched.specs.Playing.{Walked};

use crate::rounds::Round;
use crate::seats::Seat;
use crate::stepping::time_out;
use copy_reader::Reader;
use fab_base::{NoMemory, ReplicaId};
use fault_script::TimeoutLine;
use run_words::Party;

/// Goes through the timeouts that are yet to be given, from the first, and gives each that is due; what was given leaves the list, whether or
/// not it came to anything.
pub(crate) fn walk_lines<P: Party>(
    seats: &mut [Seat<P>],
    ids: &[ReplicaId],
    reader: &Reader,
    turns: u64,
    before: u64,
    lines: &mut Vec<TimeoutLine>,
) -> Result<Round, NoMemory>
    requires ready { IsReady reader.now.members.now reader.now.ring.now ids.now (map (seen P.made P.journal P.shut) seats.old) }
    requires apart { AreDistinct ids.now }
    requires within { before ≤ turns }
    ensures ready { IfOk result (λ told. IsReady reader.now.members.now reader.now.ring.now ids.now
        (map (seen P.made P.journal P.shut) seats.new)) }
    ensures within { IfOk result (λ told. (before ≤ told.entries) × (told.entries ≤ turns)) }
    ensures calm { IfOk result (λ told. told.entries ≡ before
        → map (seen P.made P.journal P.shut) seats.new ≡ map (seen P.made P.journal P.shut) seats.old) }
    ensures walked { IfOk result (λ told. Walked turns (map (seen P.made P.journal P.shut) seats.old) before lines.old.items told
        (map (seen P.made P.journal P.shut) seats.new) lines.new.items) }
{
    let mut moved = false;
    let mut entries = before;
    let mut place = 0;
    while place < lines.len() {
        if entries >= turns {
            return Ok(Round {
                spent: true,
                moved,
                entries,
            });
        }
        let line = lines[place];
        if u64::from(line.entries) > entries {
            place += 1;
        } else {
            lines.remove(place);
            if time_out(seats, ids, reader.alloc, line.replica)? {
                moved = true;
                entries += 1;
            }
        }
    }
    Ok(Round {
        spent: false,
        moved,
        entries,
    })
}
