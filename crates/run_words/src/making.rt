//! A transcript in which nothing ran.
ghost use Rattle.std.specs.Prelude.{◌≡◌};
ghost use Rattle.run_words.specs.Runs.{empty_transcript};

use crate::logs::Transcript;
use fab_base::Rows;
use fault_script::Script;
use std::alloc::Global;

impl Transcript {
    /// The transcript of a script without lines, of which nothing ran. Takes no memory.
    pub fn empty(alloc: Global) -> Transcript
        ensures { result ≡ empty_transcript }
    {
        Transcript {
            script: Script::empty(alloc),
            traces: Rows::new(alloc),
            moments: Rows::new(alloc),
            timeouts_left: 0,
        }
    }
}
