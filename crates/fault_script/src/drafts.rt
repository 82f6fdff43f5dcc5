//! What the lines of a script so far declare.
ghost use Rattle.std.specs.Prelude.{◌≡◌, ◌<◌, ◌≤◌, length, true, IfOk};
ghost use Rattle.fab_base.specs.Fields.{op_fits};
ghost use Rattle.fab_base.specs.declared.limits.TheConstants.{MOST_MEMBERS};
ghost use Rattle.fault_script.specs.Checks.{Leaves};
ghost use Rattle.fault_script.specs.Drafts.{empty_draft, declared_cluster, declared_client, declared_replica, is_declared, with_cluster, with_client, with_request, with_timeout, with_setting};
ghost use Rattle.fault_script.specs.declared.settings.TheConstants.{MOST_TURNS};
ghost use Rattle.fault_script.specs.Fields.{is_within};
ghost use Rattle.fault_script.specs.Scripts.{script_made, keeps_limits};
ghost use Rattle.fault_script.specs.Words.{words_of};

use crate::faults::{LineFault, Why};
use crate::fields::{number, two_numbers};
use crate::scripts::{MOST_TIMEOUTS, Script, Wish};
use crate::settings::Settings;
use crate::twists::TimeoutLine;
use crate::words::Words;
use fab_base::{Bytes, ClientId, MOST_CLIENTS, MOST_STAMPS, NoMemory, Op, ReplicaId, Rows};
use std::alloc::Global;
use std::marker::Model;

/// What the lines so far declare.
#[derive(Drop)]
pub(crate) struct Draft {
    sizes: Vec<u8>,
    homes: Vec<u8>,
    stamps: Vec<u32>,
    wishes: Vec<Wish>,
    timeouts: Vec<TimeoutLine>,
    settings: Settings,
}

impl Model for Draft {
    ghost use Rattle.std.specs.Prelude.{◌≡◌, length, true};
    ghost use Rattle.fault_script.specs.Drafts.{Draft};
    ghost use Rattle.fault_script.specs.Scripts.{are_sizes, are_homes, are_wishes, are_timeouts, AreCounts};

    ghost Value = { Draft };

    ghost view = { λ d. record { sizes = d.sizes.items; homes = d.homes.items; stamps = d.stamps.items; wishes = d.wishes.items; timeouts = d.timeouts.items; settings = d.settings } };

    ghost invariant = { λ d. (are_sizes d.sizes.items ≡ true) × (are_homes (length d.sizes.items) d.homes.items ≡ true) × (length d.stamps.items ≡ length d.homes.items) × (are_wishes (length d.homes.items) d.wishes.items ≡ true) × AreCounts d.stamps.items d.wishes.items × (are_timeouts d.sizes.items d.timeouts.items ≡ true) };
}

impl Draft {
    /// Nothing is declared.
    pub(crate) fn new(alloc: Global) -> Draft
        ensures { result ≡ empty_draft }
    {
        Draft {
            sizes: Vec::new(alloc),
            homes: Vec::new(alloc),
            stamps: Vec::new(alloc),
            wishes: Vec::new(alloc),
            timeouts: Vec::new(alloc),
            settings: Settings::new(),
        }
    }

    /// A copy of the bytes, in the draft's memory.
    pub(crate) fn bytes(&self, word: &[u8]) -> Result<Bytes, NoMemory>
        ensures { IfOk result (λ bytes. bytes ≡ word.now) }
    {
        Ok(Rows::from_vec(word.to_vec(*self.homes.allocator())?))
    }

    /// A cluster that is declared.
    pub(crate) fn declared_cluster(&self, word: &[u8]) -> Result<u8, Why>
        ensures is { result ≡ declared_cluster self.now word.now }
        ensures within { IfOk result (λ n. is_within 1 (length self.now.sizes) n ≡ true) }
    {
        let n = number(word)?;
        if n >= 1 && n <= self.sizes.len() as u64 {
            Ok(n as u8)
        } else {
            Err(Why::Unknown)
        }
    }

    /// A client that is declared.
    pub(crate) fn declared_client(&self, word: &[u8]) -> Result<u8, Why>
        ensures { result ≡ declared_client self.now word.now }
    {
        let n = number(word)?;
        if n < self.homes.len() as u64 {
            Ok(n as u8)
        } else {
            Err(Why::Unknown)
        }
    }

    /// A replica that is declared.
    pub(crate) fn declared_replica(&self, word: &[u8]) -> Result<ReplicaId, Why>
        ensures is { result ≡ declared_replica self.now word.now }
        ensures within { IfOk result (λ i. is_declared self.now.sizes i ≡ true) }
    {
        let (cluster, index) = two_numbers(word)?;
        if cluster >= 1
            && cluster <= self.sizes.len() as u64
            && index < self.sizes[cluster as usize - 1] as u64
        {
            Ok(ReplicaId {
                cluster: cluster as u8,
                index: index as u8,
            })
        } else {
            Err(Why::Unknown)
        }
    }

    /// One cluster more, of so many replicas.
    pub(crate) fn add_cluster(&mut self, size: u8) -> Result<(), LineFault>
        requires { is_within 1 MOST_MEMBERS size ≡ true }
        ensures { Leaves result self.new (with_cluster self.old size) }
    {
        if !self.sizes.is_empty() {
            return Err(LineFault::Bad(Why::TooMany));
        }
        self.sizes.push(size)?;
        Ok(())
    }

    /// One client more, of this cluster.
    pub(crate) fn add_client(&mut self, home: u8) -> Result<(), LineFault>
        requires { is_within 1 (length self.old.sizes) home ≡ true }
        ensures { Leaves result self.new (with_client self.old home) }
    {
        if self.homes.len() >= MOST_CLIENTS as usize {
            return Err(LineFault::Bad(Why::TooMany));
        }
        self.homes.reserve(1)?;
        self.stamps.push(0)?;
        self.homes.push(home).unwrap();
        Ok(())
    }

    /// One request more of this client.
    pub(crate) fn add_request(&mut self, client: u8, op: Op) -> Result<(), LineFault>
        requires declared { client < length self.old.homes }
        requires within { op_fits op ≡ true }
        ensures { Leaves result self.new (with_request self.old client op) }
    {
        let last = self.stamps[client as usize];
        if last >= MOST_STAMPS {
            return Err(LineFault::Bad(Why::TooMany));
        }
        let stamp = last + 1;
        self.wishes.push(Wish {
            client: ClientId { number: client },
            stamp,
            op,
        })?;
        self.stamps[client as usize] = stamp;
        Ok(())
    }

    /// One timeout more, of this replica, once the journals together have so many entries.
    pub(crate) fn add_timeout(&mut self, replica: ReplicaId, entries: u32) -> Result<(), LineFault>
        requires declared { is_declared self.old.sizes replica ≡ true }
        requires within { entries ≤ MOST_TURNS }
        ensures { Leaves result self.new (with_timeout self.old replica entries) }
    {
        if self.timeouts.len() >= MOST_TIMEOUTS as usize {
            return Err(LineFault::Bad(Why::TooMany));
        }
        self.timeouts.push(TimeoutLine { replica, entries })?;
        Ok(())
    }

    /// One setting more, by the first word of its line.
    pub(crate) fn set(&mut self, kind: &[u8], words: Words<'_>) -> Result<(), LineFault>
        ensures { Leaves result self.new (with_setting self.old kind.now (words_of words.entry.rest.now)) }
    {
        self.settings = self.settings.setting_of_kind(kind, words)?;
        Ok(())
    }

    /// The script that is declared.
    pub(crate) fn finish(self) -> Script
        ensures is { result ≡ script_made self }
        ensures within { keeps_limits result ≡ true }
    {
        let Draft {
            sizes,
            homes,
            stamps: _,
            wishes,
            timeouts,
            settings,
        } = self;
        let interval = settings.interval_of();
        Script {
            sizes: Rows::from_vec(sizes),
            homes: Rows::from_vec(homes),
            requests: Rows::from_vec(wishes),
            timeouts: Rows::from_vec(timeouts),
            batch: settings.batch.value as u8,
            window: settings.window.value as u8,
            interval: interval as u8,
            seed: settings.seed.value,
            turns: settings.turns.value as u32,
            patience: settings.patience.value as u32,
            height: settings.height.value as u8,
        }
    }
}
