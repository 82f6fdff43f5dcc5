//! The settings of a script: numbers that a line may set, each once.
ghost use Rattle.std.specs.Prelude.{◌≡◌, ◌≤◌, true, IfOk};
ghost use Rattle.fault_script.specs.Words.{words_of};
ghost use Rattle.fault_script.specs.Settings.{unset, set_once, default_settings, is_allowed, setting_of, with_set, least_window, least_now, greatest_now, setting_line, interval_of, setting_of_kind};

use crate::faults::Why;
use crate::fields::one_number;
use crate::table::Kind;
use crate::words::Words;
use std::marker::Model;

/// The greatest budget of turns, the number of entries of all journals together at which a run ends.
pub const MOST_TURNS: u32 = 200_000;

/// The greatest patience, the number of quiet moments of a run that may end in timeouts.
pub const MOST_PATIENCE: u32 = 50;

/// A number that a line may set.
#[derive(Clone, Copy, Drop)]
pub(crate) struct Setting {
    pub(crate) value: u64,
    /// Whether a line set it.
    pub(crate) given: bool,
}

impl Setting {
    /// The number until a line sets it.
    fn unset(kind: Kind) -> Setting
        ensures { result ≡ unset kind }
    {
        Setting {
            value: kind.row().default,
            given: false,
        }
    }

    /// The number set by a line, which no line above did.
    fn set_once(self, value: u64) -> Result<Setting, Why>
        ensures is { result ≡ set_once self value }
        ensures value { IfOk result (λ setting. setting.value ≡ value) }
    {
        if self.given {
            Err(Why::Double)
        } else {
            Ok(Setting { value, given: true })
        }
    }
}

/// The settings, as the lines so far set them.
#[derive(Clone, Copy, Drop)]
pub(crate) struct Settings {
    pub(crate) batch: Setting,
    pub(crate) window: Setting,
    pub(crate) interval: Setting,
    pub(crate) seed: Setting,
    pub(crate) turns: Setting,
    pub(crate) patience: Setting,
    pub(crate) height: Setting,
}

impl Model for Settings {
    ghost use Rattle.std.specs.Prelude.{◌≡◌, ◌≤◌, true, IsTrue};
    ghost use Rattle.fab_base.specs.declared.limits.TheConstants.{MOST_REQUESTS, MOST_SLOTS};
    ghost use Rattle.fault_script.specs.declared.settings.TheConstants.{MOST_TURNS, MOST_PATIENCE};
    ghost use Rattle.fault_script.specs.Settings.{Settings, is_height};

    ghost Value = { Settings };

    ghost view = { λ s. record { batch = s.batch; window = s.window; interval = s.interval; seed = s.seed; turns = s.turns; patience = s.patience; height = s.height } };

    ghost inverse = { λ s. record { batch = s.batch; window = s.window; interval = s.interval; seed = s.seed; turns = s.turns; patience = s.patience; height = s.height } };

    ghost invariant = { λ s. (1 ≤ s.batch.value) × (s.batch.value ≤ MOST_REQUESTS) × (1 ≤ s.window.value) × (s.window.value ≤ MOST_SLOTS) × (1 ≤ s.interval.value) × (IsTrue s.interval.given → s.interval.value ≤ s.window.value) × (1 ≤ s.turns.value) × (s.turns.value ≤ MOST_TURNS) × (s.patience.value ≤ MOST_PATIENCE) × (is_height s.height.value ≡ true) };
}

impl Settings {
    /// No line has set any: each has its default.
    pub(crate) fn new() -> Settings
        ensures { result ≡ default_settings }
    {
        Settings {
            batch: Setting::unset(Kind::Batch),
            window: Setting::unset(Kind::Window),
            interval: Setting::unset(Kind::Interval),
            seed: Setting::unset(Kind::Seed),
            turns: Setting::unset(Kind::Turns),
            patience: Setting::unset(Kind::Patience),
            height: Setting::unset(Kind::Height),
        }
    }

    /// What the lines so far set of this one.
    fn setting_of(self, kind: Kind) -> Setting
        ensures { result ≡ setting_of self kind }
    {
        match kind {
            Kind::Batch => self.batch,
            Kind::Window => self.window,
            Kind::Interval => self.interval,
            Kind::Seed => self.seed,
            Kind::Turns => self.turns,
            Kind::Patience => self.patience,
            Kind::Height => self.height,
        }
    }

    /// The settings with this one set.
    fn with_set(mut self, kind: Kind, setting: Setting) -> Settings
        requires within { (least_now self kind ≤ setting.value) × (setting.value ≤ greatest_now self kind) }
        requires allowed { is_allowed kind setting.value ≡ true }
        ensures { result ≡ with_set self kind setting }
    {
        match kind {
            Kind::Batch => self.batch = setting,
            Kind::Window => self.window = setting,
            Kind::Interval => self.interval = setting,
            Kind::Seed => self.seed = setting,
            Kind::Turns => self.turns = setting,
            Kind::Patience => self.patience = setting,
            Kind::Height => self.height = setting,
        }
        self
    }

    /// The least window that a line may still set: an interval that a line above set is to fit into it.
    fn least_window(self) -> u64
        ensures { result ≡ least_window self }
    {
        if self.interval.given {
            self.interval.value
        } else {
            Kind::Window.row().least
        }
    }

    /// The least number that a line may set.
    fn least_now(self, kind: Kind) -> u64
        ensures { result ≡ least_now self kind }
    {
        match kind {
            Kind::Window => self.least_window(),
            _ => kind.row().least,
        }
    }

    /// The greatest number that a line may set: an interval is no more than the window.
    fn greatest_now(self, kind: Kind) -> u64
        ensures { result ≡ greatest_now self kind }
    {
        match kind {
            Kind::Interval => self.window.value,
            _ => kind.row().greatest,
        }
    }

    /// The settings after the line of this one: just one word, which spells a number that may be set, and no line above set one.
    fn setting_line(self, kind: Kind, words: Words<'_>) -> Result<Settings, Why>
        ensures { result ≡ setting_line self kind (words_of words.entry.rest.now) }
    {
        let value = one_number(self.least_now(kind), self.greatest_now(kind), words)?;
        if !kind.allows(value) {
            return Err(Why::OutOfRange);
        }
        let setting = self.setting_of(kind).set_once(value)?;
        Ok(self.with_set(kind, setting))
    }

    /// The settings after a line, by its first word.
    pub(crate) fn setting_of_kind(self, kind: &[u8], words: Words<'_>) -> Result<Settings, Why>
        ensures { result ≡ setting_of_kind self kind.now (words_of words.entry.rest.now) }
    {
        match Kind::of_word(kind) {
            Some(kind) => self.setting_line(kind, words),
            None => Err(Why::BadWord),
        }
    }

    /// The interval in the end: what a line set, else the lesser of its default and the window.
    pub(crate) fn interval_of(self) -> u64
        ensures is { result ≡ interval_of self }
        ensures within { (1 ≤ result) × (result ≤ self.window.value) }
    {
        if self.interval.given {
            self.interval.value
        } else {
            self.interval.value.min(self.window.value)
        }
    }
}
