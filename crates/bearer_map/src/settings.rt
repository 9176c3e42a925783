// Settings of a session.
ghost use Rattle.std.specs.Prelude.{◌≡◌, true, is_some};
ghost use Rattle.bearer_map.specs.Settings.{is_setting, choice_of, choose, no_choice, settings_of};

/// Which setting.
#[derive(Clone, Copy, Debug, PartialEq, Eq)]
pub enum SetName {
    /// How many SDUs an egress queue of the relay holds at most.
    Queue,
    /// After how many SDUs handed up a receiver on the relay path reports.
    Report,
    /// pollPDU (TS 38.322 clause 5.3.3).
    PollPdu,
    /// pollByte (TS 38.322 clause 5.3.3).
    PollByte,
    /// maxRetxThreshold (TS 38.322 clause 5.3.2).
    MaxRetx,
}

/// The settings of a session.
#[derive(Clone, Copy, Debug, PartialEq, Eq)]
pub struct Settings {
    /// How many SDUs an egress queue of the relay holds at most, from 1 to 1,024; 64 where nothing is set.
    pub queue: u32,
    /// After how many SDUs handed up a receiver on the relay path reports, from 1 to 65,536, or 0 for never; 512 where
    /// nothing is set.
    pub report: u32,
    /// pollPDU (TS 38.322 clause 5.3.3), from 1 to 65,536, or 0 for never; 32 where nothing is set.
    pub poll_pdu: u32,
    /// pollByte (TS 38.322 clause 5.3.3), from 1 to 16,777,216, or 0 for never; 0 where nothing is set.
    pub poll_byte: u32,
    /// maxRetxThreshold (TS 38.322 clause 5.3.2), from 1 to 255; 32 where nothing is set.
    pub max_retx: u8,
}

/// The settings that were given.
#[derive(Clone, Copy, Debug)]
pub(crate) struct Choices {
    queue: Option<u32>,
    report: Option<u32>,
    poll_pdu: Option<u32>,
    poll_byte: Option<u32>,
    max_retx: Option<u8>,
}

impl Choices {
    /// None is given.
    pub(crate) fn new() -> Self
        ensures { result ≡ no_choice }
    {
        Choices {
            queue: None,
            report: None,
            poll_pdu: None,
            poll_byte: None,
            max_retx: None,
        }
    }

    /// Whether this setting is given.
    pub(crate) fn has(&self, name: SetName) -> bool
        ensures { result ≡ is_some (choice_of name self.now) }
    {
        match name {
            SetName::Queue => self.queue.is_some(),
            SetName::Report => self.report.is_some(),
            SetName::PollPdu => self.poll_pdu.is_some(),
            SetName::PollByte => self.poll_byte.is_some(),
            SetName::MaxRetx => self.max_retx.is_some(),
        }
    }

    /// Gives a setting.
    pub(crate) fn choose(&mut self, name: SetName, value: u32)
        requires { is_setting name value ≡ true }
        ensures { self.new ≡ choose name value self.old }
    {
        match name {
            SetName::Queue => self.queue = Some(value),
            SetName::Report => self.report = Some(value),
            SetName::PollPdu => self.poll_pdu = Some(value),
            SetName::PollByte => self.poll_byte = Some(value),
            SetName::MaxRetx => self.max_retx = Some(value as u8),
        }
    }

    /// The settings given, and the others as they are where nothing is set.
    pub(crate) fn settings(&self) -> Settings
        ensures { result ≡ settings_of self.now }
    {
        Settings {
            queue: self.queue.unwrap_or(64),
            report: self.report.unwrap_or(512),
            poll_pdu: self.poll_pdu.unwrap_or(32),
            poll_byte: self.poll_byte.unwrap_or(0),
            max_retx: self.max_retx.unwrap_or(32),
        }
    }
}

impl SetName {
    /// Whether a value lies in the setting's range.
    pub(crate) fn admits(self, value: u32) -> bool
        ensures { result ≡ is_setting self value }
    {
        match self {
            SetName::Queue => (1..=1_024).contains(&value),
            SetName::Report | SetName::PollPdu => value <= 65_536,
            SetName::PollByte => value <= 16_777_216,
            SetName::MaxRetx => (1..=255).contains(&value),
        }
    }
}
