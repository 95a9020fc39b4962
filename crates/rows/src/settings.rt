// What the owner of a producer sets.
ghost use Rattle.std.specs.Prelude.{◌≡◌};
ghost use Rattle.rows.specs.Settings.{decode_switches, decode_delays, decode_settings};

use crate::optional::OptionalU64;
use types::frame::ProducerName;
use types::settings::{Delays, Limits, ProducerSettings, Switches};

// On where it is not 0.
#[derive(Clone, Copy)]
#[repr(C)]
pub struct SwitchesRow {
    pub batching_enabled: u8,
    pub chunking_enabled: u8,
    pub broker_ready: u8,
    pub closed: u8,
}

#[derive(Clone, Copy)]
#[repr(C)]
pub struct DelaysRow {
    pub send_timeout: OptionalU64,
    pub batching_max_publish_delay: OptionalU64,
}

#[derive(Clone, Copy)]
#[repr(C)]
pub struct SettingsRow {
    pub name: ProducerName,
    pub limits: Limits,
    pub switches: SwitchesRow,
    pub delays: DelaysRow,
}

impl SwitchesRow {
    pub fn decode(self) -> Switches
        ensures { result ≡ decode_switches self }
    {
        Switches {
            batching_enabled: self.batching_enabled != 0,
            chunking_enabled: self.chunking_enabled != 0,
            broker_ready: self.broker_ready != 0,
            closed: self.closed != 0,
        }
    }

    pub fn encode(s: Switches) -> SwitchesRow
        ensures { decode_switches result ≡ s }
    {
        SwitchesRow {
            batching_enabled: s.batching_enabled as u8,
            chunking_enabled: s.chunking_enabled as u8,
            broker_ready: s.broker_ready as u8,
            closed: s.closed as u8,
        }
    }
}

impl DelaysRow {
    pub fn decode(self) -> Delays
        ensures { result ≡ decode_delays self }
    {
        Delays {
            send_timeout: self.send_timeout.decode(),
            batching_max_publish_delay: self.batching_max_publish_delay.decode(),
        }
    }

    pub fn encode(d: Delays) -> DelaysRow
        ensures { decode_delays result ≡ d }
    {
        DelaysRow {
            send_timeout: OptionalU64::encode(d.send_timeout),
            batching_max_publish_delay: OptionalU64::encode(d.batching_max_publish_delay),
        }
    }
}

impl SettingsRow {
    pub fn decode(self) -> ProducerSettings
        ensures { result ≡ decode_settings self }
    {
        ProducerSettings {
            name: self.name,
            limits: self.limits,
            switches: self.switches.decode(),
            delays: self.delays.decode(),
        }
    }

    pub fn encode(s: ProducerSettings) -> SettingsRow
        ensures { decode_settings result ≡ s }
    {
        SettingsRow {
            name: s.name,
            limits: s.limits,
            switches: SwitchesRow::encode(s.switches),
            delays: DelaysRow::encode(s.delays),
        }
    }
}
