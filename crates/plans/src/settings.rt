// Settings (document 01, 'Who can cause a refusal', setup). A refusal gives no scalars: those before it stay.
ghost use Rattle.std.specs.Prelude.{◌≡◌};
ghost use Rattle.plans.specs.Settings.{set_planned, name_planned, closed_core};

use crate::state::Core;
use types::error::ProducerError;
use types::settings::{ProducerSettings, Setting};
use upkeep::settings::{allows, allows_name, closed_settings, name_from, with_setting};

impl Core {
    pub fn set_name(self, name: &[u8]) -> Result<Core, ProducerError>
        ensures { result ≡ name_planned name.now self }
    {
        if allows_name(name.len()) {
            let settings = ProducerSettings {
                name: name_from(name),
                ..self.settings
            };
            Ok(Core { settings, ..self })
        } else {
            Err(ProducerError::SettingOverBound)
        }
    }

    pub fn set(self, s: Setting) -> Result<Core, ProducerError>
        ensures { result ≡ set_planned s self }
    {
        if allows(s) {
            Ok(Core {
                settings: with_setting(self.settings, s),
                ..self
            })
        } else {
            Err(ProducerError::SettingOverBound)
        }
    }

    // For good.
    pub fn close(self) -> Core
        ensures { result ≡ closed_core self }
    {
        Core {
            settings: closed_settings(self.settings),
            ..self
        }
    }
}
