ghost use Rattle.std.specs.Prelude.{◌≡◌};
ghost use Rattle.wp_model.specs.Versions.{AreInOrder};

use crate::version::Version;
use std::marker::Model;

/// A list of versions in the order of their keys, of one key the newest first. No two have the same key and number.
pub struct Versions {
    versions: Vec<Version>,
}

impl Model for Versions {
    ghost use Rattle.std.specs.Prelude.{List};
    ghost use Rattle.wp_model.specs.declared.version.Version.{Version};
    ghost use Rattle.wp_model.specs.Versions.{AreInOrder};

    ghost Value = { List Version };

    ghost view = { λ v. v.versions.items };

    ghost invariant = { λ v. AreInOrder v.versions.items };
}

impl Versions {
    pub fn of(versions: Vec<Version>) -> Versions
        requires { AreInOrder versions.items }
        ensures { result ≡ versions.items }
    {
        Versions { versions }
    }

    pub fn as_slice(&self) -> &[Version]
        ensures value { result.now ≡ self.now }
        ensures in_order { AreInOrder self.now }
    {
        &self.versions
    }

    /// The list, in the memory that it has.
    pub fn into_vec(self) -> Vec<Version>
        ensures value { result.items ≡ self }
        ensures in_order { AreInOrder self }
    {
        let Versions { versions } = self;
        versions
    }
}

// Written out, so that no crate above proves anew how all that it holds is let go.
impl Drop for Versions {
    fn drop(self) {
        let Self {
            versions: _versions,
        } = self;
    }
}
