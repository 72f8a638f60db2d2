//! The change flags of a reconfiguration.

ghost use Rattle.std.specs.Prelude.{◌≡◌, ◌≤◌};
ghost use Rattle.mux_config.specs.Change.{bits_of};

/// Which organizations of the multiplex a reconfiguration changes (EN 300 401 clause 6.4, change
/// flags).
#[derive(Clone, Copy, Debug, PartialEq, Eq)]
pub struct Change {
    /// The sub-channel organization, FIG 0/1.
    pub subs: bool,
    /// The service organization, FIG 0/2 and FIG 0/3.
    pub services: bool,
}

impl Change {
    /// The change flags as FIG 0/0 carries them, 0 to 3: 1 for the sub-channel organization, 2 for
    /// the service organization (EN 300 401 clause 6.4).
    pub fn bits(self) -> u8
        ensures value { result ≡ bits_of self }
        ensures in_range { result ≤ 3 }
    {
        u8::from(self.subs) + 2 * u8::from(self.services)
    }
}
