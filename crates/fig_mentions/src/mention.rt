//! What an entry of a FIG names.

/// What an entry names of a configuration. A service is given by its SId, and to one of 32 bits
/// 65,536 is added.
#[derive(Clone, Copy, Debug, PartialEq, Eq)]
pub enum Mention {
    /// Nothing of a configuration: a channel of the FIC.
    Nothing,
    /// The sub-channel of this SubChId, 0 to 63.
    Sub(u64),
    /// The packet component of this SCId, 0 to 4095.
    Packet(u64),
    /// The component of this service on this sub-channel.
    OnSub(u64, u64),
    /// The component of this service with this SCId.
    ByPacket(u64, u64),
}
