//! How a FIG contradicts the current configuration.

ghost use Rattle.std.specs.Prelude.{◌≡◌};
ghost use Rattle.fig_mentions.specs.declared.mention.Mention.TheVariants.{Nothing, Sub, Packet};
ghost use Rattle.fig_mentions.specs.declared.mention.Mention.TheVariants.{OnSub, ByPacket};
ghost use Rattle.stream_check.specs.Contradictions.{is_same, is_same_mention};

use fig_mentions::Mention;

/// A contradiction of a FIG that names sub-channels, packet components or components of services:
/// FIG 0/4, 0/5, 0/8, 0/14 or 0/19 of this ensemble, each by its number, 4 to 19 (EN 300 401
/// clauses 6.2.2, 6.3.3, 6.3.5, 8.1.2 and 8.1.6.2).
#[derive(Clone, Copy, Debug, PartialEq, Eq)]
pub enum Contradiction {
    /// An entry of a FIG of this extension names what is not in the current configuration.
    NotThere(u8, Mention),
    /// A FIG of this extension is not whole entries, or has none.
    NotWhole(u8),
}

impl Default for Contradiction {
    /// A FIG 0/0. It fills the unused slots of an array.
    fn default() -> Contradiction {
        Contradiction::NotWhole(0)
    }
}

/// Whether two contradictions are the same.
pub(crate) fn is_same(one: Contradiction, other: Contradiction) -> bool
    ensures { result ≡ is_same one other }
{
    match one {
        Contradiction::NotThere(ext, mention) => match other {
            Contradiction::NotThere(number, named) => {
                ext == number && is_same_mention(mention, named)
            }
            Contradiction::NotWhole(_) => false,
        },
        Contradiction::NotWhole(ext) => match other {
            Contradiction::NotThere(_, _) => false,
            Contradiction::NotWhole(number) => ext == number,
        },
    }
}

/// Whether two entries name the same.
fn is_same_mention(one: Mention, other: Mention) -> bool
    ensures { result ≡ is_same_mention one other }
{
    match one {
        Mention::Nothing => is_nothing(other),
        Mention::Sub(sub) => is_sub(sub, other),
        Mention::Packet(scid) => is_packet(scid, other),
        Mention::OnSub(sid, sub) => is_on_sub(sid, sub, other),
        Mention::ByPacket(sid, scid) => is_by_packet(sid, scid, other),
    }
}

/// Whether an entry names nothing.
fn is_nothing(mention: Mention) -> bool
    ensures { result ≡ is_same_mention Nothing mention }
{
    match mention {
        Mention::Nothing => true,
        Mention::Sub(_) | Mention::Packet(_) => false,
        Mention::OnSub(_, _) | Mention::ByPacket(_, _) => false,
    }
}

/// Whether an entry names this sub-channel.
fn is_sub(sub: u64, mention: Mention) -> bool
    ensures { result ≡ is_same_mention (Sub sub) mention }
{
    match mention {
        Mention::Sub(other) => sub == other,
        Mention::Nothing | Mention::Packet(_) => false,
        Mention::OnSub(_, _) | Mention::ByPacket(_, _) => false,
    }
}

/// Whether an entry names this packet component.
fn is_packet(scid: u64, mention: Mention) -> bool
    ensures { result ≡ is_same_mention (Packet scid) mention }
{
    match mention {
        Mention::Packet(other) => scid == other,
        Mention::Nothing | Mention::Sub(_) => false,
        Mention::OnSub(_, _) | Mention::ByPacket(_, _) => false,
    }
}

/// Whether an entry names the component of this service on this sub-channel.
fn is_on_sub(sid: u64, sub: u64, mention: Mention) -> bool
    ensures { result ≡ is_same_mention (OnSub sid sub) mention }
{
    match mention {
        Mention::OnSub(service, other) => sid == service && sub == other,
        Mention::Nothing | Mention::Sub(_) => false,
        Mention::Packet(_) | Mention::ByPacket(_, _) => false,
    }
}

/// Whether an entry names the component of this service with this SCId.
fn is_by_packet(sid: u64, scid: u64, mention: Mention) -> bool
    ensures { result ≡ is_same_mention (ByPacket sid scid) mention }
{
    match mention {
        Mention::ByPacket(service, other) => sid == service && scid == other,
        Mention::Nothing | Mention::Sub(_) => false,
        Mention::Packet(_) | Mention::OnSub(_, _) => false,
    }
}
