//! The edits that alter sub-channels that stay: another start address or rate.

ghost use Rattle.std.specs.Prelude.{◌≡◌, ◌++◌, OnOk};
ghost use Rattle.std.specs.List.{flat_map};
ghost use Rattle.mux_config.specs.Configuration.{IsPlaced};
ghost use Rattle.mux_config.specs.Edits.{sub_at};
ghost use Rattle.script_config.specs.Differences.{start_altered, rate_altered, alterations};
ghost use Rattle.script_config.specs.Differences.{sub_altered};

use crate::list::put_copy;
use crate::removals::has_same_profile;
use mux_config::{Config, Edit, StartAddress, Store, Sub};
use std::alloc::AllocError;

/// The edit that moves a sub-channel to the start address of the other one, if that differs.
fn move_sub(edits: &mut Vec<Edit>, sub: &Sub, other: &Sub) -> Result<(), AllocError>
    requires { IsPlaced other.now }
    ensures { OnOk result (edits.new.items ≡ edits.old.items
        ++ start_altered sub.now other.now) }
{
    if sub.start == other.start {
        return Ok(());
    }
    let start = StartAddress::new(other.start).unwrap();
    let id = other.id;
    put_copy(edits, Edit::MoveSub { id, start })
}

/// The edit that sets the rate of a sub-channel to that of the other one, if that differs.
fn rate_sub(edits: &mut Vec<Edit>, sub: &Sub, other: &Sub) -> Result<(), AllocError>
    ensures { OnOk result (edits.new.items ≡ edits.old.items ++ rate_altered sub.now other.now) }
{
    if sub.kbits == other.kbits {
        return Ok(());
    }
    let id = other.id;
    let kbits = other.kbits;
    put_copy(edits, Edit::RateSub { id, kbits })
}

/// The edits that turn a sub-channel into the other one, which has the same profile. A lower rate
/// is set before the move, any other after it, so that the sub-channel never extends past the last
/// capacity unit in between.
fn alter(edits: &mut Vec<Edit>, sub: &Sub, other: &Sub) -> Result<(), AllocError>
    requires { IsPlaced other.now }
    ensures { OnOk result (edits.new.items ≡ edits.old.items ++ alterations sub.now other.now) }
{
    if other.kbits < sub.kbits {
        rate_sub(edits, sub, other)?;
        return move_sub(edits, sub, other);
    }
    move_sub(edits, sub, other)?;
    rate_sub(edits, sub, other)
}

/// The edits that alter the sub-channels that the other configuration has with the same protection
/// profile.
pub(crate) fn alter_subs(edits: &mut Vec<Edit>, subs: &[Sub], to: &Config) -> Result<(), AllocError>
    ensures { OnOk result (edits.new.items ≡ edits.old.items
        ++ flat_map (λ s. sub_altered (sub_at s.id to.now) s) subs.now) }
{
    for sub in subs {
        if let Some(other) = to.sub(sub.id) {
            if has_same_profile(sub, &other) {
                alter(edits, sub, &other)?;
            }
        }
    }
    Ok(())
}
