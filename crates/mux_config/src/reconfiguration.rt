//! Which of the two organizations a reconfiguration changes.

ghost use Rattle.std.specs.Prelude.{◌≡◌};
ghost use Rattle.mux_types.specs.Configuration.{IsConfiguration};
ghost use Rattle.mux_config.specs.Change.{IsChange, change_of, has_same_subs, has_same_services};
ghost use Rattle.mux_types.specs.Sameness.{is_same_service, is_same_packet, is_same_list};

use crate::flags::Change;
use crate::store::Store;
use mux_types::sameness::{is_same_packet, is_same_service, is_same_sub};

/// What a reconfiguration from one configuration to the next changes: the sub-channel organization
/// if their entries of FIG 0/1 differ, the service organization if those of FIG 0/2 or 0/3 differ
/// (EN 300 401 clauses 6.4 and 6.5).
pub fn change<S: Store>(current: &S, next: &S) -> Change
    ensures value { result ≡ change_of (S.content current.now) (S.content next.now) }
    ensures entries_differ { IsChange (S.content current.now) (S.content next.now) result }
{
    Change {
        subs: !has_same_subs(current, next),
        services: !has_same_services(current, next),
    }
}

/// Whether two stores hold the same sub-channels.
pub fn has_same_subs<S: Store, T: Store>(current: &S, next: &T) -> bool
    ensures value { result ≡ has_same_subs (S.content current.now) (T.content next.now) }
    ensures current { IsConfiguration (S.content current.now) }
    ensures next { IsConfiguration (T.content next.now) }
{
    if current.sub_count() != next.sub_count() {
        return false;
    }
    for place in 0..current.sub_count() {
        if !is_same_sub(current.sub_at(place), next.sub_at(place)) {
            return false;
        }
    }
    true
}

/// Whether two stores hold the same services, with the same components in the same order, and the
/// same packet components.
pub fn has_same_services<S: Store, T: Store>(current: &S, next: &T) -> bool
    ensures { result ≡ has_same_services (S.content current.now) (T.content next.now) }
{
    has_same_service_set(current, next) && has_same_packet_set(current, next)
}

/// Whether two stores hold the same services, with the same components.
fn has_same_service_set<S: Store, T: Store>(current: &S, next: &T) -> bool
    ensures { let c = S.content current.now in let d = T.content next.now in
        result ≡ is_same_list is_same_service c.services d.services }
{
    if current.service_count() != next.service_count() {
        return false;
    }
    for place in 0..current.service_count() {
        if !is_same_service(current.service_at(place), next.service_at(place)) {
            return false;
        }
    }
    true
}

/// Whether two stores hold the same packet components.
fn has_same_packet_set<S: Store, T: Store>(current: &S, next: &T) -> bool
    ensures { let c = S.content current.now in let d = T.content next.now in
        result ≡ is_same_list is_same_packet c.packets d.packets }
{
    if current.packet_count() != next.packet_count() {
        return false;
    }
    for place in 0..current.packet_count() {
        if !is_same_packet(current.packet_at(place), next.packet_at(place)) {
            return false;
        }
    }
    true
}
