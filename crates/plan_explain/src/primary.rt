//! Services whose first component, the primary one, is another one in a later configuration.

ghost use Rattle.std.specs.Prelude.{◌≡◌, ◌++◌, ◌∷◌, [], IfOk, OnOk};
ghost use Rattle.std.specs.List.{flat_map};
ghost use Rattle.mux_types.specs.Sameness.{is_same_sid, is_same_component};
ghost use Rattle.plan_explain.specs.Primaries.{is_alone, other_first, other_primary, primaries_of};
ghost use Rattle.plan_explain.specs.Primaries.{primaries};

use crate::list::push;
use mux_config::{Component, Config, Service, Sid};
use std::alloc::{AllocError, Global};

/// A service with another first component than before, which is its primary one (EN 300 401 clause
/// 6.3.1).
#[derive(Clone, Copy, PartialEq, Eq)]
pub struct Primary {
    /// The service.
    pub sid: Sid,
    /// Its first component before.
    pub before: Component,
    /// Its first component now.
    pub after: Component,
}

/// Whether two SIds are the same.
pub(crate) fn is_same_sid(a: Sid, b: Sid) -> bool
    ensures { result ≡ is_same_sid a b }
{
    a == b
}

/// Whether two components are the same.
pub(crate) fn is_same_component(a: Component, b: Component) -> bool
    ensures { result ≡ is_same_component a b }
{
    a == b
}

/// Appends the first components of a service before and now, if it has both and they differ.
fn push_other_first(
    primaries: &mut Vec<Primary>,
    sid: Sid,
    before: &[Component],
    now: &[Component],
) -> Result<(), AllocError>
    ensures { OnOk result (primaries.new.items ≡ primaries.old.items ++ other_first sid before.now
        now.now) }
{
    let (Some(first), Some(other)) = (before.first(), now.first()) else {
        return Ok(());
    };
    if is_same_component(*first, *other) {
        return Ok(());
    }
    push(
        primaries,
        Primary {
            sid,
            before: *first,
            after: *other,
        },
    )
}

/// Whether a component is the only one.
fn is_alone(components: &[Component]) -> bool
    ensures { result ≡ is_alone components.now }
{
    match components {
        [_one] => true,
        _ => false,
    }
}

/// Appends a service whose first component is another one than before, if this was the same service
/// then.
fn push_other_primary(
    primaries: &mut Vec<Primary>,
    service: &Service,
    before: &Service,
) -> Result<(), AllocError>
    ensures { OnOk result (primaries.new.items ≡ primaries.old.items ++ other_primary service.now
        before.now) }
{
    if !is_same_sid(before.sid, service.sid) {
        return Ok(());
    }
    if is_alone(before.components.as_slice()) && is_alone(service.components.as_slice()) {
        return Ok(());
    }
    push_other_first(
        primaries,
        service.sid,
        before.components.as_slice(),
        service.components.as_slice(),
    )
}

/// Appends a service whose first component is another one than in one of these services, if it is
/// one of them.
fn push_primaries_of(
    primaries: &mut Vec<Primary>,
    service: &Service,
    before: &[Service],
) -> Result<(), AllocError>
    ensures { OnOk result (primaries.new.items ≡ primaries.old.items ++ primaries_of before.now
        service.now) }
{
    for earlier in before {
        push_other_primary(primaries, service, earlier)?;
    }
    Ok(())
}

/// The services of two configurations whose first component differs, from the earlier to the later
/// one.
pub(crate) fn primaries_of(
    alloc: Global,
    before: &Config,
    after: &Config,
) -> Result<Vec<Primary>, AllocError>
    ensures { IfOk result (λ v. v.items ≡ primaries before.now after.now) }
{
    let mut primaries = Vec::new(alloc);
    for service in after.services() {
        push_primaries_of(&mut primaries, service, before.services())?;
    }
    Ok(primaries)
}
