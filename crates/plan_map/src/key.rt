//! The key of a map: which sub-channels carry the components of each service.

use crate::rows::Row;
use mux_config::{Component, Config, Service, Sid, Store, SubId};
use std::alloc::{AllocError, Global};

/// A service, and a sub-channel that carries one of its components.
#[derive(Clone, Copy, Debug, PartialEq, Eq)]
pub struct Use {
    /// The service.
    pub sid: Sid,
    /// The sub-channel.
    pub sub: SubId,
}

/// The sub-channel that carries a component: that of its packet component in packet mode. `None` if
/// that does not exist.
fn sub_of(config: &Config, component: Component) -> Option<SubId> {
    match component {
        Component::Sound { ty: _, sub } => Some(sub),
        Component::Stream { ty: _, sub } => Some(sub),
        Component::Packet { scid } => config.packet(scid).map(|packet| packet.sub),
    }
}

/// Whether one of these components of a configuration is carried by a sub-channel.
pub fn is_carried_by(config: &Config, components: &[Component], sub: SubId) -> bool {
    components
        .iter()
        .any(|component| sub_of(config, *component) == Some(sub))
}

/// Adds the sub-channels of a service that the key does not have yet.
fn add_service(key: &mut Vec<Use>, config: &Config, service: &Service) -> Result<(), AllocError> {
    let sid = service.sid;
    for component in service.components.as_slice() {
        if let Some(sub) = sub_of(config, *component) {
            let entry = Use { sid, sub };
            if !key.as_slice().contains(&entry) {
                key.extend_from_slice(&[entry])?;
            }
        }
    }
    Ok(())
}

/// The key of these rows: each service of any of them with each sub-channel that carries a
/// component of it there, in the order of their first rows.
///
/// # Errors
///
/// Out of memory.
pub fn key_of(alloc: Global, rows: &[Row]) -> Result<Vec<Use>, AllocError> {
    let mut key = Vec::new(alloc);
    for row in rows {
        for service in row.config.services() {
            add_service(&mut key, &row.config, service)?;
        }
    }
    Ok(key)
}
