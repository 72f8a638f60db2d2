//! Theory of the streams in which `stream_check` finds no fault (EN 300 401 clause 6.5).
//! The laws say what such a stream sends and announces to a receiver, that the streams of typed
//! codes have no fault, and that a checker reports none in their bytes.
//!
//! `specs/Faultless.antt` defines a stream without a fault. The functions of `laws` do nothing:
//! their contracts are the laws.
#![tactic(auto)]

pub mod laws;
