//! The keywords of the grammar.

/// Those of the header, in order.
pub(crate) const HEADER: [&str; 6] = ["ensemble", "mode", "period", "notice", "budget", "reserve"];

/// Those that begin items and definitions; some of them occur within others too.
pub(crate) const ITEMS: [&str; 7] = [
    "sub", "service", "audio", "data", "carry", "packet", "define",
];

/// Those that begin a statement and no item; `until` is also in `WAITS`.
pub(crate) const STATEMENTS: [&str; 12] = [
    "drop", "move", "rate", "wait", "commit", "join", "settle", "end", "if", "repeat", "forever",
    "apply",
];

/// Those with which a wait goes on.
pub(crate) const WAITS: [&str; 3] = ["until", "or", "early"];

/// The others.
pub(crate) const OTHERS: [&str; 19] = [
    "begin",
    "schedule",
    "overlay",
    "while",
    "and",
    "at",
    "eep",
    "in",
    "groups",
    "raw",
    "type",
    "address",
    "component",
    "contact",
    "closed",
    "open",
    "else",
    "time",
    "to",
];
