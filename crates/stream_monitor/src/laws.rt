//! Laws of all streams. Each law is a function that does nothing; its contract is the law.

ghost use Rattle.stream_monitor.specs.Outcomes.{OneFraming, OneOutcome};

/// The law of framing: a stream of FIBs is cut into frames in one way.
pub fn framing()
    ensures { OneFraming }
{}

/// The law of outcomes: a check of a stream has the same lines each time, and ends in one way.
pub fn outcomes()
    ensures { OneOutcome }
{}
