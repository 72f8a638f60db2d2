//! A law of the lines of all bytes.

ghost use Rattle.console.specs.Lines.{BytesHaveLines};

/// Bytes have exactly one list of lines, each of which ends before a line feed, except that the
/// last one may end with the bytes, if it is not empty. The function does nothing; its contract is
/// the law.
pub fn lines()
    ensures { BytesHaveLines }
{}
