//! What a check reads from and reports to, as a trait.

use crate::check::CheckFailure;
use crate::fibs::Next;
use crate::line::Totals;
use crate::options::CheckOptions;
use stream_check::Finding;

/// The stream that a check reads, FIB by FIB, and those who are told what it finds, at once.
pub trait Monitor {
    ghost use Rattle.std.specs.Prelude.{◌≡◌, [], ◌∷◌, ℕ, List, Option, None, IfOk, OnOk};
    ghost use Rattle.stream_check.specs.Frames.{Reading};
    ghost use Rattle.stream_monitor.specs.Log.{Log, Gives, IsLog, IsPrompt, LogsLines, LogsNext};
    ghost use Rattle.stream_monitor.specs.declared.line.Line.TheVariants.{Found, Alive};

    /// The bytes that the stream has left, if known.
    ghost left: { Self → Option (List ℕ) };

    /// What the check was given and has told so far, if that is kept.
    ghost log: { Self → Option Log } = { λ _. None };

    /// A check with these options begins.
    fn start(&mut self, options: CheckOptions)
        ensures left { left self.new ≡ left self.old }
        ensures log { IsLog options [] [] (log self.new) };

    /// The next FIB of the stream. Whenever one is requested, all findings in the frames that the
    /// FIBs before it decide were told, and the totals that were due, and nothing else.
    ///
    /// `Read` if the stream can't be read; `Write` if what was told can't be handed on.
    fn next(&mut self) -> Result<Next, CheckFailure>
        requires prompt { (r : Reading) → IsPrompt r (log self.old) }
        ensures left { IfOk result (Gives (left self.old) (left self.new)) }
        ensures log { IfOk result (LogsNext (log self.old) (log self.new)) };

    /// Tells a finding in a stream of which this many FIBs are skipped, before frame 0. `Write` if
    /// it can't be handed on.
    fn found(&mut self, finding: &Finding, skipped: u64) -> Result<(), CheckFailure>
        ensures left { left self.new ≡ left self.old }
        ensures log { OnOk result (LogsLines (log self.old) (log self.new)
            (Found finding.now ∷ [])) };

    /// Tells the totals so far, as a sign of life. `Write` if they can't be handed on.
    fn alive(&mut self, totals: &Totals) -> Result<(), CheckFailure>
        ensures left { left self.new ≡ left self.old }
        ensures log { OnOk result (LogsLines (log self.old) (log self.new)
            (Alive totals.now ∷ [])) };
}
