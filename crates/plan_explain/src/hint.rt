//! Explains a refused statement by its cause: a sentence; corrections, changes of its text that are
//! tried in turn; and advice, where none of them helps.

use crate::difference::{Difference, first_differing};
use crate::edits::{hint_on_config, hint_on_edit};
use crate::fact::{Fact, pages_alone, pages_of};
use crate::note::Note;
use crate::sentence::{put_plain, put_refused};
use crate::stop::{Stop, cause_of};
use crate::trier::{Braces, Trier};
use crate::words::{Part, put_part};
use fib_codec::FrameLayout;
use mux_config::{Config, Store};
use plan_code::{Instr, Plan, Swap};
use plan_verifier::Cause;
use plan_verifier::flow::{is_idle, is_same};
use std::alloc::{AllocError, Global};
use std::io::{self, Write};

/// Writes the line of the commit by which a swap is pending, if it is known.
fn put_commit(trier: &Trier, out: &mut Vec<u8>) -> io::Result<()> {
    match trier.commit {
        Some(line) => write!(out, ", by the commit in line {line}"),
        None => Ok(()),
    }
}

/// Explains an instruction before which a swap is pending.
fn explain_pending(trier: &mut Trier, pending: Swap, out: &mut Vec<u8>) -> io::Result<()> {
    put_part(Part::Swap(pending), out)?;
    put_commit(trier, out)?;
    out.write_all(b"; until then the next configuration stays as it is")?;
    trier.put("join")?;
    trier.put("settle")?;
    if let Some(line) = trier.commit {
        write!(
            &mut trier.advice,
            "'join' after the commit in line {line}, or "
        )?;
    }
    trier.advice.write_all(b"'settle' before this line")
}

/// Explains a commit with too short a delay, or at a count on which no swap falls.
fn explain_commit(
    trier: &mut Trier,
    plan: &Plan,
    instr: Option<Instr>,
    out: &mut Vec<u8>,
) -> io::Result<()> {
    let notice = plan.notice;
    match &instr {
        Some(Instr::CommitIn(delay)) => {
            let delay = delay.get();
            write!(
                out,
                "the swap would come after {delay} frames; the notice is {notice} frames"
            )?;
            let words = format!(in trier.alloc; "commit in {notice}")?;
            trier.write(words.as_str())?;
            write!(&mut trier.advice, "'{words}' or more")
        }
        Some(Instr::CommitAt(count)) => {
            let step = plan.layout.mode().step();
            let near = count % 5000;
            write!(
                out,
                "no swap falls on count {count}: in this mode swaps fall on the multiples of \
                 {step} from 0 to 4999"
            )?;
            let near = near.saturating_sub(near % step.max(1));
            let words = format!(in trier.alloc; "commit at {near}")?;
            trier.write(words.as_str())?;
            write!(
                &mut trier.advice,
                "'{words}', which leaves the whole notice of {notice} frames before it"
            )
        }
        _ => Ok(()),
    }
}

/// Explains a `join` where no swap is pending, or where it may have come.
fn explain_join(trier: &mut Trier, pending: Swap, out: &mut Vec<u8>) -> io::Result<()> {
    if let Swap::Perhaps(_) = pending {
        trier.write("settle")?;
        let advice = b"'settle' waits for it only where it is still to come";
        trier.advice.write_all(advice)?;
        return out.write_all(b"the swap may have come already, so that none is pending");
    }
    trier.leave_out()?;
    let advice = b"leave it out, or 'commit' before it";
    trier.advice.write_all(advice)?;
    out.write_all(b"no swap is pending here, so that there is none to wait for")
}

/// Explains a wait that may end before the swap or after it.
fn explain_wait(trier: &mut Trier, stop: &Stop, out: &mut Vec<u8>) -> io::Result<()> {
    let instr = stop.instr();
    let (Some(Instr::Wait(frames)), Swap::Within(low, high)) = (&instr, stop.here.pending) else {
        return Ok(());
    };
    let (frames, shorter) = (frames.get(), low.saturating_sub(1));
    write!(
        out,
        "after {frames} frames the swap has come or not, as the count allows: it comes after {low} \
         to {high} frames"
    )?;
    put_commit(trier, out)?;
    for frames in [high, shorter] {
        let words = format!(in trier.alloc; "wait {frames}")?;
        trier.write(words.as_str())?;
    }
    trier.write("join")?;
    if low > 1 {
        write!(&mut trier.advice, "'wait {shorter}' or less, ")?;
    }
    write!(&mut trier.advice, "'wait {high}' or more, or 'join'")
}

/// Corrections of a header whose period or notice is too small: at least these.
fn try_header(
    trier: &mut Trier,
    plan: &Plan,
    period: usize,
    notice: usize,
) -> Result<(), AllocError> {
    let first = trier.header_spot("period", plan.period)?;
    let second = trier.header_spot("notice", plan.notice)?;
    let (Some(one), Some(other)) = (first, second) else {
        return Ok(());
    };
    let period = format!(in trier.alloc; "period {period}")?;
    let notice = format!(in trier.alloc; "notice {notice}")?;
    trier.write_at(first, period.as_str())?;
    trier.write_at(second, notice.as_str())?;
    trier.write_both(one, period.as_str(), other, notice.as_str())
}

/// Explains an opening whose pages take longer than the period.
fn explain_opening(trier: &mut Trier, stop: &Stop, out: &mut Vec<u8>) -> io::Result<()> {
    let plan = &stop.plan;
    let (count, period) = (pages_alone(plan.layout, &stop.here.next), plan.period);
    write!(
        out,
        "the configuration takes {count} pages, a frame each; the period is {period} frames"
    )?;
    if let Some(whole) = put_reserve(plan.layout, out)? {
        let fewer = pages_alone(whole, &stop.here.next);
        write!(out, "the configuration takes {fewer} pages")?;
    }
    try_header(trier, plan, count, usize::from(plan.notice))?;
    write!(&mut trier.advice, "a period of {count}, or fewer entries")
}

/// Writes which FIBs of a frame are left for pages, if some are reserved; the layout without that.
fn put_reserve(layout: FrameLayout, out: &mut Vec<u8>) -> io::Result<Option<FrameLayout>> {
    let (reserve, used, fibs) = (layout.reserve(), layout.used(), layout.fibs());
    if reserve == 0 {
        return Ok(None);
    }
    write!(
        out,
        "; 'reserve {reserve}' leaves {used} of the {fibs} FIBs of a frame: without it "
    )?;
    Ok(Some(FrameLayout::Whole(layout.mode())))
}

/// Explains a commit whose pages take longer than the period or the notice.
fn explain_round(trier: &mut Trier, stop: &Stop, out: &mut Vec<u8>) -> io::Result<()> {
    let counts = pages_of(stop.plan.layout, &stop.here);
    put_plain(&Fact::Pages(counts), stop, out)?;
    if let Some(whole) = put_reserve(stop.plan.layout, out)? {
        let fewer = pages_of(whole, &stop.here);
        let (current, next, both) = (fewer.current, fewer.next, fewer.both);
        write!(out, "they take {current}, {next} and {both} pages")?;
    }
    let (least, thrice) = (counts.both.max(counts.next), counts.both.saturating_mul(3));
    try_header(trier, &stop.plan, least, thrice)?;
    write!(
        &mut trier.advice,
        "a period of {least} or more, and a notice of {thrice} or more, which is three times both; \
         or fewer entries"
    )
}

/// Explains a refused instruction or opening by facts about it: why it is refused, corrections, and
/// advice for where none of them helps.
pub(crate) fn explain_known(
    trier: &mut Trier,
    stop: &Stop,
    facts: &[Fact],
    note: &mut Note,
) -> io::Result<()> {
    let (config, pending) = (&stop.here.next, stop.here.pending);
    let (cause, out) = (cause_of(stop.refused), &mut note.text);
    if let Cause::Edit(_) | Cause::Config(_) = cause {
        put_refused(trier, stop, facts.first(), out)?;
    }
    match (cause, stop.instr(), facts.first()) {
        (Cause::Edit(fault), Some(Instr::Edit(edit)), _) => {
            hint_on_edit(trier, config, &edit, fault)
        }
        (Cause::Config(_), _, Some(fact)) => hint_on_config(trier, config, fact),
        (Cause::Edit(_) | Cause::Config(_), _, _) => Ok(()),
        (Cause::Pending, _, _) => explain_pending(trier, pending, out),
        (Cause::NoChange, _, _) => {
            out.write_all(b"nothing differs: the next configuration is the current one")?;
            trier.leave_out()?;
            let advice = b"leave the commit out, or edit before it";
            trier.advice.write_all(advice)
        }
        (Cause::Notice | Cause::Count, instr, _) => explain_commit(trier, &stop.plan, instr, out),
        (Cause::JoinIdle, _, _) => explain_join(trier, pending, out),
        (Cause::SwapUncertain, _, _) => explain_wait(trier, stop, out),
        (Cause::Round, None, _) => explain_opening(trier, stop, out),
        (Cause::Round, Some(_), _) => explain_round(trier, stop, out),
        _ => out.write_all(b"the instruction is not allowed here"),
    }
}

/// The edits that undo the first difference of a configuration from what it was, if it is one of a
/// sub-channel's start or rate.
fn undoing(alloc: Global, now: &Config, before: &Config) -> Result<Option<String>, AllocError> {
    let difference = first_differing(now, before);
    let Some(Difference::Sub(id)) = &difference else {
        return Ok(None);
    };
    let (Some(now), Some(before)) = (now.sub(*id), before.sub(*id)) else {
        return Ok(None);
    };
    let (id, start, kbits) = (id.get(), before.start, before.kbits);
    if now.protection != before.protection {
        return Ok(None);
    }
    let words = if now.start == start {
        format!(in alloc; "rate sub {id} {kbits}")?
    } else if now.kbits == kbits {
        format!(in alloc; "move sub {id} at {start}")?
    } else {
        format!(in alloc; "move sub {id} at {start}; rate sub {id} {kbits}")?
    };
    Ok(Some(words))
}

/// Corrections of a loop that ends with other configurations than it begins with: undoing at its
/// end what it did.
fn try_undoing(trier: &mut Trier, braces: &Braces, stop: &Stop) -> Result<(), AllocError> {
    let (end, beginning) = (&stop.here, &stop.other);
    let Some(edits) = undoing(trier.alloc, &end.next, &beginning.next)? else {
        return Ok(());
    };
    if is_idle(end.pending) && is_same(&end.current, &beginning.current) {
        return trier.put_at(Some(braces.last), edits.as_str());
    }
    let wait = match end.pending {
        Swap::Idle => "",
        Swap::Within(_, _) => "join; ",
        Swap::Perhaps(_) => "settle; ",
    };
    let notice = stop.plan.notice;
    let whole = format!(in trier.alloc; "{wait}{edits}; commit in {notice}; join")?;
    trier.put_at(Some(braces.last), whole.as_str())
}

/// Corrections of a loop whose body does not come back to what was known: waiting for the swap
/// before it, at its end, or both; and undoing what it did.
fn try_loop(trier: &mut Trier, braces: &Braces, stop: &Stop) -> Result<(), AllocError> {
    let mut is_pending = false;
    let ends = [
        (braces.first, stop.other.pending),
        (braces.last, stop.here.pending),
    ];
    for (spot, pending) in ends {
        if !is_idle(pending) {
            is_pending = true;
            trier.put_at(Some(spot), "join")?;
            trier.put_at(Some(spot), "settle")?;
        }
    }
    if is_pending {
        trier.put_both(braces, "settle")?;
    }
    try_undoing(trier, braces, stop)
}

/// Advises on a loop of these lines whose body does not come back to what was known.
fn advise_loop(
    stop: &Stop,
    fact: Option<&Fact>,
    (first, last): (usize, usize),
    out: &mut Vec<u8>,
) -> io::Result<()> {
    let Some(Fact::OtherSwap) = fact else {
        return write!(
            out,
            "undo before line {last} what the loop did, then 'commit' and 'join'; or do it before \
             line {first}"
        );
    };
    let word = match stop.other.pending {
        Swap::Idle => {
            return write!(
                out,
                "'join' before line {last}, or 'settle' where the swap may have come"
            );
        }
        Swap::Within(_, _) => "'join' or 'settle'",
        Swap::Perhaps(_) => "'settle'",
    };
    write!(out, "{word} before line {first}")?;
    if is_idle(stop.here.pending) {
        return out.write_all(b": the loop would begin with no swap pending");
    }
    write!(
        out,
        ", and 'settle' before line {last}: no swap would be pending at either"
    )
}

/// The first and the last line of braces; this one if they are not known.
fn lines_of(braces: &Option<Braces>, line: u16) -> (usize, usize) {
    match braces {
        Some(braces) => (braces.first.line, braces.last.line),
        None => (usize::from(line), usize::from(line)),
    }
}

/// The hint on a loop whose body does not come back to what was known.
pub(crate) fn hint_on_loop(trier: &mut Trier, stop: &Stop, fact: Option<&Fact>) -> io::Result<()> {
    let braces = trier.braces_of(stop.line, "repeat", "forever");
    if let Some(braces) = &braces {
        try_loop(trier, braces, stop)?;
    }
    advise_loop(stop, fact, lines_of(&braces, stop.line), &mut trier.advice)
}

/// Advises on an `if` whose paths can't be merged.
pub(crate) fn advise_paths(trier: &mut Trier, stop: &Stop) -> io::Result<()> {
    let (first, last) = lines_of(&trier.braces_of(stop.line, "if", "if"), stop.line);
    write!(
        &mut trier.advice,
        "leave both ways through lines {first} to {last} with the same configurations, 'commit' \
         and 'join' included"
    )
}
