//! Laws of streams without a fault, and of the streams of typed codes.
//! Each law is a function that does nothing; its contract is the law.

ghost use Rattle.stream_laws.specs.Announcing.{SwapsAreAnnounced};
ghost use Rattle.stream_laws.specs.Counting.{RunsAreCounted};
ghost use Rattle.stream_laws.specs.Delivered.{RunsAreCleared, RunsAreHeardOut};
ghost use Rattle.stream_laws.specs.Entries.{ChangesAreAnnounced};
ghost use Rattle.stream_laws.specs.Faults.{RunsAreFaultless};
ghost use Rattle.stream_laws.specs.Framing.{RunsAreFramed};
ghost use Rattle.stream_laws.specs.Held.{CountsAreHeld, WholeNoticesAreHeld};
ghost use Rattle.stream_laws.specs.Keeping.{CurrentIsKept};
ghost use Rattle.stream_laws.specs.Merging.{MergedAreHeardAlike, MergedHaveTheEntries};
ghost use Rattle.stream_laws.specs.Merging.{MergedListenersAreRight, MergedRunsAreFaultless};
ghost use Rattle.stream_laws.specs.Merging.{MergedSwapsAreAnnounced};
ghost use Rattle.stream_laws.specs.Naming.{SwapsAreNamed};
ghost use Rattle.stream_laws.specs.Notices.{FramesAreOfBytes};
ghost use Rattle.stream_laws.specs.RunningOn.{CountsRunOn};
ghost use Rattle.stream_laws.specs.Sorts.{RunsAgree, RunsAreFree, RunsAreInPlace, RunsAreKnown};
ghost use Rattle.stream_laws.specs.Sorts.{RunsContradictNothing};
ghost use Rattle.stream_laws.specs.Sorts.{RunsAreNeverSilent, RunsAreTimely, RunsFlagTheChange};
ghost use Rattle.stream_laws.specs.Sorts.{RunsRepeatTheNext};
ghost use Rattle.stream_laws.specs.Staying.{CurrentIsSent, CurrentStays};
ghost use Rattle.stream_laws.specs.Units.{SwapsKeepUnits, UnitsStayOwn};

/// The law of the current configuration: in a stream without a fault, each entry with C/N 0 agrees
/// with the entry with its identifier in the picture of the current configuration before it, and is
/// in that picture from the frame on in which the current configuration is settled.
pub fn current()
    ensures { CurrentIsKept }
{}

/// The law of presence: in a stream without a fault, only a swap takes an entry out of the current
/// configuration, or changes it; and each of its entries is in the bytes of any N successive frames
/// without a swap, with C/N 0, where N is the period of the checker, 1 or more. So no entry is
/// removed without a swap.
pub fn presence()
    ensures stays { CurrentStays }
    ensures sent { CurrentIsSent }
{}

/// The law of capacity units: in a stream without a fault, after each swap, no capacity unit is one
/// of two sub-channels, and each is one of the 864 of a CIF, as far as their entries are in the
/// long form. This holds for the swap of a notice whose beginning was not heard, too. After the
/// swap of a notice whose beginning was heard it stays so until the next swap.
pub fn units()
    ensures swapped { SwapsKeepUnits }
    ensures stay { UnitsStayOwn }
{}

/// The law of swaps: in a stream without a fault, at each swap, unless the beginning of its notice
/// was not heard, if the pictures before it show two configurations, then the bytes of the notice's
/// frames announce the change from one to the other for the low part of the swap's count. They
/// consist of three successive parts, each with the whole next configuration; three or more of the
/// frames have FIG 0/0, always with the flags of the change and that low part.
pub fn swaps()
    ensures { SwapsAreAnnounced }
{
    fib_codec::laws::one_list();
    fib_codec::laws::fib_length();
    fib_codec::laws::spelling();
    fib_reader::laws::ensemble();
    mux_config::laws::changes();
    stream_check::laws::parts();
}

/// The law of notices: the same for any pictures, entry by entry. Each entry of the next picture is
/// sent with C/N 1 in each of three successive parts of the notice's frames, and each FIG 0/0 in
/// them, of which there are three or more, has the flags of the change from one picture to the
/// other and the low part of the swap's count.
pub fn notices()
    ensures { ChangesAreAnnounced }
{
    fib_codec::laws::one_list();
    fib_codec::laws::fib_length();
    fib_codec::laws::spelling();
    fib_reader::laws::ensemble();
    stream_check::laws::parts();
}

/// The law of whole notices: in a stream without a fault whose first FIG 0/0 has no change flags,
/// the change is announced at each swap as the law of notices says; if the first FIG 0/0 has change
/// flags, at each swap but the first. And at each swap, also the first one of such a stream, every
/// FIG 0/0 in the frames of its notice that were heard has change flags, the same in all, and the
/// low part of the swap's count.
pub fn held()
    ensures whole { WholeNoticesAreHeld }
    ensures counts { CountsAreHeld }
{
    fib_codec::laws::one_list();
    fib_codec::laws::fib_length();
    fib_codec::laws::spelling();
    fib_reader::laws::ensemble();
    stream_check::laws::parts();
}

/// The law of running counts: in a stream without a fault, where a frame has one FIB or more, the
/// counts of the frames run on, modulo 5000, from a multiple of the mode's step, with one EId: FIG
/// 0/0 is heard in the bytes of each frame at a multiple of the step, and in no other, always with
/// that EId and the count of its frame.
pub fn running_counts()
    ensures { CountsRunOn }
{
    fib_codec::laws::one_list();
    fib_codec::laws::fib_length();
    fib_codec::laws::spelling();
    fib_reader::laws::ensemble();
}

/// The law of cutting: the frames into which the checker cuts FIBs are frames of their bytes.
pub fn cutting()
    ensures { FramesAreOfBytes }
{}

/// The law of frames: of the FIBs of a run of a typed code, those before the first FIG 0/0 are
/// skipped, and the checker cuts the others into exactly the frames of the run, with none left
/// over.
pub fn frames()
    ensures { RunsAreFramed }
{
    fib_codec::laws::one_list();
    fib_reader::laws::ensemble();
    plan_runs::laws::headline();
    plan_runs::laws::runs();
}

/// The law of findings: in the frames of a run of a typed code, from one with a FIG 0/0 on, the
/// checker always has room, and finds no fault but an entry that appears or is silent; with N at
/// least 2P - 1 for the plan's period P, it finds none of these either. This holds from every state
/// that a typed code reaches. The laws of one sort of faults that are below follow from it.
pub fn findings()
    ensures { RunsAreFree }
{
    fib_codec::laws::one_list();
    fib_codec::laws::fib_length();
    fib_codec::laws::spelling();
    fib_reader::laws::ensemble();
    fib_carousel::laws::pages();
    mux_config::laws::changes();
    plan_runs::laws::headline();
    stream_check::laws::parts();
}

/// The law of places: in the frames of a run of a typed code, from one with a FIG 0/0 on, the
/// checker finds no frame that is short or damaged, and no FIG 0/0 that is missing, out of place,
/// of another ensemble or at a count that was not due.
pub fn places()
    ensures { RunsAreInPlace }
{
    findings();
}

/// The law of entries and announcements: in the frames of a run of a typed code, from one with a
/// FIG 0/0 on, the checker always has room, and finds no entry that has changed, no entry of the
/// next configuration without change flags, no announcement that has changed or has a count on
/// which no swap can fall, no swap on a count other than the announced one, and none to
/// sub-channels that share a capacity unit or end past the last one.
pub fn agreement()
    ensures { RunsAgree }
{
    findings();
}

/// The law of named swaps: in the frames of a run of a typed code, from one with a FIG 0/0 on, the
/// checker reports exactly the swaps that the run makes after that frame, each in its frame.
pub fn named_swaps()
    ensures { SwapsAreNamed }
{
    fib_codec::laws::one_list();
    fib_reader::laws::ensemble();
    fib_carousel::laws::pages();
}

/// The law of announcements: in the frames of a run of a typed code, from one with a FIG 0/0 on,
/// the checker finds no swap after fewer than three announcements.
pub fn announcements()
    ensures { RunsAreTimely }
{
    findings();
}

/// The law of flags: in the frames of a run of a typed code, from one with a FIG 0/0 on, the
/// checker finds no swap with flags other than those of its change.
pub fn flags()
    ensures { RunsFlagTheChange }
{
    findings();
}

/// The law of mentions: in the frames of a run of a typed code, from one with a FIG 0/0 on, the
/// checker finds no FIG that names what is not in the current configuration, or is not whole
/// entries.
pub fn mentions()
    ensures { RunsContradictNothing }
{
    findings();
}

/// The law of silence: in the frames of a run of a typed code, from one with a FIG 0/0 on, if the
/// checker requires each entry of the current configuration in any N frames, with N at least 2P - 1
/// for the plan's period P, it finds no silent entry.
pub fn silence()
    ensures { RunsAreNeverSilent }
{
    findings();
}

/// The law of appearances: in the frames of a run of a typed code, from one with a FIG 0/0 on, with
/// N at least 2P - 1 for the plan's period P, the checker finds no entry of the current
/// configuration that appears once that configuration is settled.
pub fn appearances()
    ensures { RunsAreKnown }
{
    findings();
}

/// The law of repetition: in the frames of a run of a typed code, from one with a FIG 0/0 on, the
/// checker finds no swap before which the next configuration could be read fewer than three times
/// in the frames of the notice.
pub fn repetition()
    ensures { RunsRepeatTheNext }
{
    findings();
}

/// The law of faults, no false alarm: the frames of a run of a typed code, from one with a FIG 0/0
/// on, are a stream without a fault, with N at least 2P - 1 for the plan's period P. This holds
/// from every state that a typed code reaches.
pub fn no_false_alarm()
    ensures { RunsAreFaultless }
{
    findings();
}

/// The law of counts: from every state that a typed code reaches, the counts of the frames of a run
/// run on from that state's, modulo 5000. FIG 0/0 is heard in the bytes of each frame at a multiple
/// of the mode's step, and in no other, with C/N 0, that count and the EId of the run.
pub fn counts()
    ensures { RunsAreCounted }
{}

/// The law of bytes: a checker that is given the bytes of a run of a typed code, or any piece of
/// them that begins and ends between two FIBs, always has room and reports no fault, with N at
/// least 2P - 1 for the plan's period P. The piece may begin and end within a frame. This is said
/// of whatever a checker knows by its contract, with the frames into which its FIBs are cut. Given
/// all bytes of a run, it has skipped the FIBs before the first FIG 0/0, and heard exactly the
/// frames of the run from there on; none of their FIBs is damaged, and none is left over.
pub fn bytes()
    ensures pieces { RunsAreCleared }
    ensures whole { RunsAreHeardOut }
{
    fib_codec::laws::one_list();
    fib_reader::laws::ensemble();
    plan_runs::laws::headline();
    frames();
    no_false_alarm();
}

/// The law of merged frames: a merger fills the FIBs of a run of a typed code in order, with FIGs
/// of any other FIBs that it takes before each. The merged FIBs have the entries of those of the
/// run, each in its place, and from every state a listener hears them as those of the run. So what
/// the law of listeners says of the frames of a run holds of them merged; and the checker cuts them
/// into as many frames, and finds in these what it finds in those of the run: no fault. At each
/// swap the bytes of the notice's merged frames announce the change, as the law of swaps says.
pub fn merged()
    ensures heard { MergedAreHeardAlike }
    ensures entries { MergedHaveTheEntries }
    ensures listeners { MergedListenersAreRight }
    ensures findings { MergedRunsAreFaultless }
    ensures swaps { MergedSwapsAreAnnounced }
{
    fib_codec::laws::one_list();
    fig_merge::laws::filled();
    fig_merge::laws::checked();
    plan_runs::laws::listener();
    frames();
    cutting();
    no_false_alarm();
    swaps();
}
