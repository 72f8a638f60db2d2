//! Laws that hold for all configurations, in any representation.

ghost use Rattle.mux_config.specs.Change.{ChangeIsUnique};
ghost use Rattle.mux_config.specs.Edits.{EditsKeep, RefusalsChangeNothing};
ghost use Rattle.mux_types.specs.Facts.{FactsIdentify, FactSetsIdentify};
ghost use Rattle.mux_config.specs.SoundFaults.{FaultIsUnique};
ghost use Rattle.mux_config.specs.RecordFaults.{CutsAreShort, FaultsStay, FaultsAreFirst};
ghost use Rattle.mux_config.specs.RecordFaults.{ShortBeforePlaces};

pub use mux_types::laws::sets;

/// The law of facts: the entries of FIG 0/1 to 0/3 distinguish configurations, so those received
/// identify one (EN 300 401 clauses 6.2.1, 6.3.1 and 6.3.2). The function does nothing; its
/// contract is the law.
pub fn facts()
    ensures { FactsIdentify }
{
    mux_eep::laws::sizes();
}

/// The law of sets of facts: the set of the entries identifies the configuration, in whatever order
/// and however often they are received. The function does nothing; its contract is the law.
pub fn fact_sets()
    ensures { FactSetsIdentify }
{
    mux_eep::laws::sizes();
}

/// The law of change: between two configurations there is one change that names exactly the
/// organizations whose entries differ, and `change_of` computes it (EN 300 401 clauses 6.4 and
/// 6.5). The function does nothing; its contract is the law.
pub fn changes()
    ensures { ChangeIsUnique }
{
    mux_eep::laws::sizes();
}

/// The law of edits: an edit of a configuration without a fault results in a configuration. The
/// function does nothing; its contract is the law.
pub fn edits()
    ensures { EditsKeep }
{}

/// The law of refusals: an edit that is refused changes nothing. The function does nothing; its
/// contract is the law.
pub fn refusals()
    ensures { RefusalsChangeNothing }
{}

/// The law of faults: `soundness` reports the first of its four conditions that fails, and if
/// sub-channels share capacity units, the first two that do. The function does nothing; its
/// contract is the law.
pub fn faults()
    ensures { FaultIsUnique }
{}

/// The law of records: a truncated record is short; any other fault lies in the bytes that were
/// read, so it stays whatever follows them and nothing that begins with them is a record; and it is
/// the first one. The offset of a field at fault is that of one of the bytes, and the bytes before
/// it are short. The function does nothing; its contract is the law.
pub fn record_faults()
    ensures cuts { CutsAreShort }
    ensures stays { FaultsStay }
    ensures first { FaultsAreFirst }
    ensures places { ShortBeforePlaces }
{}
