//! Laws of the definitions.
ghost use Rattle.farm_journal.specs.Damage.{DamagedIsFault, FaultIsDamaged};
ghost use Rattle.farm_journal.specs.Laws.{HoldsOpens, OpensHolds};

/// A file opens to payloads exactly where it is a header, open gates with their records, and a closed gate; the closed
/// gate stands where `gate_of` says.
pub fn opens_by_parts()
    ensures parts { HoldsOpens }
    ensures no_other { OpensHolds }
{}

/// A file is damaged at an offset exactly where it is born, its header and its records are right up to there, and there
/// they go wrong: a byte of the header is another one or missing, a gate is missing, or one is open and no whole record
/// stands behind it.
pub fn damage_by_parts()
    ensures parts { FaultIsDamaged }
    ensures no_other { DamagedIsFault }
{}
