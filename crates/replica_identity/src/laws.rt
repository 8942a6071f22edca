//! Laws about the setting that a catalog and its plan make. A law is a function without an effect whose contract states
//! it.

ghost use Rattle.replica_identity.specs.Parts.{RecordsParts};
ghost use Rattle.replica_identity.specs.SettingLaws.{SettingHasTables, RowsHaveKeys, ColumnsIdentify};

/// A law about the setting of a catalog and its plan. A table that exists is known, a row's fault in it is that of
/// `valid`, and its unique keys are its primary key and its unique indexes, in which a row with a null has no value
/// (`tables`). Each row has a primary key (`keys`). The values of the columns of the replica identity identify a row
/// that is as wide as its table; this also holds under FULL, where they are the whole row (`identities`).
///
/// PostgreSQL 15, SQL Commands, ALTER TABLE (REPLICA IDENTITY).
#[tactic(auto, using(crate::proofs::Rules::settings_of_catalogs))]
pub fn catalogs_make_settings()
    ensures tables { SettingHasTables }
    ensures keys { RowsHaveKeys }
    ensures identities { ColumnsIdentify }
{}

/// A law about what is recorded of old rows. In the setting of a catalog and its plan that is, for each table of the
/// catalog, what `old_part` gives.
///
/// PostgreSQL 15, SQL Commands, ALTER TABLE (REPLICA IDENTITY).
#[tactic(auto, using(crate::proofs::PartLemmas::records_parts))]
pub fn settings_record_parts()
    ensures parts { RecordsParts }
{}
