// The most records that one ledger of an hour may have. A ledger alone has as many as the lent slice.
pub const MAX_RECORDS: usize = 4_096;
