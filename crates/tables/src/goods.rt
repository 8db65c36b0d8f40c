// The types of goods that are lent or taken as collateral (01: What a deal holds).
// By number and no enum: a record is read and written unchanged, whatever number stands there.
pub const CASH: u64 = 1;

pub const SOVEREIGN_DEBT: u64 = 2;

pub const OTHER_DEBT: u64 = 3;

pub const BANK_DEBT: u64 = 4;

pub const SECURITISATION: u64 = 5;

pub const RESECURITISATION: u64 = 6;

pub const MAIN_INDEX_EQUITY: u64 = 7;

pub const OTHER_LISTED_EQUITY: u64 = 8;

pub const GOLD: u64 = 9;
