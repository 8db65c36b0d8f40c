// The kinds of transaction (01: What a deal holds).
// By number and no enum: a record is read and written unchanged, whatever number stands there.
pub const REPO_STYLE: u64 = 1;

pub const OTHER_CAPITAL_MARKET: u64 = 2;

pub const SECURED_LENDING: u64 = 3;
