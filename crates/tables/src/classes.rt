// The classes of counterparties and of protection providers (01: What a deal holds).
// By number and no enum: a record is read and written unchanged, whatever number stands there.
pub const SOVEREIGN: u64 = 1;

// A provider of this class may be a securities firm.
pub const BANK: u64 = 2;

// Of a counterparty.
pub const CORPORATE: u64 = 3;

pub const RETAIL: u64 = 4;

// Of a provider.
pub const OTHER_ENTITY: u64 = 3;
