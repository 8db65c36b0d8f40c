// What an item of the list of guarantees is, as a number and no enum, as all codes are (`Terms`): a guarantee, or a swap of which restructuring is no credit event, or is one. One number, so that
// a guarantee has no entry for a condition that is not asked of it.
ghost use Rattle.std.specs.Prelude.{◌≡◌};
ghost use Rattle.deal.specs.Instruments.{instrument_allowed, swap_with};

pub const GUARANTEE: u64 = 0;

pub const SWAP_WITHOUT_RESTRUCTURING: u64 = 1;

pub const SWAP_WITH_RESTRUCTURING: u64 = 2;

// The swap with this entry of its condition. One that is neither 0 nor 1 gives no instrument.
pub fn swap_with(restructuring: u64) -> u64
    ensures { result ≡ swap_with restructuring }
{
    SWAP_WITHOUT_RESTRUCTURING + restructuring.min(2)
}

pub fn instrument_allowed(instrument: u64) -> bool
    ensures { result ≡ instrument_allowed instrument }
{
    instrument <= SWAP_WITH_RESTRUCTURING
}
