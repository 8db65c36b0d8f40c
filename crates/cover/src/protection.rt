// A guarantee, as far as cover goes.

#[derive(Clone, Copy, Debug, PartialEq, Eq)]
pub struct Protection {
    // What it covers at most, 0 where it is left out.
    pub value: u64,
    // Its provider's risk weight in percent.
    pub weight: u64,
}

impl Protection {
    // A place with nothing in it.
    pub const NONE: Protection = Protection {
        value: 0,
        weight: 0,
    };
}

// What protection leaves of an exposure.
#[derive(Clone, Copy, Debug, PartialEq, Eq)]
pub struct Cover {
    // Portions in order of adding, 0 in places past the last.
    pub portions: [u64; 16],
    // The uncovered rest.
    pub uncovered: u64,
    // Portions times weights, and the rest times the counterparty's weight, in hundredths.
    pub weighted_sum: u64,
}
