// Table haircuts scaled to the holding periods of deals that are revalued daily, stored and not worked out (02: L4).
ghost use Rattle.std.specs.Prelude.{true, ◌≡◌};
ghost use Rattle.scaling.specs.Scaling.{scaled};
ghost use Rattle.scaling.specs.Stored.{figure_over, is_daily, stored_figures, stored_line};

const PERCENT: u64 = 10_000;

const HALF_PERCENT: u64 = 5_000;

// The table, by table haircut, rising, and period: over 5, over 10 and over 20 business days.
const FIGURES: [[u64; 3]; 15] = [
    [0, 0, 0],
    [3_536, 5_000, 7_072],
    [7_072, 10_000, 14_143],
    [14_143, 20_000, 28_285],
    [21_214, 30_000, 42_427],
    [28_285, 40_000, 56_569],
    [42_427, 60_000, 84_853],
    [56_569, 80_000, 113_138],
    [84_853, 120_000, 169_706],
    [106_067, 150_000, 212_133],
    [113_138, 160_000, 226_275],
    [141_422, 200_000, 282_843],
    [169_706, 240_000, 339_412],
    [176_777, 250_000, 353_554],
    [212_133, 300_000, 424_265],
];

// Whether a period is one of daily revaluation.
#[tactic(auto, unfolding(crate::specs::Stored::is_daily))]
pub fn is_daily(period: u64) -> bool
    ensures { result ≡ is_daily period }
{
    matches!(period, 5 | 10 | 20)
}

// The whole table, which is what scaling gives: one test, which the checker computes.
#[tactic(auto, unfolding(crate::specs::Scaling::scaled, base::specs::Least::least, base::specs::Least::between))]
fn stored_figures() -> [[u64; 3]; 15]
    ensures { result ≡ stored_figures }
{
    FIGURES
}

// The line of a haircut: its figures over 5, over 10 and over 20 business days. Only table haircuts have one. Whole percents lie close, so that a
// line is found without a comparison for each. By a match with every place written out: the compiler then keeps the lines in read-only memory; an
// array that is read at a place found by computing it writes out anew at each read.
#[tactic(auto, using(crate::proofs::StoredFigures::percents_right))]
pub fn stored_line(haircut: u64) -> Option<[u64; 3]>
    ensures { result ≡ stored_line haircut }
{
    let table = stored_figures();
    let percents = haircut / PERCENT;
    if percents * PERCENT < haircut {
        if haircut == HALF_PERCENT {
            return Some(table[1]);
        }
        return None;
    }
    match percents {
        0 => Some(table[0]),
        1 => Some(table[2]),
        2 => Some(table[3]),
        3 => Some(table[4]),
        4 => Some(table[5]),
        6 => Some(table[6]),
        8 => Some(table[7]),
        12 => Some(table[8]),
        15 => Some(table[9]),
        16 => Some(table[10]),
        20 => Some(table[11]),
        24 => Some(table[12]),
        25 => Some(table[13]),
        30 => Some(table[14]),
        _ => None,
    }
}

// The figure over a daily period, of a line.
#[tactic(auto, unfolding(crate::specs::Stored::figure_over))]
pub fn over(period: u64, figures: [u64; 3]) -> u64
    requires { is_daily period ≡ true }
    ensures { result ≡ figure_over period figures }
{
    let [five, ten, twenty] = figures;
    match period {
        5 => five,
        10 => ten,
        _ => twenty,
    }
}

// The time factor of the period: the whole, scaled.
#[tactic(auto, using(crate::proofs::StoredFigures::whole_right))]
pub fn stored_whole(period: u64) -> u64
    requires { is_daily period ≡ true }
    ensures { result ≡ scaled 1000000 period }
{
    over(period, [707_107, 1_000_000, 1_414_214])
}
