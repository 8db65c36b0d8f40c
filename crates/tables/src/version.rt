// What each version of the tables brings: its own figures, each looked up in a table beside it; those of debt differ in
// their bands, and a constant table of the trait would be no plainer. What the versions share stands in haircuts.rt and weights.rt.
ghost use Rattle.std.specs.Prelude.{◌≡◌, ◌≤◌, ℕ};

pub trait Version {
    ghost MAIN_INDEX_OR_GOLD: { ℕ };

    ghost OTHER_LISTED: { ℕ };

    ghost LENT_NOT_ELIGIBLE: { ℕ };

    ghost debt_haircut: { ℕ → ℕ → ℕ → ℕ };

    ghost table_weight: { ℕ → ℕ → ℕ };

    const MAIN_INDEX_OR_GOLD: u64;

    const OTHER_LISTED: u64;

    const LENT_NOT_ELIGIBLE: u64;

    // By type of goods, step and issue life.
    fn debt_haircut(goods: u64, step: u64, life: u64) -> u64
        ensures { result ≡ debt_haircut goods step life };

    // By class and step.
    fn table_weight(class: u64, step: u64) -> u64
        requires class_range { (1 ≤ class) × (class ≤ 3) }
        requires step_range { step ≤ 6 }
        ensures { result ≡ table_weight class step };
}
