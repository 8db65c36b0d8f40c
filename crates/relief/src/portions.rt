// Portions joined to the guarantees' reports.
ghost use mathlib.Core.List.{zip_with};
ghost use Rattle.std.specs.Prelude.{◌≡◌, ◌≤◌, length};
ghost use Rattle.base.specs.Places.{in_places};
ghost use Rattle.deal.specs.Lists.{list_limit};
ghost use Rattle.relief.specs.Report.{no_guarantee};
ghost use Rattle.relief.specs.Portions.{covering};

use crate::guarantee::GuaranteeReport;
use deal::deal::Deal;

// The reports with their portions, in order of adding. Two slices, since the portions are cover's own answer.
pub fn with_portions(
    values: &[GuaranteeReport],
    portions: &[u64],
) -> [GuaranteeReport; Deal::GUARANTEE_LIMIT]
    requires { (length values.now ≡ length portions.now) × (length values.now ≤ 16) }
    ensures { result ≡ in_places list_limit no_guarantee (zip_with covering values.now portions.now) }
{
    let mut reports = [GuaranteeReport::NONE; Deal::GUARANTEE_LIMIT];
    for (i, value) in values.iter().enumerate() {
        reports[i] = GuaranteeReport {
            outcome: value.outcome,
            portion: portions[i],
        };
    }
    reports
}
