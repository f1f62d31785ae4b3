// What the lists of a plan hold: rows or records, and of how many words.
ghost use Rattle.std.specs.Prelude.{◌≡◌, true, ◌≤◌};
ghost use Rattle.plans.specs.Endings.{most_row_variables};
ghost use Rattle.plans.specs.Plans.{read_plan, has_form, plan_of};
ghost use Rattle.print_writing.specs.Listings.{listing_of, width_of};

use crate::Listing;
use crate::lines::{REGISTERS, TOTALS_WIDTH};
use plans::EndingKind;

// The words of a row or record whose plan names `variables` variables, or of all registers.
fn record_width(kind: EndingKind, variables: usize) -> usize
    requires { variables ≤ most_row_variables }
    ensures { result ≡ width_of kind variables }
{
    match kind {
        EndingKind::Rows | EndingKind::Top => variables,
        EndingKind::Group => variables + TOTALS_WIDTH,
        EndingKind::Registers => REGISTERS,
        EndingKind::Invalid => 0,
    }
}

// What the lists of `plan` hold.
pub fn lists_of(plan: &[u32]) -> Listing
    requires { has_form (read_plan plan.now) ≡ true }
    ensures { result ≡ listing_of (plan_of plan.now).ending }
{
    let ending = plan_parts::ending_part(plan);
    let kind = plan_endings::ending_kind(ending);
    let variables = plan_endings::variables(ending).len();
    Listing {
        kind,
        width: record_width(kind, variables),
    }
}
