// Endings: what stands in one that has the form.
ghost use Rattle.std.specs.Prelude.{◌≡◌, true};
ghost use Rattle.plans.specs.Endings.{row_variables, after_rows, rows_form, ending_form, ending_at};
ghost use Rattle.plans.specs.Reading.{ending_kind_in, variables_in, keys_in, measured_in};
ghost use Rattle.plans.specs.declared.EndingKind.{EndingKind};

use crate::{ending_kind_of, row_width};
use plans::{EndingKind, first};
use words::PlanWord;

// The variables of the kind 8 part that `p` starts with.
fn row_variables(p: &[u32]) -> &[u32]
    requires { rows_form p.now ≡ true }
    ensures { result.now ≡ row_variables p.now }
{
    let end = 1 + row_width(p);
    &p[1..end]
}

// What follows the kind 8 part that `p` starts with.
fn after_rows(p: &[u32]) -> &[u32]
    requires { rows_form p.now ≡ true }
    ensures { result.now ≡ after_rows p.now }
{
    let end = 1 + row_width(p);
    &p[end..]
}

// The variables of the ending `e`: those of its rows, those of its groups, or the one that its registers count.
pub fn variables(e: &[u32]) -> &[u32]
    requires { ending_form e.now ≡ true }
    ensures { result.now ≡ variables_in (ending_at e.now) }
{
    match ending_kind_of(first(e)) {
        EndingKind::Rows => row_variables(e),
        EndingKind::Top => row_variables(&e[1..]),
        EndingKind::Group => {
            let end = 1 + words::wide(PlanWord(first(e)).low());
            &e[1..end]
        }
        EndingKind::Registers => &e[1..],
        EndingKind::Invalid => e,
    }
}

// The keys of the ending `e`: none but a best-of ending has any.
pub fn keys(e: &[u32]) -> &[u32]
    requires { ending_form e.now ≡ true }
    ensures { result.now ≡ keys_in (ending_at e.now) }
{
    match ending_kind_of(first(e)) {
        EndingKind::Top => after_rows(&e[1..]),
        EndingKind::Rows => &e[..0],
        EndingKind::Group => &e[..0],
        EndingKind::Registers => &e[..0],
        EndingKind::Invalid => &e[..0],
    }
}

// The variable that the group ending `e` measures.
pub fn measured(e: &[u32]) -> u32
    requires { (ending_form e.now ≡ true) × (ending_kind_in (ending_at e.now) ≡ EndingKind.Group) }
    ensures { result ≡ measured_in (ending_at e.now) }
{
    let at = 1 + words::wide(PlanWord(first(e)).low());
    e[at]
}

// The variable that the registers of the ending `e` count.
pub fn counted(e: &[u32]) -> u32
    requires { (ending_form e.now ≡ true) × (ending_kind_in (ending_at e.now) ≡ EndingKind.Registers) }
    ensures { result ≡ measured_in (ending_at e.now) }
{
    e[1]
}
