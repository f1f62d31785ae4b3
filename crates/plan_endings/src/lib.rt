// An ending: its kind, how many rows it keeps or variables it names, its variables and its keys.
#![tactic(auto)]

mod parts;

ghost use Rattle.std.specs.Prelude.{◌≡◌, true, ◌≤◌, get_or};
ghost use Rattle.plans.specs.Endings.{most_row_variables, row_width, ending_kind_of, ending_form, ending_at};
ghost use Rattle.plans.specs.Reading.{ending_kind_in, best_in};
ghost use Rattle.plans.specs.declared.EndingKind.{EndingKind};

pub use parts::{counted, keys, measured, variables};
use plans::{EndingKind, count_in, first};
use words::PlanWord;

pub const MOST_ROW_VARIABLES: u32 = 16;

pub const MOST_BEST: u32 = 64;

// The rows of a best-of list where the plan gives no number.
pub const DEFAULT_BEST: u32 = 10;

pub const MOST_GROUP_VARIABLES: u32 = 4;

pub fn ending_kind_of(word: u32) -> EndingKind
    ensures { result ≡ ending_kind_of word }
{
    let w = PlanWord(word);
    let kind = w.kind();
    let low = w.low();
    match kind {
        PlanWord::ROWS => EndingKind::Rows,
        PlanWord::TOP => {
            if low <= MOST_BEST {
                return EndingKind::Top;
            }
            EndingKind::Invalid
        }
        PlanWord::GROUP => {
            if low <= MOST_GROUP_VARIABLES {
                return EndingKind::Group;
            }
            EndingKind::Invalid
        }
        PlanWord::REGISTERS => {
            if low == 0 {
                return EndingKind::Registers;
            }
            EndingKind::Invalid
        }
        _ => EndingKind::Invalid,
    }
}

// How many variables the kind 8 part has that `p` starts with, or 0 where it starts with none.
pub fn row_width(p: &[u32]) -> usize
    ensures { (result ≡ row_width (get_or p.now 0 0)) × (result ≤ most_row_variables) }
{
    words::wide(count_in(p, PlanWord::ROWS, MOST_ROW_VARIABLES))
}

// The kind of the ending `e`.
pub fn ending_kind(e: &[u32]) -> EndingKind
    requires { ending_form e.now ≡ true }
    ensures { result ≡ ending_kind_in (ending_at e.now) }
{
    ending_kind_of(first(e))
}

// How many rows the best-of ending `e` keeps.
pub fn best_count(e: &[u32]) -> usize
    requires { (ending_form e.now ≡ true) × (ending_kind_in (ending_at e.now) ≡ EndingKind.Top) }
    ensures { result ≡ best_in (ending_at e.now) }
{
    let k = PlanWord(first(e)).low();
    if k == 0 {
        return words::wide(DEFAULT_BEST);
    }
    words::wide(k)
}
