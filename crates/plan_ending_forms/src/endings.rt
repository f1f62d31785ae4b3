// The form of an ending, in test 5.
ghost use Rattle.std.specs.Prelude.{◌≡◌};
ghost use Rattle.plans.specs.Endings.{rows_form, keys_form, ending_form};

use crate::searches::{all_keys, all_variables};
use plan_endings::{ending_kind_of, row_width};
use plans::{EndingKind, first};
use words::PlanWord;

pub const MOST_KEYS: usize = 4;

// The words of an ending of registers: its kind, and the variable.
pub const REGISTERS_WORDS: usize = 2;

// Whether `p` starts with a kind 8 part.
pub fn rows_form(p: &[u32]) -> bool
    ensures { result ≡ rows_form p.now }
{
    let n = row_width(p);
    if n == 0 {
        return false;
    }
    let end = 1 + n;
    end <= p.len() && all_variables(&p[1..end])
}

// Whether `p` is 1 to 4 keys.
pub fn keys_form(p: &[u32]) -> bool
    ensures { result ≡ keys_form p.now }
{
    if p.len() == 0 {
        return false;
    }
    p.len() <= MOST_KEYS && all_keys(p)
}

// Whether `p` is one ending and nothing more.
pub fn ending_form(p: &[u32]) -> bool
    ensures { result ≡ ending_form p.now }
{
    match ending_kind_of(first(p)) {
        EndingKind::Rows => rows_form(p) && p.len() == 1 + row_width(p),
        EndingKind::Top => {
            let rest = &p[1..];
            if rows_form(rest) {
                let at = 1 + row_width(rest);
                return keys_form(&rest[at..]);
            }
            false
        }
        EndingKind::Group => {
            p.len() == 2 + words::wide(PlanWord(first(p)).low()) && all_variables(&p[1..])
        }
        EndingKind::Registers => p.len() == REGISTERS_WORDS && all_variables(&p[1..]),
        EndingKind::Invalid => false,
    }
}
