// The number of the first of tests 5, 6 and 23 that fails.
#![tactic(auto)]

ghost use Rattle.std.specs.Prelude.{◌≡◌, ◌∷◌, []};
ghost use Rattle.words.specs.Tests.{first_failing, number_of};

// The tests of a plan, by their numbers.
pub const FORM: u32 = 5;

pub const VARIABLES: u32 = 6;

pub const YEAR: u32 = 23;

// The number of the first of tests 5, 6 and 23 that fails, or 0.
pub fn number_of(form: bool, variables: bool, year: bool) -> u32
    ensures { result ≡ number_of (first_failing ((5, form) ∷ (6, variables) ∷ (23, year) ∷ [])) }
{
    if form {
        if variables {
            if year {
                return 0;
            }
            return YEAR;
        }
        return VARIABLES;
    }
    FORM
}
