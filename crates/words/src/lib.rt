// The 32-bit words of rows, plans and saved states, a kind in the top bits and a value or number in the low ones; the order of keys, bindings, tests as
// data.
#![tactic(auto)]

ghost use Rattle.std.specs.Prelude.{◌≡◌, ◌+◌, ◌%◌, ◌<◌, ◌≤◌, length};
ghost use Rattle.std.proofs.Math.Seq.{paste};
ghost use Rattle.sequences.specs.Sequences.{numbers};
ghost use Rattle.words.specs.Bindings.{value_of};
ghost use Rattle.words.specs.Words.{term_values, term_kind, term_value, name, number, text, variable, unbound, is_variable, is_number, is_value};
ghost use Rattle.words.specs.Words.{value_rank, key_rank, last_rank, low_numbers, kind, low, word, head_kind, branch_kind, true_kind, and_kind};
ghost use Rattle.words.specs.Words.{or_kind, not_kind, comparison_kind, rows_kind, top_kind, rising_kind, falling_kind, group_kind, registers_kind, depths};
ghost use Rattle.words.specs.Words.{survey_word, position_word, place_word, year_word, branch_of, depth_of};

// A term: two bits of kind and a value of 30.
#[derive(Clone, Copy)]
pub struct Term(pub u32);

// A word of a plan: four bits of kind, and a count or number of 28.
#[derive(Clone, Copy)]
pub struct PlanWord(pub u32);

// A word of a saved state: four bits of kind, and a number of 28.
#[derive(Clone, Copy)]
pub struct StateWord(pub u32);

// The answer of a call that writes to one buffer: how many words, or the number of the test that refused it.
#[derive(Clone, Copy)]
pub enum Written {
    Words(usize),
    Refused(u32),
}

// How many values a term has.
pub const VALUES: u32 = 0x40000000;

// Half of them: a number from there on is below zero.
pub const HALF_VALUES: u32 = 0x20000000;

// How many numbers a word of a plan or a state has.
pub const NUMBERS: u32 = 0x10000000;

// The last year that a row may have or a plan may name.
pub const MOST_YEAR: u32 = 9999;

impl Term {
    pub const NAME: u32 = 0;

    pub const NUMBER: u32 = 1;

    pub const TEXT: u32 = 2;

    pub const VARIABLE: u32 = 3;

    // A variable without a value, in a delivered row.
    pub const UNBOUND: u32 = 0xC0000000;

    // The last place in the order of keys.
    pub const LAST_RANK: u32 = 0xC0000000;

    pub fn name(value: u32) -> Self
        ensures { result.0 ≡ name (value % term_values) }
    {
        Term(Term::NAME * VALUES + value % VALUES)
    }

    pub fn number(value: u32) -> Self
        ensures { result.0 ≡ number (value % term_values) }
    {
        Term(Term::NUMBER * VALUES + value % VALUES)
    }

    pub fn text(value: u32) -> Self
        ensures { result.0 ≡ text (value % term_values) }
    {
        Term(Term::TEXT * VALUES + value % VALUES)
    }

    pub fn variable(value: u32) -> Self
        ensures { result.0 ≡ variable (value % term_values) }
    {
        Term(Term::VARIABLE * VALUES + value % VALUES)
    }

    pub fn unbound() -> Self
        ensures { result.0 ≡ unbound }
    {
        Term(Term::UNBOUND)
    }

    pub fn kind(self) -> u32
        ensures { result ≡ term_kind self.0 }
    {
        self.0 / VALUES
    }

    pub fn value(self) -> u32
        ensures { result ≡ term_value self.0 }
    {
        self.0 % VALUES
    }

    pub fn is_variable(self) -> bool
        ensures { result ≡ is_variable self.0 }
    {
        self.0 / VALUES == Term::VARIABLE
    }

    pub fn is_number(self) -> bool
        ensures { result ≡ is_number self.0 }
    {
        self.0 / VALUES == Term::NUMBER
    }

    // Whether a delivered row may have it: of no kind 3 but unbound.
    pub fn is_value(self) -> bool
        ensures { result ≡ is_value self.0 }
    {
        self.0 <= Term::UNBOUND
    }

    // The place among the terms of its kind: a number's by its value, those below zero first.
    pub fn value_rank(self) -> u32
        ensures { result ≡ value_rank self.0 }
    {
        let value = self.0 % VALUES;
        if self.is_number() {
            return (value + HALF_VALUES) % VALUES;
        }
        value
    }

    // The place in the order of keys: unbound, then names, numbers, texts, each by value. A number's sign bit, the one below its kind's two, is
    // turned over: of the three kinds its own has the second of these two bits.
    pub fn key_rank(self) -> u32
        ensures { (result ≡ key_rank self.0) × (result ≤ last_rank) }
    {
        if self.0 < Term::UNBOUND {
            (self.0 ^ (self.0 / 2 & HALF_VALUES)) + 1
        } else {
            0
        }
    }
}

impl PlanWord {
    pub const YEAR: u32 = 0;

    pub const HEAD: u32 = 1;

    pub const BRANCH: u32 = 2;

    pub const TRUE: u32 = 3;

    pub const AND: u32 = 4;

    pub const OR: u32 = 5;

    pub const NOT: u32 = 6;

    pub const COMPARISON: u32 = 7;

    pub const ROWS: u32 = 8;

    pub const TOP: u32 = 9;

    pub const RISING: u32 = 10;

    pub const FALLING: u32 = 11;

    pub const GROUP: u32 = 12;

    pub const REGISTERS: u32 = 13;

    // The comparisons, by their numbers.
    pub const EQUAL: u32 = 0;

    pub const UNEQUAL: u32 = 1;

    pub const LESS: u32 = 2;

    pub const AT_MOST: u32 = 3;

    pub const GREATER: u32 = 4;

    pub const AT_LEAST: u32 = 5;

    // The last of them.
    pub const LAST_OPERATOR: u32 = 5;

    // The year `number`, or 0 for every year there is.
    pub fn year(number: u32) -> Self
        ensures { result.0 ≡ year_word (number % low_numbers) }
    {
        PlanWord(PlanWord::YEAR * NUMBERS + number % NUMBERS)
    }

    pub fn head(branches: u32) -> Self
        ensures { result.0 ≡ word head_kind (branches % low_numbers) }
    {
        PlanWord(PlanWord::HEAD * NUMBERS + branches % NUMBERS)
    }

    pub fn branch(patterns: u32) -> Self
        ensures { result.0 ≡ word branch_kind (patterns % low_numbers) }
    {
        PlanWord(PlanWord::BRANCH * NUMBERS + patterns % NUMBERS)
    }

    pub fn always() -> Self
        ensures { result.0 ≡ word true_kind 0 }
    {
        PlanWord(PlanWord::TRUE * NUMBERS)
    }

    pub fn and() -> Self
        ensures { result.0 ≡ word and_kind 0 }
    {
        PlanWord(PlanWord::AND * NUMBERS)
    }

    pub fn or() -> Self
        ensures { result.0 ≡ word or_kind 0 }
    {
        PlanWord(PlanWord::OR * NUMBERS)
    }

    pub fn not() -> Self
        ensures { result.0 ≡ word not_kind 0 }
    {
        PlanWord(PlanWord::NOT * NUMBERS)
    }

    pub fn comparison(operator: u32) -> Self
        ensures { result.0 ≡ word comparison_kind (operator % low_numbers) }
    {
        PlanWord(PlanWord::COMPARISON * NUMBERS + operator % NUMBERS)
    }

    pub fn rows(variables: u32) -> Self
        ensures { result.0 ≡ word rows_kind (variables % low_numbers) }
    {
        PlanWord(PlanWord::ROWS * NUMBERS + variables % NUMBERS)
    }

    pub fn top(count: u32) -> Self
        ensures { result.0 ≡ word top_kind (count % low_numbers) }
    {
        PlanWord(PlanWord::TOP * NUMBERS + count % NUMBERS)
    }

    pub fn rising(variable: u32) -> Self
        ensures { result.0 ≡ word rising_kind (variable % low_numbers) }
    {
        PlanWord(PlanWord::RISING * NUMBERS + variable % NUMBERS)
    }

    pub fn falling(variable: u32) -> Self
        ensures { result.0 ≡ word falling_kind (variable % low_numbers) }
    {
        PlanWord(PlanWord::FALLING * NUMBERS + variable % NUMBERS)
    }

    pub fn group(variables: u32) -> Self
        ensures { result.0 ≡ word group_kind (variables % low_numbers) }
    {
        PlanWord(PlanWord::GROUP * NUMBERS + variables % NUMBERS)
    }

    pub fn registers() -> Self
        ensures { result.0 ≡ word registers_kind 0 }
    {
        PlanWord(PlanWord::REGISTERS * NUMBERS)
    }

    pub fn kind(self) -> u32
        ensures { result ≡ kind self.0 }
    {
        self.0 / NUMBERS
    }

    pub fn low(self) -> u32
        ensures { result ≡ low self.0 }
    {
        self.0 % NUMBERS
    }
}

impl StateWord {
    pub const YEAR: u32 = 0;

    pub const SURVEY: u32 = 13;

    pub const POSITION: u32 = 14;

    pub const PLACE: u32 = 15;

    // The depths that a position has room for.
    pub const DEPTHS: u32 = 16;

    // The number of a survey.
    pub fn survey(number: u32) -> Self
        ensures { result.0 ≡ survey_word (number % low_numbers) }
    {
        StateWord(StateWord::SURVEY * NUMBERS + number % NUMBERS)
    }

    // The year whose rows are being read.
    pub fn year(number: u32) -> Self
        ensures { result.0 ≡ year_word (number % low_numbers) }
    {
        StateWord(StateWord::YEAR * NUMBERS + number % NUMBERS)
    }

    // The branch number `branch` (from 0) and `depth`.
    pub fn position(branch: u32, depth: u32) -> Self
        requires { (branch < 4) × (depth < depths) }
        ensures { result.0 ≡ position_word branch depth }
    {
        StateWord(StateWord::POSITION * NUMBERS + branch * StateWord::DEPTHS + depth)
    }

    pub fn place(number: u32) -> Self
        ensures { result.0 ≡ place_word (number % low_numbers) }
    {
        StateWord(StateWord::PLACE * NUMBERS + number % NUMBERS)
    }

    pub fn kind(self) -> u32
        ensures { result ≡ kind self.0 }
    {
        self.0 / NUMBERS
    }

    // The number of a survey's word, the year of a year's, the place of a place word.
    pub fn number(self) -> u32
        ensures { result ≡ low self.0 }
    {
        self.0 % NUMBERS
    }

    pub fn branch(self) -> u32
        ensures { result ≡ branch_of self.0 }
    {
        self.0 % NUMBERS / StateWord::DEPTHS
    }

    pub fn depth(self) -> u32
        ensures { result ≡ depth_of self.0 }
    {
        self.0 % NUMBERS % StateWord::DEPTHS
    }
}

// `x` as an index.
pub fn wide(x: u32) -> usize
    ensures { result ≡ x }
{
    x as usize
}

// The value of the term `word`: a variable's binding, and a constant itself.
pub fn value_of(word: u32, bound: &[u32; 16]) -> u32
    ensures { result ≡ value_of bound.now word }
{
    let term = Term(word);
    if term.is_variable() {
        let values: &[u32] = bound;
        let variable = wide(term.value());
        if variable < values.len() {
            return values[variable];
        }
        return Term::UNBOUND;
    }
    word
}

// Fills `list` with the numbers from 0 on.
pub fn count_up(list: &mut [u32])
    requires { length list.old ≤ 4294967296 }
    ensures { list.new ≡ numbers (length list.old) }
{
    for (i, number) in list.iter_mut().enumerate() {
        *number = i as u32;
    }
}

// Copies `words` to `buf`, from `a` on.
pub fn copy_in<T: Copy>(buf: &mut [T], a: usize, words: &[T])
    requires { a + length words.now ≤ length buf.old }
    ensures { buf.new ≡ paste buf.old a words.now (length words.now) }
{
    let end = a + words.len();
    buf[a..end].copy_from_slice(words);
}
