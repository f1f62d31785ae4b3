// How a query is played: what its player keeps, one turn and its list taken, how it goes on and ends; what demand 3 says of the calls themselves.
#![tactic(auto)]

use turns::Turned;
use words::Written;

// Which lists a query's player keeps: all, rows joined end to end; or those that are merged, the rows of a turn left in the output.
#[derive(Clone, Copy)]
pub enum Keeping {
    All,
    Merged,
}

// One turn and its list: what the turn answers, and the words of the kept list, or the number that refused the list.
#[derive(Clone, Copy)]
pub struct Step {
    pub turned: Turned,
    pub taken: Written,
}

// How a query goes on after a turn: from its saved words, with the words of the kept list; it is over; or it is stopped by a number.
#[derive(Clone, Copy)]
pub enum Went {
    On { saved: usize, words: usize },
    Over(usize),
    Stopped(u32),
}

// How a play came out: finished, with the words of the whole list; not finished, with the saved words and the words of the list
// so far; opened and then stopped by a number; or not opened, refused with a number, and no buffer changed.
#[derive(Clone, Copy)]
pub enum Played {
    Finished(usize),
    Unfinished { saved: usize, words: usize },
    Stopped(u32),
    Refused(u32),
}
