// Opening a query and a turn of it: what they answer. Their tests in order and their buffers at exit are defined in specs/; crate turn_calls has the
// calls.
#![tactic(auto)]

// How a turn ended: done, spent, full, or refused with its number.
#[derive(Clone, Copy)]
pub enum TurnEnding {
    Done,
    Spent,
    Full,
    Refused(u32),
}

// What a turn answers: its steps, its ending, and the words written to the state and to the output.
#[derive(Clone, Copy)]
pub struct Turned {
    pub steps: u32,
    pub ending: TurnEnding,
    pub saved: usize,
    pub listed: usize,
}
