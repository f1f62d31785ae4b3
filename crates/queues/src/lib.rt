// Queries of several owners that wait over one set of tables: entries, both lists; joining, topping up and serving, tests, answers and lists at exit; fair
// turns and accounts.
#![tactic(auto)]

use turns::Turned;

// A waiting query: the steps left to it, its owner, and its plan and its state, each the first words of its array.
#[repr(C)]
#[derive(Clone, Copy)]
pub struct Entry {
    pub allowance: u64,
    pub owner: u32,
    pub planned: u32,
    pub saved: u32,
    pub plan: [u32; 256],
    pub state: [u32; 11],
}

// What joining and topping up answer: how many entries the line and the list set aside have now, or the number of the test that refused
// the call.
#[derive(Clone, Copy)]
pub enum Queued {
    Lists(usize, usize),
    Refused(u32),
}

// What serving answers: what the turn of the front entry answered; whose it was; the steps left to it; and how many entries the line and
// the list set aside have now.
#[derive(Clone, Copy)]
pub struct Service {
    pub turned: Turned,
    pub owner: u32,
    pub left: u64,
    pub waiting: usize,
    pub resting: usize,
}
