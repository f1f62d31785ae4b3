// How far a query has come: what the call `reached` answers, its tests in order, and that along the run it never goes back. Crate reach_calls has the
// call.
#![tactic(auto)]

// Of the years and the branches how many there are and the number of the state's, from 0; of the first level's range the places, and those passed. Or the
// number of the test that refused it.
#[derive(Clone, Copy)]
pub enum HowFar {
    At {
        years: u32,
        year: u32,
        branches: u32,
        branch: u32,
        places: u32,
        passed: u32,
    },
    Refused(u32),
}
