// The constraint model of a sheet at an interval, which the search solves: the task (a lag for each pair of operations,
// which together ask what the dependences ask, and types with their instances) and the domain of starts that each
// operation may have.
// An inner layer, a crate of its own for the check's time: its functions ask for a sheet in range, an interval up to
// the cap, the sheet's graph and its lags. Caller: schedule::plan_at, after the sheet's questions, 4 and 5.
#![tactic(auto)]

pub mod allowed;
pub mod build;
