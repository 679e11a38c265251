//! Tests of the public calls of `rd_run`, and of what stands on a tree that a script ends with. They stand apart from `rd_tests`,
//! which is checked beside `rd_run`.
#![tactic(auto)]

#[cfg(test)]
mod last;
#[cfg(test)]
mod run;
#[cfg(test)]
mod trace;
