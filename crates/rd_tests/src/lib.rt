//! Tests of the public calls of the crates from the tree up; those of the crates below stand in `rd_low_tests`, those of the program
//! in `rd_run_tests`, and those that read what is private in their crates. A check of a crate with tests of its own proves the whole crate once more; here the crates below
//! stand proved, and the tests alone are checked.
#![tactic(auto)]

#[cfg(test)]
mod checking;
#[cfg(test)]
mod edits;
#[cfg(test)]
mod engine;
#[cfg(test)]
mod generated;
#[cfg(test)]
mod partial;
#[cfg(test)]
mod planting;
#[cfg(test)]
mod report;
#[cfg(test)]
mod scene;
#[cfg(test)]
mod stack;
#[cfg(test)]
mod tree;
#[cfg(test)]
mod undo;
