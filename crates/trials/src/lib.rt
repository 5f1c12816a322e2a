// Bytes, solvers and sieves at the limits, run. Tables of changed bytes with the refusal that each must bring: the expected values are
// worked out by hand from the description of the format, not from the code. Tables of calls for both solvers, at the edges of what
// they hold and of the variables that there are. Tables of descents over small systems and over as many relays and candidates as
// there may be: the marks given, and those that are left.
#![tactic(auto)]

#[cfg(test)]
mod answers;
#[cfg(test)]
mod candidate_descents;
#[cfg(test)]
mod candidate_moves;
#[cfg(test)]
mod candidates;
#[cfg(test)]
mod capacities;
#[cfg(test)]
mod changes;
#[cfg(test)]
mod lengths;
#[cfg(test)]
mod literal_descents;
#[cfg(test)]
mod literal_moves;
#[cfg(test)]
mod many_candidates;
#[cfg(test)]
mod moves;
#[cfg(test)]
mod reading;
#[cfg(test)]
mod sift_refusals;
#[cfg(test)]
mod solvers;
#[cfg(test)]
mod variables;
