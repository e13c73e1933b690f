// Examples at the edges of the job format. They stand in a crate of their own, so that the crates that they speak of are
// not proved a second time for them.
#![tactic(auto)]

#[cfg(test)]
mod block_edges;
#[cfg(test)]
mod line_edges;
#[cfg(test)]
mod whole_jobs;
