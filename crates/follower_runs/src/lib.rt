//! A follower through whole runs of calls.
#![tactic(auto)]

#[cfg(test)]
mod causes;
#[cfg(test)]
mod late_join;
#[cfg(test)]
mod refusals;
#[cfg(test)]
mod samples;
#[cfg(test)]
mod stops;
#[cfg(test)]
mod walk;
