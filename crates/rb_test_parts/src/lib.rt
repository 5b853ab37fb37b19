//! Parts by themselves, of which no document says anything: readers and writers of std behind
//! sources and sinks, more rules for delays than have a number, messages as bytes, stages that are
//! closed, whom nodes expect and accuse, how the fault premise is judged, events that wait, and
//! nodes to which anything comes. Some calls of the libraries are run by these tests alone.
#![tactic(auto)]

#[cfg(test)]
mod accusing;
#[cfg(test)]
mod adapters;
#[cfg(test)]
mod expecting;
#[cfg(test)]
mod judging;
#[cfg(test)]
mod limits;
#[cfg(test)]
mod messages;
#[cfg(test)]
mod nodes;
#[cfg(test)]
mod stages;
#[cfg(test)]
mod together;
#[cfg(test)]
mod waiting;
