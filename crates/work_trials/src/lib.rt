// Works, run, as tables with values worked out by hand: cases judged, takings, what calls and readings refuse and in which order, the
// rules of entries, the room that opening needs, and lists of calls. Tables stand behind references: as arrays, most of these were
// built row by row in the proof of each function that names one.
#![tactic(auto)]

#[cfg(test)]
mod interleaved;
#[cfg(test)]
mod judged;
#[cfg(test)]
mod reads;
#[cfg(test)]
mod refusals;
#[cfg(test)]
mod rooms;
#[cfg(test)]
mod rules;
#[cfg(test)]
mod seven;
#[cfg(test)]
mod takings;
#[cfg(test)]
mod works;
