//! Tables of requests and of what comes of them. First reading: heads, targets and bodies, in pieces, cut, at
//! the limits, several on a connection, and how far a reading is. Then service from memory (`desk`): each
//! path with each method, submissions, refusals, readers and writers that fail, steps (`lines`), and several
//! requests at once (`pipelined`). Each allocation is made to fail once.
#![tactic(auto)]

#[cfg(test)]
mod asks;
#[cfg(test)]
mod bodies;
#[cfg(test)]
mod comparing;
#[cfg(test)]
mod cuts;
#[cfg(test)]
mod desk;
#[cfg(test)]
mod each_end;
#[cfg(test)]
mod ends;
#[cfg(test)]
mod heads;
#[cfg(test)]
mod limits;
#[cfg(test)]
mod lines;
#[cfg(test)]
mod paths;
#[cfg(test)]
mod pieces;
#[cfg(test)]
mod pipelined;
#[cfg(test)]
mod reading;
#[cfg(test)]
mod refusals;
#[cfg(test)]
mod responses;
#[cfg(test)]
mod served_cuts;
#[cfg(test)]
mod served_several;
#[cfg(test)]
mod several;
#[cfg(test)]
mod speed;
#[cfg(test)]
mod standing;
#[cfg(test)]
mod steps;
#[cfg(test)]
mod submissions;
#[cfg(test)]
mod targets;
#[cfg(test)]
mod texts;
