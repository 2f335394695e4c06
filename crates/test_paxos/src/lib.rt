//! Rows of the protocol: messages as datagrams, the verdicts of an acceptor, attempts, told votes and chosen
//! values. Records that keep them: files byte by byte, cut and damaged; crashes after each call, calls that
//! fail, batches, a real file. What damaged bytes stand for is computed: the functions that decide it
//! (`test_record`) are proved to be the definition of a record. Each allocation fails in turn.
#![tactic(auto)]

#[cfg(test)]
mod attempts;
#[cfg(test)]
mod batches;
#[cfg(test)]
mod changes;
#[cfg(test)]
mod comparing;
#[cfg(test)]
mod crashes;
#[cfg(test)]
mod damage;
#[cfg(test)]
mod disks;
#[cfg(test)]
mod failures;
#[cfg(test)]
mod files;
#[cfg(test)]
mod floors;
#[cfg(test)]
mod growing;
#[cfg(test)]
mod learned;
#[cfg(test)]
mod listed;
#[cfg(test)]
mod member;
#[cfg(test)]
mod messages;
#[cfg(test)]
mod records;
#[cfg(test)]
mod refusals;
#[cfg(test)]
mod samples;
#[cfg(test)]
mod spans;
#[cfg(test)]
mod steps;
#[cfg(test)]
mod stored;
