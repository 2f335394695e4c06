//! Servers without sockets and clock: the rules of their waiting as tables, seats, and groups joined in
//! memory by scripts. `programs` has the other programs' engines and the command lines.
#![tactic(auto)]

#[cfg(test)]
mod asking;
#[cfg(test)]
mod behind_turns;
#[cfg(test)]
mod catching_up;
#[cfg(test)]
mod client;
#[cfg(test)]
mod coming_back;
#[cfg(test)]
mod comparing;
#[cfg(test)]
mod courses;
#[cfg(test)]
mod far;
#[cfg(test)]
mod floors;
#[cfg(test)]
mod group;
#[cfg(test)]
mod growing;
#[cfg(test)]
mod keeping;
#[cfg(test)]
mod last_questions;
#[cfg(test)]
mod majorities;
#[cfg(test)]
mod notes;
#[cfg(test)]
mod pacing;
#[cfg(test)]
mod packets;
#[cfg(test)]
mod partings;
#[cfg(test)]
mod plain;
#[cfg(test)]
mod programs;
#[cfg(test)]
mod receipts;
#[cfg(test)]
mod refusals;
#[cfg(test)]
mod resting;
#[cfg(test)]
mod returning;
#[cfg(test)]
mod scripts;
#[cfg(test)]
mod seats;
#[cfg(test)]
mod views;
#[cfg(test)]
mod whose_turn;
#[cfg(test)]
mod written_clock;
#[cfg(test)]
mod yielding;
