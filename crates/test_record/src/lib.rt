//! What a file stands for, by the definition of a record: which lists of entries are histories, how they are
//! spelled, what they record, and why a file that stands for none is refused. With it `test_paxos` computes
//! what damaged bytes stand for.
#![tactic(auto)]

pub mod entry;
pub mod history;
pub mod recorded;
pub mod spelling;
pub mod standing;
