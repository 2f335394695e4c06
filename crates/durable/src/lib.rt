//! A node's record: its rounds, promises, votes and learned values, each on the disk before it is
//! acknowledged. A record that takes the place of a lost one has a floor, too.
#![tactic(auto)]

mod append;
mod batch;
mod cells;
mod cutting;
mod fault;
mod formatting;
mod growing;
mod laws;
mod opening;
mod parsing;
mod puts;
mod reading;
mod record;
mod recorded;
mod slots;
mod spelling;
mod staged;
mod sum;

pub use fault::RecordFault;
pub use laws::{
    batches_settle, files_stand_for_one_list, floors_stay, in_flight_settles, kept_records_open,
};
pub use opening::damage;
pub use record::Record;
