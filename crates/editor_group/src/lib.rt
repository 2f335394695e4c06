//! What a publication asks of a group of nodes, and sends to it, over sockets.
//!
//! `address.rt` reads addresses, and `logins.rt` the file of their logins. `group.rt` says which node is
//! spoken to. `asking.rt` asks one node over a connection, with the bytes of `editor_http`. `asking_all.rt`
//! asks several at once, and `answering.rt` says which of them answer. `judging.rt` asks the group whether a
//! ledger is the newest. `delivering.rt` sends what is on its way in a saved ledger, until each command has
//! its receipt; `editor_plan` says what is asked next and what answers mean. `progress.rt` prints meanwhile
//! how far that is. `status.rt` prints what each node says of itself, which `reports.rt` asks. What real
//! sockets do is tested, not proved.
#![tactic(auto)]

mod address;
mod answering;
mod asking;
mod asking_all;
mod delivering;
mod group;
mod judging;
mod logins;
mod progress;
mod reports;
mod status;
mod stop;

pub use address::Address;
pub use asking::{ask, newest};
pub use delivering::deliver;
pub use group::Group;
pub use judging::{Look, confirm, look_at};
pub use logins::with_logins;
pub use reports::Published;
pub use status::tell_status;
