//! Threads that serve many connections over one core.
//!
//! `run_workers` is handed gates, the devices of connections 0 and up, and shares them out among workers, each a thread. A
//! worker moves octets between its gates and its engines, turn by turn, and reaches the core only through an `Exchange`. A
//! connection ends where its gate ends or fails, or its engine is over and all is given. When all have ended, what the
//! ports took and gave is compared with the one capture, and each gate is handed back beside what came of it.
//!
//! In reading order: `report` is what a run comes to; `line` keeps a gate and its engine, whose octets `conn_engine` moves;
//! `done` is what is left of a line that has ended; `alarm` tells workers that one has stopped; `work` is what one thread
//! does; `run` starts them, joins them and makes the report, with `parts`: gates and seats, apart while the exchange is closed.
//!
//! Below them stands a router over sockets: the gates of connections, with one poll for all sockets of a worker, and the workers
//! of a run, each with the slots that take its connections (`serve`). Each gate is a slot (`ConnectionSlot`) that takes one
//! connection from a listener. The slots of a worker share a poll (`worker_poll`), in which all its sockets and the listener
//! stand, what is known of each socket since, and a waker. So a read or a write asks the system only where it may do something,
//! and a wait ends at the first sign of any socket. It ends too where a socket of another worker has delivered octets, since the
//! router may have written frames because of them.
//!
//! In reading order: `watch` is the sockets in a poll, which are those of `polled_sockets`; `worker_poll` is what a worker's slots
//! share; `slot` is a gate; `opening` makes the slots of a listener; `socket_run` runs the workers.
#![tactic(auto)]

mod alarm;
mod done;
mod line;
mod opening;
mod report;
mod run;
mod slot;
mod socket_run;
mod watch;
mod work;
mod worker_poll;

pub use core_exchange::{Exchange, ExchangePort, Seat};
pub use opening::{open_slots, slots_at};
pub use report::{ConnReport, RunFault, RunReport, TakenOctets};
pub use run::run_workers;
pub use slot::ConnectionSlot;
pub use socket_run::serve;
