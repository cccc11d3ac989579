//! The top calls of the programs that run scripts, on one thread, with workers, and over disks with a volatile cache: from
//! the words of a command to its code.
//!
//! It stands on `zio_command`, which has all that is the same for every engine, on `zio_graph`, whose engine it makes, on
//! `zio_workers`, whose crew may help it, and on `zio_flush`, which syncs after each of its rounds. Read `zio_serial_main`
//! first, then `zio_main`, which promises the same, and `zio_durable_main`, which promises that the images are stable too:
//! `specs/Commands` and `specs/Codes` of `zio_command` say how each command ends, a row for each code, and its
//! `specs/Headline` what the codes 0, 4 and 9 mean.
#![tactic(auto)]

mod crews;
mod durable;
mod engine;
mod engines;
mod flushed;
mod rounds;
mod serial;
mod words;
mod workers;

pub use durable::zio_durable_main;
pub use serial::zio_serial_main;
pub use workers::zio_main;
