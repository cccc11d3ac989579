//! A run of the top call over one or two images in memory, as tests want it: by `zio_serial_main`, with picks or without,
//! or by `zio_main`, and while one call of the outside fails.
#![tactic(auto)]

mod runs;

pub use runs::{
    Case, Failing, Object, Ran, bytes_of, run, run_failing, run_failing_by_workers, run_with_picks,
    words_of,
};
