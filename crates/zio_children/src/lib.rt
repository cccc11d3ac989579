//! The children of a request in an attempt, as a value that stops and resumes.
//!
//! A request's plan begins with the attempts of its children's trees, and its own work goes on behind them: a read or a
//! free at once, a write once each child has told its pointer. `Kids` keeps what each child told and left. It stands on
//! the slots of `zio_frames`, which say what is left of a plan. Read `Kids` first, and `children_stand_first` for what
//! is left of the request.
#![tactic(auto)]

mod kept;
mod kid_laws;
mod kids;

pub use kept::KeptChild;
pub use kid_laws::{children_hand_on_what_is_kept, children_stand_first};
pub use kids::{KidStep, Kids};
