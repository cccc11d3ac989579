//! The pipeline: a node of a request goes from stage to stage, waits for its children, and ends.
#![tactic(auto)]

mod at_once;
mod attempted;
mod check;
mod closing;
mod copies_node;
mod family;
mod give_back;
mod heads;
mod heads_node;
mod io_laws;
mod kid_laws;
mod label;
mod leaf;
mod named;
mod node_io;
mod origin;
mod own_claim;
mod own_free;
mod own_gang;
mod own_laws;
mod own_read;
mod own_write;
mod part;
mod part_io;
mod part_members;
mod part_node;
mod part_work;
mod pointer_laws;
mod pointer_places;
mod read_io;
mod request_claim;
mod request_found;
mod request_free;
mod request_heard;
mod request_kind;
mod request_name;
mod request_node;
mod request_placed;
mod request_read;
mod request_read_heard;
mod request_stored;
mod request_write;
mod stored_block;
mod tree;
mod write_io;
mod write_laws;

pub use attempted::RequestKids;
pub use check::Check;
pub use closing::{Finished, Outcome, Seal};
pub use copies_node::CopiesNode;
pub use family::{Family, Layer, Seat};
pub use heads::{HeadRead, HeadsWork};
pub use heads_node::HeadsNode;
pub use io_laws::reads_and_writes_of_copies_ask_leaves;
pub use kid_laws::{logical_children_are_attempts, other_children_show_own_work};
pub use leaf::LeafWork;
pub use named::Named;
pub use node_io::IoNext;
pub use own_laws::{
    bodies_of_a_walk_lie_on_the_tops, own_work_stands_behind_children,
    own_work_stays_while_children_go_on, what_is_no_write_has_no_pointer,
};
pub use part::PartOwn;
pub use part_node::PartNode;
pub use pointer_laws::reads_tell_no_pointer;
pub use read_io::ReadIo;
pub use request_name::request_label;
pub use request_node::{DoneStep, ReadyStep, RequestNode, Start};
pub use request_read::{BodyStage, ReadDone};
pub use request_write::{Block, Content};
pub use tree::TreeWork;
pub use write_io::{IoStep, WriteIo};
pub use write_laws::{a_write_is_that_of_its_block, children_that_told_settle_the_content};
