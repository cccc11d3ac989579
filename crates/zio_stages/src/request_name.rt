//! What names the nodes of a request's work.

ghost use Rattle.std.specs.Prelude.{◌≡◌, ◌<◌, []};
ghost use Rattle.zio_stages.specs.Labels.{bytes_read, request_label};

use crate::at_once::root;
use crate::label::{Label, Level, sectors_in};
use crate::named::Named;
use zio_exchange::UnfinishedRequest;
use zio_script::Work;
use zio_types::Role;

/// The label of the node that attempts the request.
pub fn request_label(waiting: &UnfinishedRequest, attempt: u32) -> u64
    ensures { result ≡ request_label waiting.now attempt }
{
    let label = Label {
        // No number of a script is higher.
        request: waiting.request.number % 65_536,
        path: root(),
        role: Role::Body,
        place: 0,
        image: 0,
        level: Level::Part,
        attempt: attempt % 4,
        retry: false,
        repair: false,
        sectors: sectors_in(bytes_read(waiting)),
    };
    label.pack()
}

/// How many bytes it reads.
fn bytes_read(waiting: &UnfinishedRequest) -> usize
    ensures { result ≡ bytes_read waiting.now }
{
    match (&waiting.request.work, &waiting.block) {
        (Work::Read { .. }, Some(tree)) => tree.bp.size as usize,
        _ => 0,
    }
}

/// What the nodes of its own work are named by, in an attempt of this number: the block's body.
pub(crate) fn body_name(waiting: &UnfinishedRequest, attempt: u32) -> Named
    requires { attempt < 4 }
    ensures { result.path ≡ [] }
{
    Named::new(waiting.request.number % 65_536, root(), Role::Body, attempt)
}

/// What a walk over its block's headers is named by: the first of these.
pub(crate) fn headers_name(waiting: &UnfinishedRequest, attempt: u32) -> Named
    requires { attempt < 4 }
    ensures { result.path ≡ [] }
{
    body_name(waiting, attempt).with_role(Role::Head)
}
