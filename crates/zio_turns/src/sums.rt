//! Numbers at places, and the place at which their sum passes a given number.
//!
//! The nodes lie as in a heap: node 1 is the root, node i has the sum of nodes 2 i and 2 i + 1, and the places are the
//! last half of them. Node 0 stands for nothing.

ghost use Rattle.std.specs.Prelude.{◌≡◌, ◌+◌, ◌-◌, ◌<◌, ◌≤◌, ◌^◌, length, take, slice_index, slice_set};
ghost use Rattle.zio_turns.specs.LineSums.{AreSums, places_of, sum_of};

/// The place at which the sum of the numbers from the first on passes `k`.
pub(crate) fn place_of(nodes: &[usize], k: usize) -> usize
    requires sums { AreSums nodes.now }
    requires within { k < sum_of (places_of nodes.now) }
    ensures place { result < length (places_of nodes.now) }
    ensures before { sum_of (take result (places_of nodes.now)) ≤ k }
    ensures passes { k < sum_of (take (result + 1) (places_of nodes.now)) }
{
    let first = nodes.len() / 2;
    let mut left = k;
    let mut node = 1;
    while node < first {
        node *= 2;
        if nodes[node] <= left {
            left -= nodes[node];
            node += 1;
        }
    }
    node - first
}

/// One more at a place.
pub(crate) fn raise(nodes: &mut [usize], place: usize)
    requires sums { AreSums nodes.old }
    requires place { place < length (places_of nodes.old) }
    requires fits { sum_of (places_of nodes.old) < usize.MAX }
    ensures sums { AreSums nodes.new }
    ensures places { places_of nodes.new
        ≡ slice_set (places_of nodes.old) place (slice_index (places_of nodes.old) place + 1) }
{
    let mut node = nodes.len() / 2 + place;
    while node > 0 {
        nodes[node] += 1;
        node /= 2;
    }
}

/// One less at a place that has some.
pub(crate) fn lower(nodes: &mut [usize], place: usize)
    requires sums { AreSums nodes.old }
    requires place { place < length (places_of nodes.old) }
    requires some { 0 < slice_index (places_of nodes.old) place }
    ensures sums { AreSums nodes.new }
    ensures places { places_of nodes.new
        ≡ slice_set (places_of nodes.old) place (slice_index (places_of nodes.old) place - 1) }
{
    let mut node = nodes.len() / 2 + place;
    while node > 0 {
        nodes[node] -= 1;
        node /= 2;
    }
}

/// The sum of all numbers.
pub(crate) fn whole(nodes: &[usize]) -> usize
    requires { AreSums nodes.now }
    ensures { result ≡ sum_of (places_of nodes.now) }
{
    if nodes.len() == 0 { 0 } else { nodes[1] }
}
