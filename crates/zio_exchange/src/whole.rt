//! A tree of requests that isn't in flight.

ghost use Rattle.std.specs.Prelude.{◌≡◌, ◌∷◌, ◌++◌, [], IfErr, IfOk, IfSome, Some, length};
ghost use Rattle.std.specs.List.{AllByRecursion};
ghost use Rattle.zio_script.specs.Requests.{kind_of};
ghost use Rattle.zio_trace.specs.Families.{Forest};
ghost use Rattle.zio_children.specs.RequestKids.{RiseFrom};
ghost use Rattle.zio_exchange.specs.declared.waiting.UnfinishedRequest.{UnfinishedRequest as SeenWaiting};
ghost use Rattle.zio_exchange.specs.Waits.{fresh, pending_of, pendings};
ghost use Rattle.zio_exchange.specs.Wholes.{AreOver, AreTrees, IsTreeOf, IsWhole, counted, joined, root_number, root_of, roots_in};

use crate::request::request_again;
use crate::waiting::UnfinishedRequest;
use std::alloc::Global;
use std::marker::Model;
use zio_gang::Tree;
use zio_script::Request;
use zio_types::{Kind, List, NoMemory, ReqNo};

/// A tree of requests that haven't finished, none of which is in flight: a request over its children's trees. A contract
/// sees the list of its requests: each child's tree by number, then the request itself. `pendings` are these as the
/// definitions have them.
#[derive(Debug, Drop)]
pub struct Whole {
    root: Box<UnfinishedRequest>,
    /// By number.
    children: Vec<Whole>,
}

impl Model for Whole {
    ghost use Rattle.std.specs.Prelude.{List, length, ◌++◌, ◌∷◌, []};
    ghost use Rattle.zio_exchange.specs.declared.waiting.UnfinishedRequest.{UnfinishedRequest};

    ghost Value = { List UnfinishedRequest };

    ghost use Rattle.zio_exchange.specs.Wholes.{AreOver, joined};

    ghost view = { λ w. joined w.children.items ++ w.root.value ∷ [] };

    ghost invariant = { λ w. AreOver w.children.items w.root.value };

    ghost size = { length };

    ghost use Rattle.std.proofs.Common.{arith, length-append};
    ghost use Rattle.zio_exchange.specs.WholeSizes.{most_joined};

    ghost size_decreases = { λ w h. omega (arith, most_joined w.children.items, length-append (joined w.children.items) (w.root.value ∷ [])) };
}

/// There is no memory to begin with this tree.
#[derive(Debug, Drop)]
pub struct WholeBack {
    pub whole: Whole,
}

/// There is no memory for a tree over these.
#[derive(Debug, Drop)]
pub struct ChildrenBack {
    pub children: List<Whole>,
}

impl Whole {
    /// Makes a tree of a request that no round has seen and its children's trees, which come by rising number. Where
    /// memory is refused the children come back.
    pub fn over(
        alloc: Global,
        request: &Request,
        birth: u32,
        block: Option<Tree>,
        children: List<Whole>,
    ) -> Result<Whole, ChildrenBack>
        requires rising { RiseFrom 0 (roots_in children) }
        ensures list { IfOk result (λ tree. pendings tree ≡ pendings (joined children) ++ fresh request.now birth block
            ∷ []) }
        ensures tree { IfOk result (λ tree. (forest : Forest) → AreTrees children forest →
            IsTreeOf tree (fresh request.now birth block) forest) }
        ensures back { IfErr result (λ e. e.children ≡ children) }
    {
        match root_over(alloc, request, birth, block) {
            Ok(root) => Ok(Whole::grown(root, children.into_vec())),
            Err(NoMemory) => Err(ChildrenBack { children }),
        }
    }

    /// The tree of a request over these, which come by rising number. It sets how many they are, and takes no memory.
    pub fn grown(root: Box<UnfinishedRequest>, children: Vec<Whole>) -> Whole
        requires rising { RiseFrom 0 (roots_in children.items) }
        ensures list { result ≡ joined children.items ++ counted root.value (length children.items) ∷ [] }
        ensures tree { (forest : Forest) → AreTrees children.items forest →
            IsTreeOf result (pending_of root.value) forest }
    {
        are_whole(&children);
        let mut root = root;
        root.unfinished = children.len();
        Whole { root, children }
    }

    /// Its request, and its children's trees by number.
    pub fn into_parts(self) -> (Box<UnfinishedRequest>, Vec<Whole>)
        ensures list { self ≡ joined result.1.items ++ result.0.value ∷ [] }
        ensures over { AreOver result.1.items result.0.value }
    {
        let Whole { root, children } = self;
        (root, children)
    }

    /// The request that is attempted last.
    pub fn root(&self) -> &UnfinishedRequest
        ensures root { root_of self.now ≡ Some result.now }
        ensures whole { IsWhole self.now }
    {
        &self.root
    }

    /// Its number.
    pub fn number(&self) -> ReqNo
        ensures { root_number self.now ≡ Some result }
    {
        self.root().request.number
    }

    /// Its kind.
    pub fn kind(&self) -> Kind
        ensures { IfSome (root_of self.now) (λ (w : SeenWaiting). result ≡ kind_of w.request.work) }
    {
        self.root().request.work.kind()
    }

    /// How many of its children haven't finished.
    pub fn unfinished(&self) -> usize
        ensures { IfSome (root_of self.now) (λ (w : SeenWaiting). result ≡ w.unfinished) }
    {
        self.root().unfinished
    }
}

/// A request that no round has seen, over no trees.
fn root_over(
    alloc: Global,
    request: &Request,
    birth: u32,
    block: Option<Tree>,
) -> Result<Box<UnfinishedRequest>, NoMemory>
    ensures { IfOk result (λ root. pending_of root.value ≡ fresh request.now birth block) }
{
    let request = request_again(alloc, request)?;
    let root = UnfinishedRequest {
        request,
        birth,
        block,
        kept: List::new(alloc),
        unfinished: 0,
    };
    match Box::new(alloc, root) {
        Ok(root) => Ok(root),
        Err(_) => Err(NoMemory),
    }
}

/// What holds of every tree: it is whole. It does nothing.
fn are_whole(trees: &[Whole])
    ensures { AllByRecursion IsWhole trees.now }
{
    for tree in trees {
        let _ = &tree.root;
    }
}
