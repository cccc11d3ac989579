// Which of a request's children are attempts, and which show that its own work is under way.

ghost use Rattle.std.specs.Prelude.{◌≡◌, ℕ, Option, Some};
ghost use Rattle.zio_types.specs.declared.request.ChildKind.TheVariants.{Gang, Logical};
ghost use Rattle.zio_trace.specs.Tasks.{One};
ghost use Rattle.zio_children.specs.declared.kids.KidState.{KidState};
ghost use Rattle.zio_children.specs.declared.kids.KidState.TheVariants.{Out};
ghost use Rattle.zio_stages.specs.RequestHearings.{HearsEarlyOf, HearsValueOf, IsAttemptedBy, IsKidTold, IsNoAttempt, IsUnderWay};
ghost use Rattle.zio_stages.specs.RequestNodes.{IsKidAt};
ghost use Rattle.zio_stages.specs.declared.request_node.RequestNode.{RequestNode};

/// A logical child of a request that hasn't told is out for one of the request's children. One that ended as an attempt
/// did the attempt of the tree at its place, and told the pointer that its value has.
pub fn logical_children_are_attempts()
    ensures early { (r : RequestNode) (n : ℕ) → HearsEarlyOf Logical r n →
        IsKidAt (λ (state : Option KidState). state ≡ Some Out) r n }
    ensures told { (r : RequestNode) (n : ℕ) (one : One) (x : HearsValueOf (IsAttemptedBy one) r n) →
        IsKidTold r n x.op one.return.child.pointer }
{}

/// A gang child of a request that hasn't told, or a child that ended as something else than an attempt, is one of its
/// own work, which is under way then.
pub fn other_children_show_own_work()
    ensures early { (r : RequestNode) (n : ℕ) → HearsEarlyOf Gang r n → IsUnderWay r.own }
    ensures value { (r : RequestNode) (n : ℕ) → HearsValueOf IsNoAttempt r n → IsUnderWay r.own }
{}
