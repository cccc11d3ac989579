ghost use Rattle.std.specs.Prelude.{◌≡◌, ◌≢◌, ◌<◌, ◌^◌, ◌-◌, length, IfOk, List, MatchResult, true, false};
ghost use Rattle.zio_types.specs.declared.request.ChildKind.TheVariants.{Vdev};
ghost use Rattle.zio_types.specs.declared.request.Phase.TheVariants.{Done};
ghost use Rattle.zio_latch.specs.Calls.{capacity, history, kids, latch_of as owners_latch, latch_shown, seen_by, shown};
ghost use Rattle.zio_latch.specs.History.{ChildStep, count_at};
ghost use Rattle.zio_latch.specs.declared.view.Kid.{Kid};
ghost use Rattle.zio_latch.specs.Latch.{RestsOn};
ghost use Rattle.zio_latch.specs.Receipts.{latch_kept};
ghost use Rattle.zio_latch.specs.Wakes.{IsWait, capacity_of, history_at, latch_of};
ghost use Rattle.zio_handover.specs.One.{IsOwnersWait, one_child};

use std::alloc::Global;
use std::thread::{self, Threads};
use zio_latch::{Fits, Owner, Parked, Receipt, Rests, Witness, Woken};
use zio_types::{ChildKind, NoMemory, Phase};

/// The one wake of the two answers.
pub fn woken_of<N: Rests + Drop, R: Fits + Drop, V: Fits + Drop>(
    witness: &Witness<N, R, V>,
    ended: Result<Woken<N, R, V>, Receipt>,
    waited: Result<Woken<N, R, V>, Parked>,
) -> Woken<N, R, V>
    requires ended { MatchResult ended
        (λ w. (latch_of w.arrived ≡ latch_kept witness.now)
        × ChildStep Done Vdev 0 one_child (history_at w.arrived) true)
        (λ r. (latch_shown r ≡ latch_kept witness.now) × ChildStep Done Vdev 0 one_child (shown r) false) }
    requires waited { MatchResult waited
        (λ w. (latch_of w.arrived ≡ latch_kept witness.now) × IsOwnersWait (history_at w.arrived)
        × (count_at Vdev Done (history_at w.arrived) ≡ 0))
        (λ p. (latch_shown p.receipt ≡ latch_kept witness.now) × IsOwnersWait (shown p.receipt)
        × (count_at Vdev Done (shown p.receipt) ≢ 0)) }
    ensures { latch_of result.arrived ≡ latch_kept witness.now }
{
    match (ended, waited) {
        (Ok(woken), Err(_)) => woken,
        (Err(_), Ok(woken)) => woken,
        (Err(receipt), Err(parked)) => {
            let _both = witness.compare(parked.receipt, receipt);
            unreachable!()
        }
        (Ok(one), Ok(other)) => {
            let Woken {
                node: _,
                arrived: mut by_child,
            } = one;
            let Woken {
                node: _,
                arrived: mut by_owner,
            } = other;
            let _both = witness.compare(by_owner.receipt(), by_child.receipt());
            unreachable!()
        }
    }
}

/// A child's value and its owner's node meet: with memory the node comes back, whichever of the two was last.
pub fn hand_over<N: Rests + Drop, R: Fits + Drop, V: Fits + Drop>(
    alloc: Global,
    node: N,
    value: V,
) -> Result<Woken<N, R, V>, NoMemory>
    requires fits { V.fits value 7 }
    requires rests { (ks : List Kid) → RestsOn N.rests node ks }
{
    let mut owner = Owner::<N, R, V>::new(alloc, 1)?;
    let Some(child) = owner.add(ChildKind::Vdev, 7)? else {
        unreachable!()
    };
    let witness = owner.witness()?;
    let ended = child.done(value);
    let waited = owner.wait(node, ChildKind::Vdev, Phase::Done);
    Ok(woken_of(&witness, ended, waited))
}

/// The same, with the child's end and the owner's wait on two threads.
pub fn hand_over_by_two<
    Rt: Threads + Sync,
    N: Rests + Drop + Send,
    R: Fits + Drop + Send,
    V: Fits + Drop + Send,
>(rt: &Rt, alloc: Global, node: N, value: V) -> Result<Woken<N, R, V>, NoMemory>
    requires fits { V.fits value 7 }
    requires rests { (ks : List Kid) → RestsOn N.rests node ks }
{
    let mut owner = Owner::<N, R, V>::new(alloc, 1)?;
    let Some(child) = owner.add(ChildKind::Vdev, 7)? else {
        unreachable!()
    };
    let witness = owner.witness()?;
    let (ended, waited) = thread::join(
        rt,
        move || -> Result<Woken<N, R, V>, Receipt>
            requires { (child.ready ≡ true) × V.fits value child.label }
            ensures came { MatchResult result
                (λ w. ChildStep Done child.kind child.number (seen_by child) (history_at w.arrived) true)
                (λ r. ChildStep Done child.kind child.number (seen_by child) (shown r) false) }
            ensures latch { MatchResult result
                (λ w. latch_of w.arrived ≡ child.seat.table_id)
                (λ r. latch_shown r ≡ child.seat.table_id) }
        { child.done(value) },
        move || -> Result<Woken<N, R, V>, Parked>
            requires { RestsOn N.rests node (kids owner) }
            ensures found { MatchResult result
                (λ w. IsWait Vdev Done owner (history_at w.arrived) × (count_at Vdev Done (history_at w.arrived) ≡ 0))
                (λ p. IsWait Vdev Done owner (shown p.receipt) × (count_at Vdev Done (shown p.receipt) ≢ 0)) }
            ensures latch { MatchResult result
                (λ w. (latch_of w.arrived ≡ owners_latch owner) × (capacity_of w.arrived ≡ capacity owner))
                (λ p. latch_shown p.receipt ≡ owners_latch owner) }
        { owner.wait(node, ChildKind::Vdev, Phase::Done) },
    );
    Ok(woken_of(&witness, ended, waited))
}
