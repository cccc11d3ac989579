//! An engine over disks, as the run of a script needs it.

ghost use Rattle.std.specs.Prelude.{◌≡◌, ◌↔◌, ℕ, List as Seq, false};
ghost use Rattle.zio_cksum.specs.Images.{Images};
ghost use Rattle.zio_gang.specs.declared.tree.Tree.{Tree as SeenTree};
ghost use Rattle.zio_disks.specs.Disks.{AreSameDisks, Tell};
ghost use Rattle.zio_disks.specs.Whole.{IsWholeTree};
ghost use Rattle.zio_graph.specs.Graphs.{SeenGraph, standing_of};

use zio_course::Runner;
use zio_graph::{Graph, Helper, Picks};
use zio_nodes::NodeBox;
use zio_outside::Disk;

/// Runs rounds over disks as `Graph` does, and hands the disks back.
pub(crate) trait Engine<D: Disk + Drop>: Runner + Drop {
    /// It is seen as a `Graph` is.
    ghost seen: { Self → SeenGraph D };

    /// What holds of the disks that it hands back, where it ran so many rounds and none was stopped.
    ghost leaves: { ℕ → Seq D → Type 0 };

    /// The disks, by the numbers of the leaves.
    fn into_disks(self) -> Vec<D>
        ensures disks { result.items ≡ (seen self).disks }
        ensures left { (seen self).stopped ≡ false → leaves (seen self).last result.items };

    ghost stands: { (e : Self) → Self.standing e ≡ standing_of D.faults (seen e) };

    ghost tells_images: { (e : Self) (images : Images) → Self.tells e images ↔ Tell D.image (seen e).disks images };

    ghost same_disks: { (a b : Self) → Self.same a b →
        AreSameDisks D.bytes D.faults D.faults_at_fetch D.home D.image D.sound (seen a).disks (seen b).disks };

    ghost fits_whole: { (tree : SeenTree) → Self.fits tree → IsWholeTree tree };
}

impl<D: Disk + Drop, P: Picks + Drop, H: Helper<NodeBox> + Drop> Engine<D> for Graph<D, P, H> {
    ghost use Rattle.std.specs.Prelude.{refl};

    ghost seen = { λ g. g };

    ghost leaves = { λ rounds disks. Unit {0} };

    fn into_disks(self) -> Vec<D> {
        Graph::into_disks(self)
    }

    ghost stands = { λ e. refl };

    ghost tells_images = { λ e images. (λ h. h, λ h. h) };

    ghost same_disks = { λ a b same. same };

    ghost fits_whole = { λ tree fits. fits };
}
