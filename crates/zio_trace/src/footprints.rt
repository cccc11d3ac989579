ghost use Rattle.std.specs.Prelude.{List};
ghost use Rattle.zio_types.specs.Choices.{Choice};
ghost use Rattle.zio_cksum.specs.Images.{Images};
ghost use Rattle.zio_gang.specs.Attempts.{Terms};
ghost use Rattle.zio_trace.specs.Footprints.{FitsTask, Stays, Within};
ghost use Rattle.zio_trace.specs.Plans.{plan};
ghost use Rattle.zio_trace.specs.Programs.{Deed};
ghost use Rattle.zio_trace.specs.Tasks.{Task, Value};
ghost use Rattle.zio_trace.specs.Traces.{IsTrace};

/// Whatever fitting answers a task's plan gets, it asks only for what the task may do, and its own answer fits: a read
/// or a free of a block touches only the places of the block's pieces, a placed write only places that the journal has
/// for its keys, and a claim only reads headers before it takes places.
pub fn tasks_stay_within_their_footprints()
    ensures { (journal : List Choice) (t : Terms) (o : Task) →
        Stays (FitsTask journal t) (λ (q : Task). (d : Task) → Within journal t q d → Within journal t o d)
        (FitsTask journal t o) (plan t o) }
{}

/// Each task has a trace over any images: single operations that it may do, of which it is made. They happen one after
/// another, leave the images that the task leaves, and ask for the places that it asks for.
pub fn tasks_have_traces()
    ensures { (journal : List Choice) (t : Terms) (o : Task) (images : Images) →
        (ds : List (Deed Task Value)) × IsTrace journal t o images ds }
{}
