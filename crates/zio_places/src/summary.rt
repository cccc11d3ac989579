ghost use Rattle.std.specs.Prelude.{◌≡◌, ◌+◌, ◌^◌, ◌<◌, ◌≤◌, [], replicate};
ghost use Rattle.zio_places.specs.Flags.{summary_of, joined};

/// What is kept of a range of sectors.
#[derive(Clone, Copy, Debug)]
pub struct Summary {
    pub sectors: u64,
    /// How many are free at the front.
    pub front: u64,
    /// How many are free at the back.
    pub back: u64,
    /// The longest run of free ones.
    pub best: u64,
}

impl Summary {
    pub fn empty() -> Summary
        ensures { result ≡ summary_of [] }
    {
        Summary {
            sectors: 0,
            front: 0,
            back: 0,
            best: 0,
        }
    }

    /// Of so many sectors of one flag.
    pub fn of_run(sectors: u64, is_free: bool) -> Summary
        ensures { result ≡ summary_of (replicate sectors is_free) }
    {
        let free = if is_free { sectors } else { 0 };
        Summary {
            sectors,
            front: free,
            back: free,
            best: free,
        }
    }

    /// Of this range and the one that follows it.
    pub fn join(self, right: Summary) -> Summary
        requires fits { self.sectors + right.sectors < 2 ^ 64 }
        requires back { self.back ≤ self.sectors }
        requires front { right.front ≤ right.sectors }
        ensures { result ≡ joined self right }
    {
        let front = if self.front == self.sectors {
            self.front + right.front
        } else {
            self.front
        };
        let back = if right.back == right.sectors {
            right.back + self.back
        } else {
            right.back
        };
        Summary {
            sectors: self.sectors + right.sectors,
            front,
            back,
            best: self.best.max(right.best).max(self.back + right.front),
        }
    }
}
