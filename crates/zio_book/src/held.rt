/// What a book holds, and what its acts mean.
pub trait Held: Drop {
    type Cmd;

    type Reply;

    type Note: Drop;

    /// The state that a state and a note give.
    ghost gives: { Self → Self.Note → Self → Type 0 };

    /// Which replies and notes fit a state and a command.
    ghost fits: { Self → Self.Cmd → Self.Reply → Self.Note → Type 0 };

    fn act(&mut self, cmd: Self::Cmd) -> (Self::Reply, Self::Note)
        ensures fits { fits self.old cmd result.0 result.1 }
        ensures gives { gives self.old result.1 self.new };
}
