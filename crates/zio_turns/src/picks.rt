//! Who takes the next turn.

ghost use Rattle.std.specs.Prelude.{◌≡◌, ◌<◌, ◌≤◌, ◌%◌};
ghost use Rattle.zio_script.specs.Bodies.{next_state};

use std::marker::Model;

/// Chooses one of several.
pub trait Picks {
    /// One of `n`, counted from 0.
    fn pick(&mut self, n: u32) -> u32
        requires { 1 ≤ n }
        ensures { result < n };
}

/// Picks made by the generator of docs/FORMATS.md, one step each. A contract sees its state.
#[derive(Debug, Drop)]
pub struct SeedPicks {
    state: u64,
}

impl Model for SeedPicks {
    ghost use Rattle.std.specs.Prelude.{ℕ};

    ghost Value = { ℕ };

    ghost view = { λ p. p.state };
}

/// The picks of a generator that starts in this state.
pub fn from_seed(seed: u64) -> SeedPicks
    ensures { result ≡ seed }
{
    SeedPicks { state: seed }
}

impl Picks for SeedPicks {
    fn pick(&mut self, n: u32) -> u32
        requires { 1 ≤ n }
        ensures below { result < n }
        ensures step { self.new ≡ next_state self.old }
        ensures value { result ≡ self.new % n }
    {
        self.state = next_state(self.state);
        (self.state % u64::from(n)) as u32
    }
}

/// Always picks the first.
#[derive(Debug, Drop)]
pub struct FirstPicks;

impl Picks for FirstPicks {
    fn pick(&mut self, n: u32) -> u32
        requires { 1 ≤ n }
        ensures below { result < n }
        ensures first { result ≡ 0 }
    {
        let _ = n;
        0
    }
}

const MULTIPLIER: u64 = 6_364_136_223_846_793_005;

const INCREMENT: u64 = 1_442_695_040_888_963_407;

fn next_state(state: u64) -> u64
    ensures { result ≡ next_state state }
{
    state.wrapping_mul(MULTIPLIER).wrapping_add(INCREMENT)
}
