//! The numbers that are drawn.

ghost use Rattle.std.specs.Prelude.{◌≡◌, ◌+◌, ℕ};
ghost use Rattle.saw_generate.specs.Draws.{draw_at, next_state, state_after};

/// What a state is multiplied by.
const FACTOR: u64 = 6_364_136_223_846_793_005;

/// What is added to it.
const MORE: u64 = 1_442_695_040_888_963_407;

/// The numbers that are drawn: a linear congruential generator.
#[derive(Clone, Copy, Debug, PartialEq, Eq)]
pub(crate) struct Draws {
    state: u64,
}

fn next_state(state: u64) -> u64
    ensures { result ≡ next_state state }
{
    state.wrapping_mul(FACTOR).wrapping_add(MORE)
}

impl Draws {
    /// Nothing was drawn.
    pub(crate) fn new(start: u64) -> Self
        ensures { result.state ≡ start }
    {
        Draws { state: start }
    }

    /// Draws the next number, of 31 bits.
    pub(crate) fn draw(&mut self) -> u64
        ensures { (start place : ℕ) → self.old.state ≡ state_after start place
            → (result ≡ draw_at start place) × (self.new.state ≡ state_after start (place + 1)) }
    {
        self.state = next_state(self.state);
        self.state >> 33
    }
}
