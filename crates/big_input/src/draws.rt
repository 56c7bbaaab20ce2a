use std::marker::Model;

/// A stream of numbers that are drawn one after another, seen as its state: a linear congruential generator of 31 bits.
#[derive(Debug, Drop)]
pub struct Draws {
    state: u64,
}

impl Model for Draws {
    ghost use Rattle.std.specs.Prelude.{ℕ, ◌<◌};

    ghost Value = { ℕ };

    ghost view = { λ d. d.state };

    ghost invariant = { λ d. d.state < 2147483648 };
}

impl Draws {
    ghost use Rattle.std.specs.Prelude.{◌≡◌, ◌<◌, ◌≤◌};
    ghost use Rattle.big_input.specs.Stream.{next_state, number_below};

    /// The stream that begins with this state.
    pub fn new(first: u32) -> Draws
        requires small { first < 2147483648 }
        ensures { result ≡ first }
    {
        Draws {
            state: u64::from(first),
        }
    }

    /// Draws a number below `limit`.
    #[tactic(auto, unfolding(crate::specs::Stream::next_state))]
    pub fn draw(&mut self, limit: u32) -> u32
        requires some { 1 ≤ limit }
        ensures next { self.new ≡ next_state self.old }
        ensures number { result ≡ number_below limit self.new }
        ensures below { result < limit }
    {
        self.state = (self.state * 1_103_515_245 + 12_345) % 2_147_483_648;
        (self.state / 65_536 % u64::from(limit)) as u32
    }
}
