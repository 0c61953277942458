//! Numbers drawn one after another.
ghost use Rattle.std.specs.Prelude.{◌≡◌, ◌≢◌, ◌<◌, IfSome};
ghost use Rattle.drawn_scripts.specs.Draws.{after_draw, one_drawn, pick, two_drawn};

use std::marker::Model;

/// Draws by a linear congruence on 64 bits (Knuth's MMIX): the same numbers from the same beginning, on
/// every machine. Contracts see its state. They are no random numbers for secrets.
#[derive(Debug, Drop)]
pub struct Draws {
    state: u64,
}

impl Model for Draws {
    ghost use Rattle.std.specs.Prelude.{ℕ};

    ghost Value = { ℕ };

    ghost view = { λ d. d.state };
}

impl Draws {
    /// Draws that begin with this number as the state.
    pub fn new(number: u64) -> Draws
        ensures { result ≡ number }
    {
        Draws { state: number }
    }

    /// Draws a number below `k`, which isn't 0. Takes no memory.
    #[tactic(auto, unfolding(crate::specs::Draws::pick, crate::specs::Draws::after_draw))]
    pub fn pick(&mut self, k: u64) -> u64
        requires { k ≢ 0 }
        ensures drawn { pick k self.old ≡ (result, self.new) }
        ensures below { result < k }
    {
        self.state = self
            .state
            .wrapping_mul(6364136223846793005)
            .wrapping_add(1442695040888963407);
        (self.state >> 32) % k
    }

    /// Draws two numbers below 4, not the same. Takes no memory.
    #[tactic(auto, unfolding(crate::specs::Draws::two_drawn))]
    pub fn two(&mut self) -> (u32, u32)
        ensures drawn { two_drawn self.old ≡ (result, self.new) }
        ensures first { result.0 < 4 }
        ensures second { result.1 < 4 }
        ensures others { result.1 ≢ result.0 }
    {
        let first = self.pick(4) as u32;
        let step = self.pick(3) as u32;
        (first, (first + 1 + step) % 4)
    }

    /// Draws a number below `count`, where that isn't 0; else nothing is drawn. Takes no memory.
    #[tactic(auto, unfolding(crate::specs::Draws::one_drawn))]
    pub fn one_of(&mut self, count: u64) -> Option<u64>
        ensures drawn { one_drawn count self.old ≡ (result, self.new) }
        ensures below { IfSome result (λ one. one < count) }
    {
        if count == 0 {
            return None;
        }
        Some(self.pick(count))
    }
}
