//! Numbers drawn from a seed.

ghost use Rattle.std.specs.Prelude.{◌≡◌, ◌<◌, ◌≤◌};
ghost use Rattle.script_generator.specs.Draws.{seeded, draw};

use rand_core::utils::NextWord;
use rand_pcg::Lcg64Xsh32;
use std::marker::Model;

/// Numbers that a seed gives, one after another. Contracts see the state of their generator.
#[derive(Drop)]
pub struct Draws {
    words: Lcg64Xsh32,
}

impl Model for Draws {
    ghost use Rattle.rand_pcg.specs.Lcg.{Lcg};

    ghost Value = { Lcg };

    ghost view = { λ draws. draws.words };
}

// All seeds draw from this stream of the generator.
const STREAM: u64 = 1;

impl Draws {
    /// The draws of a seed.
    #[tactic(auto, unfolding(crate::specs::Draws::seeded))]
    pub fn new(seed: u64) -> Self
        ensures { result ≡ seeded seed }
    {
        Draws {
            words: Lcg64Xsh32::new(seed, STREAM),
        }
    }

    /// The next number, below `limit`: the next word of the generator modulo `limit`.
    #[tactic(auto, unfolding(crate::specs::Draws::draw))]
    pub fn draw(&mut self, limit: u32) -> u32
        requires { 1 ≤ limit }
        ensures value { result ≡ (draw limit self.old).0 }
        ensures left { self.new ≡ (draw limit self.old).1 }
        ensures within { result < limit }
    {
        self.words.next_word() % limit
    }
}
