//! Draws: the numbers that a seed gives, one after the other. This project's choice: the linear congruence of
//! ISO C's example of `rand`, reduced to 31 bits, of which a draw gives the upper 15.

ghost use Rattle.std.specs.Prelude.{◌≡◌, ◌/◌};
ghost use Rattle.part_gen.specs.Draws.{next};

use std::marker::Model;

/// The draws that are left. A contract sees the number behind the last one, which is at first the seed.
#[derive(Drop)]
pub struct Draws {
    number: u32,
}

impl Model for Draws {
    ghost use Rattle.std.specs.Prelude.{ℕ};

    ghost Value = { ℕ };

    ghost view = { λ draws. draws.number };
}

impl Draws {
    /// The draws of a seed.
    pub fn new(seed: u32) -> Self
        ensures { result ≡ seed }
    {
        Draws { number: seed }
    }

    /// The next draw.
    pub fn draw(&mut self) -> u32
        ensures drawn { result ≡ next self.old / 65536 }
        ensures left { self.new ≡ next self.old }
    {
        let number = (u64::from(self.number) * 1_103_515_245 + 12_345) % 2_147_483_648;
        self.number = number as u32;
        self.number / 65_536
    }
}
