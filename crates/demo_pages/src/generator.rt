//! The numbers from which the pages are made.
ghost use Rattle.std.specs.Prelude.{◌≡◌, ◌/◌};
ghost use Rattle.demo_pages.specs.Generator.{next_state, number_at};

use std::marker::Model;

/// A generator of numbers of 16 bits. Contracts see its state.
#[derive(Drop)]
pub struct Generator {
    state: u32,
}

impl Model for Generator {
    ghost use Rattle.std.specs.Prelude.{ℕ};

    ghost Value = { ℕ };

    ghost view = { λ generator. generator.state };
}

impl Generator {
    /// A generator that starts from this state.
    pub fn new(state: u32) -> Generator
        ensures { result ≡ state }
    {
        Generator { state }
    }

    /// The next number, from 0 to 65,535.
    pub(crate) fn draw(&mut self) -> u32
        ensures state { self.new ≡ next_state self.old }
        ensures number { result ≡ number_at self.old }
    {
        self.state = self.state.wrapping_mul(1664525).wrapping_add(1013904223);
        self.state / 65536
    }
}
