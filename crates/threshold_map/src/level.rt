//! Black levels.
ghost use Rattle.std.specs.Prelude.{◌≡◌, ℕ, ◌+◌, ◌*◌, ◌≤◌, nat_le};
ghost use Rattle.threshold_map.specs.Levels.{is_gray_black, is_color_black};

use std::marker::Model;

/// The greatest sample of a colour that `Level::color` compares: 2^30.
pub const GREATEST_SAMPLE: u32 = 1073741824;

/// A black level: a fraction of full white. A pixel is black if its brightness is at most the level.
#[derive(Clone, Copy, Debug)]
pub struct Level {
    // In millionths of full white.
    micro: u32,
}

impl Model for Level {
    ghost use Rattle.std.specs.Prelude.{ℕ, ◌≤◌};

    ghost Value = { ℕ };

    ghost view = { λ level. level.micro };

    ghost invariant = { λ level. level.micro ≤ 1000000 };

    ghost inverse = { λ k6. record { micro = k6 } };
}

impl Level {
    /// The level of `k6` millionths of full white.
    pub fn from_micro(k6: u32) -> Level
        requires { k6 ≤ 1000000 }
        ensures { result ≡ k6 }
    {
        Level { micro: k6 }
    }

    /// Whether a gray pixel is black. `v` is its sample, 0 is no light, and `maxval` is full white.
    pub fn gray(&self, v: u32, maxval: u32) -> bool
        requires some { 1 ≤ maxval }
        requires most { maxval ≤ 65535 }
        ensures black { result ≡ is_gray_black self.now v maxval }
        ensures most_level { self.now ≤ 1000000 }
    {
        v as u64 * 1000000 <= self.micro as u64 * maxval as u64
    }

    /// The brightest sample of a black gray pixel, if `maxval` is full white.
    pub fn gray_limit(&self, maxval: u32) -> u32
        requires some { 1 ≤ maxval }
        requires most { maxval ≤ 65535 }
        ensures black { (v : ℕ) → is_gray_black self.now v maxval ≡ nat_le v result }
        ensures most { result ≤ maxval }
    {
        (self.micro as u64 * maxval as u64 / 1000000) as u32
    }

    /// Whether a pixel of a colour is black. Its brightness is the mean of red, green and blue, and `maxval` is
    /// full white for each of them.
    pub fn color(&self, r: u32, g: u32, b: u32, maxval: u32) -> bool
        requires some { 1 ≤ maxval }
        requires most { maxval ≤ 65535 }
        requires red { r ≤ GREATEST_SAMPLE }
        requires green { g ≤ GREATEST_SAMPLE }
        requires blue { b ≤ GREATEST_SAMPLE }
        ensures { result ≡ is_color_black self.now r g b maxval }
    {
        (r as u64 + g as u64 + b as u64) * 1000000 <= self.micro as u64 * 3 * maxval as u64
    }

    /// The greatest sum of red, green and blue of a black pixel, if `maxval` is full white for each of them.
    pub fn color_limit(&self, maxval: u32) -> u32
        requires some { 1 ≤ maxval }
        requires most { maxval ≤ 65535 }
        ensures black { (r g b : ℕ) → is_color_black self.now r g b maxval
            ≡ nat_le (r + g + b) result }
        ensures most { result ≤ 3 * maxval }
    {
        (self.micro as u64 * 3 * maxval as u64 / 1000000) as u32
    }

    /// Whether a pixel of a colour of three bytes is black. 255 is full white for each of them.
    pub fn rgb(&self, r: u8, g: u8, b: u8) -> bool
        ensures { result ≡ is_color_black self.now r g b 255 }
    {
        self.color(r as u32, g as u32, b as u32, 255)
    }
}
