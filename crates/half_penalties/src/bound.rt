//! A half's bound by its sums.
ghost use Rattle.std.specs.Prelude.{◌≡◌, ℕ, ◌*◌, ◌<◌, ◌≤◌, ◌^◌, ℤ, pos, ◌*ℤ◌, unsigned_abs, IsTrue};
ghost use Rattle.pt_core.specs.declared.limits.TheConstants.{MOST_STEPS};
ghost use Rattle.half_penalties.specs.Inner.HalfPenalties.{IsSlant};
ghost use Rattle.half_penalties.specs.Inner.Products.{along_squares_of, determinant_of, AreHalfSums, IsBoundBy, IsShownBound};

use crate::products::Products;
use pt_core::{near_256ths, near_float};

/// A greater bound isn't guessed, so that its square times a sum fits.
const MOST_GUESSED: u64 = (1 << 24) - 1;

/// A bound of the half that has these sums, and so much weight.
//
// Of the sums' matrix, one form is the sum of the squared cross products with a chord, and one number is the sum of the
// squares along the diagonal. Their product is the determinant times the square of how far the chord goes along, and a
// square more. So what is a bound for the determinant over that number is one for each chord.
//
// It is guessed by floating point, and whole numbers show that the guess is one. Nothing is proved of the guess.
pub(crate) fn bound_by(products: Products, slant: i64, weight: u32) -> u32
    requires sums { AreHalfSums products }
    requires slant { IsSlant slant }
    requires weight { weight ≤ MOST_STEPS }
    ensures bound { IsBoundBy products slant weight result }
    ensures small { result < 2 ^ 24 }
{
    let along = along_squares(products, slant);
    let guess = near_bound(products, along, weight);
    if is_bound(determinant(products), along, weight, guess) {
        return guess as u32;
    }
    0
}

/// The sum of the squares of how far the offsets go along the diagonal.
fn along_squares(products: Products, slant: i64) -> i64
    requires sums { AreHalfSums products }
    requires slant { IsSlant slant }
    ensures value { result ≡ along_squares_of products slant }
    ensures most { unsigned_abs result ≤ 2 ^ 48 }
{
    products.xx + 2 * (slant * products.xy) + products.yy
}

/// The determinant of the matrix of the sums.
fn determinant(products: Products) -> i128
    requires { AreHalfSums products }
    ensures value { result ≡ determinant_of products }
    ensures most { unsigned_abs result ≤ 2 ^ 93 }
{
    product(products.xx, products.yy) - product(products.xy, products.xy)
}

/// A number that mostly is the greatest bound.
fn near_bound(products: Products, along: i64, weight: u32) -> u64 {
    let xx = near_float(products.xx);
    let xy = near_float(products.xy);
    let yy = near_float(products.yy);
    let mean = f64::from(weight) * (xx * yy - xy * xy) / near_float(along);
    near_256ths(mean.sqrt()).min(MOST_GUESSED)
}

/// Whether whole numbers show that it is a bound.
fn is_bound(determinant: i128, along: i64, weight: u32, bound: u64) -> bool
    requires determinant { unsigned_abs determinant ≤ 2 ^ 93 }
    requires along { unsigned_abs along ≤ 2 ^ 48 }
    requires weight { weight ≤ MOST_STEPS }
    ensures { IsTrue result → IsShownBound determinant along weight bound }
{
    if along <= 0 || MOST_GUESSED < bound {
        return false;
    }
    product(square(bound), along) <= weighed(determinant, weight)
}

/// A bound's square.
fn square(bound: u64) -> i64
    requires { bound < 2 ^ 24 }
    ensures value { result ≡ pos (bound * bound) }
    ensures most { unsigned_abs result ≤ 2 ^ 48 }
{
    (bound * bound) as i64
}

/// 65536 times the weight of a determinant.
fn weighed(determinant: i128, weight: u32) -> i128
    requires determinant { unsigned_abs determinant ≤ 2 ^ 93 }
    requires weight { weight ≤ MOST_STEPS }
    ensures { result ≡ pos (65536 * weight) *ℤ determinant }
{
    i128::from(65536 * u64::from(weight)) * determinant
}

/// A product in 128 bits.
fn product(a: i64, b: i64) -> i128
    requires a { unsigned_abs a ≤ 2 ^ 48 }
    requires b { unsigned_abs b ≤ 2 ^ 48 }
    ensures { result ≡ a *ℤ b }
{
    i128::from(a) * i128::from(b)
}
