//! Floating-point numbers from which results are guessed. How near a guess is isn't proved: the caller has to
//! correct it.
ghost use Rattle.std.specs.Prelude.{◌<◌, ◌^◌};

/// The weight of the upper 32 bits of a 64-bit number: 2^32.
const HALVES: f64 = 4294967296.0;

/// How many bits of an `f64` are its fraction.
const FRACTION_BITS: u32 = 52;

/// 2^52. In a number from 2^52 to 2^53 the last bit of the fraction counts 1.
const WHOLES: f64 = 4503599627370496.0;

/// 2^44. In a number from 2^44 to 2^45 the last bit of the fraction counts 1/256.
const WHOLE_256THS: f64 = 17592186044416.0;

/// A little less than half of 1/256. Take this from a number and round to the nearest 1/256: the result is the
/// number rounded down to a multiple of 1/256. The exceptions are numbers that lie at most 2^-28 below such a
/// multiple.
const NEARLY_HALF_256TH: f64 = (0.5 - 1.0 / 1048576.0) / 256.0;

/// A whole number as an `f64`, rounded.
//
// Each half is converted by one instruction, without a branch on the sign. Converting all 64 bits takes about
// thirty instructions.
#[inline(always)]
pub fn near_float(number: i64) -> f64 {
    let upper = f64::from((number >> 32) as i32);
    let lower = f64::from((number.cast_unsigned() & 0xffff_ffff) as u32);
    HALVES * upper + lower
}

/// The whole number that is nearest to `number`, which has to be from 0 to 2^52. For any other `number` the
/// result is some whole number below 2^52.
//
// The sum with 2^52 is rounded to a whole number, which can be read from the bits of its fraction.
#[inline(always)]
pub fn near_whole(number: f64) -> u64
    ensures { result < 2 ^ 52 }
{
    fraction_of(WHOLES + number)
}

/// `number` times 256, rounded down, for a `number` from 1/1024 to 2^44. A `number` that is nearly the next
/// multiple of 1/256 may be rounded up. For any other `number` the result is some whole number below 2^52.
//
// The sum with 2^44 is rounded to a multiple of 1/256, so that no multiplication by 256 is needed.
#[inline(always)]
pub fn near_256ths(number: f64) -> u64
    ensures { result < 2 ^ 52 }
{
    fraction_of(WHOLE_256THS + (number - NEARLY_HALF_256TH))
}

/// The bits of a number's fraction, or 0 for a NaN.
#[inline(always)]
fn fraction_of(number: f64) -> u64
    ensures { result < 2 ^ 52 }
{
    if number.is_nan() {
        return 0;
    }
    number.to_bits() % (1 << FRACTION_BITS)
}
