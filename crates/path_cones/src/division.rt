//! Whole divisions whose quotients are mostly small.
ghost use Rattle.std.specs.Prelude.{◌≡◌, ◌⊎◌, ◌+◌, ◌*◌, ◌<◌, ◌≤◌};

/// How many times a number holds another one, and what is left over.
#[derive(Clone, Copy)]
pub(crate) struct Division {
    pub whole: u64,
    pub rest: u64,
}

impl Division {
    /// Of one number by another.
    //
    // In a model most quotients of slopes and of cones along outlines were below four. Three comparisons tell those, and took
    // less time than a division.
    #[inline(always)]
    pub(crate) fn of(number: u64, by: u64) -> Division
        requires some { 1 ≤ by }
        requires few { by ≤ 131072 }
        ensures value { number ≡ result.whole * by + result.rest }
        ensures rest { result.rest < by }
        ensures most { result.whole ≤ number }
    {
        if number < 4 * by {
            let whole = few_times(number, by);
            return Division {
                whole,
                rest: number - whole * by,
            };
        }
        Division {
            whole: number / by,
            rest: number % by,
        }
    }
}

/// How many times a number holds another one, where that is fewer than four times.
#[inline(always)]
fn few_times(number: u64, by: u64) -> u64
    requires few { by ≤ 131072 }
    requires below { number < 4 * by }
    ensures held { result * by ≤ number }
    ensures no_more { number < (result + 1) * by }
    ensures most { result ≤ 3 }
{
    one_if_held(number, by) + one_if_held(number, 2 * by) + one_if_held(number, 3 * by)
}

/// 1 where a number is as great as another one, else 0.
#[inline(always)]
fn one_if_held(number: u64, other: u64) -> u64
    ensures { ((other ≤ number) × (result ≡ 1)) ⊎ ((number < other) × (result ≡ 0)) }
{
    if other <= number { 1 } else { 0 }
}
