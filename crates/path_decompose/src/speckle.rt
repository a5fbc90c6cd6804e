//! The removal of speckles.
ghost use Rattle.std.specs.Prelude.{◌≡◌, nat_lt};
ghost use Rattle.path_decompose.specs.Decomposition.{kept};

use pt_core::Path;

/// The paths with more than `most` pixels inside, in order: those with at most so many are speckles.
pub fn keep(mut paths: Vec<Path>, most: u32) -> Vec<Path>
    ensures { result.items ≡ kept most paths.items }
{
    paths.retain(
        |path| -> bool
            ensures { result ≡ nat_lt most path.now.area }
        { path.area > u64::from(most) },
    );
    paths
}
