// The two limits of a run-length limit.
ghost use Rattle.std.specs.Prelude.{◌≤◌};

// At least so many zeros between two ones, and at most so many.
#[derive(Clone, Copy)]
pub struct Limits {
    pub least: usize,
    pub most: usize,
    ghost ordered: { least ≤ most },
    ghost few: { most ≤ 63 },
}
