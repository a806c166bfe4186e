// The measure interface.
ghost use Rattle.std.specs.Prelude.{◌≡◌, ℕ, ◌≤◌, ℤ};
ghost use Rattle.model.specs.Ranges.{InRange, most_cost};

// What a label costs against a sample.
pub trait Measure {
    ghost costs: { Self → ℤ → ℤ → ℕ };

    fn cost(&self, label: i16, sample: i16) -> u32
        ensures { result ≡ costs self.now label sample };

    ghost bounded: { (m : Self) (label sample : ℤ) → InRange label → InRange sample → costs m label sample ≤ most_cost };
}
