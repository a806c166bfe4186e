// Starts and ends: one state, or any.
ghost use Rattle.std.specs.Prelude.{◌≡◌};
ghost use Rattle.paths.specs.Paths.{permits};

// Whether a start or an end permits a state.
pub fn is_permitted(anchor: Option<usize>, state: usize) -> bool
    ensures { result ≡ permits anchor state }
{
    anchor.is_none_or(|permitted| state == permitted)
}
