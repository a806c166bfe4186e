// Worked examples of the definitions, as a theorem.
ghost use Rattle.paths.specs.Examples.{Examples};

// The examples hold.
pub fn examples_stand()
    ensures { Examples }
{}
