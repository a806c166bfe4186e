// Worked examples of the definitions, as a theorem.
ghost use Rattle.survivors.specs.Examples.{Examples};

// The examples hold.
pub fn examples_stand()
    ensures { Examples }
{}
