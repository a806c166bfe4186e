// Worked descriptions, as a theorem about the definition.
ghost use Rattle.descriptions.specs.Examples.{Examples};

pub fn examples_stand()
    ensures { Examples }
{}
