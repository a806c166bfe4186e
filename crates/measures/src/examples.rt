// Worked costs, as a theorem.
ghost use Rattle.measures.specs.Examples.{Examples};

pub fn examples_stand()
    ensures { Examples }
{}
