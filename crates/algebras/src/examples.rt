// Worked sums and products, as a theorem.
ghost use Rattle.algebras.specs.Examples.{Examples};

pub fn examples_stand()
    ensures { Examples }
{}
