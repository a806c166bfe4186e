// Worked blocks, as a theorem about the definitions.
ghost use Rattle.blocks.specs.Examples.{Examples};

pub fn examples_stand()
    ensures { Examples }
{}
