// What is true of the first of the cheapest paths, step by step, as theorems.
ghost use Rattle.survivors.specs.Laws.{Substructure, LeadsBack, OneTable, OverEnds};

// A first path without its last letter is first again; the bytes of a table lead back to it, and no other table has
// them; over all permitted ends it is the first path to the permitted state of least cost.
pub fn steps_stand()
    ensures substructure { Substructure }
    ensures back { LeadsBack }
    ensures one { OneTable }
    ensures ends { OverEnds }
{}
