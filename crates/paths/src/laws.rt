// What is true of paths and of the sums over them, as theorems.
ghost use Rattle.paths.specs.Laws.{TotalOrder, OneWay, Transitive, AllListed, ListedOnce, AdmissibleListed, NoneListed, FirstFound, OneFirst, CheapestListed, SecondFound};
ghost use Rattle.paths.specs.Readings.{BooleanSays, CountingSays, CheapestSays, CheapestWithCountSays, TwoCheapestSays, FirstSays, FirstSaysBelowInf, CostsBounded};

// The order of paths is a total one.
pub fn order_stands()
    ensures total { TotalOrder }
    ensures one_way { OneWay }
    ensures transitive { Transitive }
{}

// The list of all paths has each path once, and nothing else.
pub fn listing_stands()
    ensures all { AllListed }
    ensures once { ListedOnce }
    ensures admissible { AdmissibleListed }
    ensures none { NoneListed }
{}

// The first path, the cheapest ones and the least cost of the others are what they are called.
pub fn cheapest_stand()
    ensures first { FirstFound }
    ensures one { OneFirst }
    ensures cheapest { CheapestListed }
    ensures second { SecondFound }
    ensures bounded { CostsBounded }
{}

// What the sums say in the five algebras.
pub fn readings_stand()
    ensures boolean { BooleanSays }
    ensures counting { CountingSays }
    ensures cheapest { CheapestSays }
    ensures cheapest_with_count { CheapestWithCountSays }
    ensures two_cheapest { TwoCheapestSays }
    ensures first { FirstSays }
    ensures first_below { FirstSaysBelowInf }
{}
