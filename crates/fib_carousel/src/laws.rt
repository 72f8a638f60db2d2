//! Laws that hold for every packing, whatever computes it. The functions do nothing; their
//! contracts are the laws.

ghost use Rattle.fib_carousel.specs.Packing.{PackingIsOne, DividedAreSmall};
ghost use Rattle.fib_carousel.specs.Greedy.{GreedyIsPacking, NoFewer};
ghost use Rattle.fib_carousel.specs.Pages.{PagesAreAll, EachInAPage, NoneBeyond, PageIsFibs};
ghost use Rattle.fib_carousel.specs.Most.{MostPages};
ghost use Rattle.fib_carousel.specs.Carried.{PageSetsArePageable, PagesAreValid, PagesAreHeard};
ghost use Rattle.fib_carousel.specs.Carried.{EnsembleIsCarried, PagesKeepReserve};

/// The greedy rule gives the packing of every list of entries that has a division, so no division
/// takes fewer FIBs or pages. A list has at most one packing.
pub fn greedy()
    ensures packing { GreedyIsPacking }
    ensures one { PackingIsOne }
    ensures small { DividedAreSmall }
    ensures fewest { NoFewer }
{}

/// The pages together contain each entry once, in order, and no other; so each entry is in a page,
/// and pages past the last are empty. The entries of a page are those of its FIBs, as many as the
/// layout does not reserve. One configuration needs at most 41 pages of three FIBs and two at most
/// 81; 28 and 55 pages of four, 78 and 155 of two.
pub fn pages()
    ensures all { PagesAreAll }
    ensures each { EachInAPage }
    ensures beyond { NoneBeyond }
    ensures fibs { PageIsFibs }
    ensures most { MostPages }
{}

/// A page consists of as many valid FIBs as a frame of the mode has, with FIG 0/0 first if given. A
/// receiver decodes from it exactly the entries of that page and the ensemble information given: no
/// entry is lost, and none is added. This covers the entries of every configuration. The reserved
/// FIBs are empty.
pub fn carried()
    ensures pageable { PageSetsArePageable }
    ensures valid { PagesAreValid }
    ensures heard { PagesAreHeard }
    ensures ensemble { EnsembleIsCarried }
    ensures reserved { PagesKeepReserve }
{}
