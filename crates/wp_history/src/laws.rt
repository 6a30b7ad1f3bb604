//! What a log's reader finds of an orderly cut, record by record.
ghost use Rattle.std.specs.Prelude.{◌≡◌, List, ◌∷◌, ◌++◌, None};
ghost use Rattle.wp_model.specs.declared.entry.Entry.{Entry};
ghost use Rattle.wp_model.specs.Legal.{IsOrderlyNext};
ghost use Rattle.wp_cuts.specs.Cut.{Cut};
ghost use Rattle.wp_cuts.specs.LegalCut.{IsOrderlyCut, prepares_of};
ghost use Rattle.wp_history.specs.Outline.{collision_of};

/// None of what an orderly cut carries collides, it is orderly with fewer of its entries, and each entry may follow those before it.
pub fn orderly_cuts()
    ensures apart { (c : Cut) → IsOrderlyCut c → collision_of c.carried ≡ None }
    ensures front { (c : Cut) (more : List Entry) → IsOrderlyCut (record c { entries = c.entries ++ more }) → IsOrderlyCut c }
    ensures each { (c : Cut) (more : List Entry) (entry : Entry) → IsOrderlyCut (record c { entries = c.entries ++ entry ∷ more }) → IsOrderlyNext (prepares_of c) entry }
{}
