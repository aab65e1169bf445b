//! Laws of pages: one after another they make the listing, whatever is added meanwhile.

ghost use Rattle.std.specs.Prelude.{◌≡◌, ◌<◌, ◌+◌, ◌++◌, ℕ, IsTrue, List, Option, Some, drop, length, take};
ghost use Rattle.std.specs.Option.{option_map};
ghost use Rattle.cat_graph.specs.Linked.{AreLinked, is_known};
ghost use Rattle.cat_model.specs.Chain.{Commits, chain, entries};
ghost use Rattle.cat_model.specs.Listing.{entries_after, listing};
ghost use Rattle.cat_model.specs.Maps.{IsMap, Map};
ghost use Rattle.cat_model.specs.Pages.{first, history, last_shown, pages, references_after};
ghost use Rattle.cat_model.specs.declared.filter.Filter.{Filter};
ghost use Rattle.cat_model.specs.declared.reference.Reference.{Reference};
ghost use Rattle.cat_names.specs.declared.hash.Hash.{Hash};
ghost use Rattle.cat_tables.specs.References.{names_ascend};

/// Pages of entries, each after the last key of the one before, make the listing.
pub fn entry_pages_make_the_listing()
    ensures { (map : Map) (filter : Filter) (limit : ℕ) → IsMap map
        → 0 < limit
        → pages (take limit) (λ left. option_map (λ x. x.0) (last_shown limit left))
        (λ key. entries_after (listing map filter) (Some key)) (length (listing map filter) + 1)
        (listing map filter)
        ≡ listing map filter }
{}

/// Pages of references, each after the last name of the one before, make the list of all.
pub fn reference_pages_make_the_list()
    ensures { (references : List Reference) (limit : ℕ) → IsTrue (names_ascend references)
        → 0 < limit
        → pages (take limit) (λ left. option_map (λ r. r.name) (last_shown limit left))
        (λ name. references_after references (Some name)) (length references + 1) references
        ≡ references }
{}

/// Pages of a chain, each from the commit that the one before ended ahead of, make the history.
pub fn history_pages_make_the_history()
    ensures { (commits : Commits) (from : Hash) (until : Option Hash) (limit : ℕ)
        → AreLinked commits
        → 0 < limit
        → pages (take limit) (λ left. option_map (λ x. x.0) (first (drop limit left)))
        (λ token. history commits token until) (length (history commits from until) + 1)
        (history commits from until)
        ≡ history commits from until }
{}

/// Commits that come between two pages leave the listings at those known before as they were.
pub fn a_listing_stays()
    ensures chain { (newer commits : Commits) (hash : Hash) → AreLinked (newer ++ commits)
        → IsTrue (is_known commits hash)
        → chain (newer ++ commits) hash ≡ chain commits hash }
    ensures entries { (newer commits : Commits) (hash : Hash) → AreLinked (newer ++ commits)
        → IsTrue (is_known commits hash)
        → entries (newer ++ commits) hash ≡ entries commits hash }
    ensures history { (newer commits : Commits) (hash : Hash) (until : Option Hash)
        → AreLinked (newer ++ commits)
        → IsTrue (is_known commits hash)
        → history (newer ++ commits) hash until ≡ history commits hash until }
{}
