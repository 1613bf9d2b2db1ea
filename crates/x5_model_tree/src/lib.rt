//! What the one tree answers, and when what agents know of each other is consistent. This crate has definitions (`specs/`), which clauses cite, and what follows from them (`proofs/`).
//! Each function states one consequence by its clauses; none does anything.
#![tactic(auto)]

ghost use Rattle.std.specs.Prelude.{◌≡◌, ℕ, ◌≤◌, ◌<◌, ◌↔◌, ◌⊎◌, true, None, Some, Option, List, ◌++◌, length};
ghost use Rattle.std.specs.List.{filter};
ghost use Rattle.x5_model.specs.Words.{ascending, distinct};
ghost use Rattle.x5_model.specs.Members.{In, Once};
ghost use Rattle.x5_model.specs.Keys.{Key, IsPrefix, same_key};
ghost use Rattle.x5_model.specs.Values.{Name, key_of};
ghost use Rattle.x5_model.specs.Normal.{IsStored};
ghost use Rattle.x5_model.specs.Entries.{Named};
ghost use Rattle.x5_model.specs.Filters.{Filter};
ghost use Rattle.x5_model.specs.Requests.{Subset};
ghost use Rattle.x5_model_tree.specs.World.{Specific, Nssr, Agent, World};
ghost use Rattle.x5_model_tree.specs.Tree.{Tree, IsTree, key_at, keys_of, named_below, sorted_entries, part, entry_at, lowest};
ghost use Rattle.x5_model_tree.specs.Masters.{Mastered, pin_of, pins, numbered, mastered, whole};
ghost use Rattle.x5_model_tree.specs.Ask.{just_below, searched, limited};
ghost use Rattle.x5_model_tree.specs.Consistent.{Inconsistency, first_breach, IsConsistent};
ghost use Rattle.x5_model_tree.specs.Conditions.{Conditions};
ghost use Rattle.x5_model_tree.specs.Breaking.{IsFirstBreach};
ghost use Rattle.x5_model_tree.specs.Described.{IsDescribed};
ghost use Rattle.x5_model_tree.specs.Good.{Good};
ghost use Rattle.x5_model_tree.specs.Reached.{Reached, NoneLonger, KnowsNone, NoLower};

/// What a list and a search find is in the order of keys, and in such a list each key comes once.
#[tactic(auto, using(crate::proofs::Order::listed_in_order, crate::proofs::Order::searched_in_order, crate::proofs::Order::entries_once))]
pub fn found_in_order()
    ensures listed { (t : Tree) (name : Name) → IsTree t → ascending named_below (just_below t name) ≡ true }
    ensures searched_too { (t : Tree) (base : Name) (subset : Subset) (f : Filter) → IsTree t → ascending named_below (searched t base subset f) ≡ true }
    ensures once { (xs : List Named) → ascending named_below xs ≡ true → distinct same_key (keys_of xs) ≡ true }
{}

/// A size limit keeps a beginning.
#[tactic(auto, using(crate::proofs::Order::limit_keeps))]
pub fn limit_keeps_a_beginning()
    ensures { (size : Option ℕ) (xs : List Named) → (rest : List Named) × (limited size xs ++ rest ≡ xs) }
{}

/// The sorted union of entries whose keys come once is in order and has exactly their members, and two lists of entries in order with the same members are one.
#[tactic(auto, using(crate::proofs::Order::union_in_order, crate::proofs::Order::in_union, crate::proofs::Order::one_list_of_entries))]
pub fn unions_are_sorted()
    ensures in_order { (xs : List Named) → distinct same_key (keys_of xs) ≡ true → ascending named_below (sorted_entries xs) ≡ true }
    ensures members { (e : Named) (xs : List Named) → In e xs ↔ In e (sorted_entries xs) }
    ensures one_list { (xs ys : List Named) → ascending named_below xs ≡ true → ascending named_below ys ≡ true → ((e : Named) → In e xs → In e ys) → ((e : Named) → In e ys → In e xs) → xs ≡ ys }
{}

/// Knowledge is consistent exactly where the ten conditions hold as plain statements, and exactly where there is no first breach.
#[tactic(auto, using(crate::proofs::Exact::conditions_hold, crate::proofs::Exact::consistent_where, crate::proofs::FirstBreach::none_is_consistent, crate::proofs::FirstBreach::consistent_has_none))]
pub fn conditions_are_exact()
    ensures hold { (w : World) → IsConsistent w → Conditions w }
    ensures suffice { (w : World) → Conditions w → IsConsistent w }
    ensures none { (w : World) → first_breach w ≡ None → IsConsistent w }
    ensures no_breach { (w : World) → IsConsistent w → first_breach w ≡ None }
{}

/// The first breach is of the first condition that fails, and there of the first place in the file; the two values that are told of it are those of that place.
#[tactic(auto, using(crate::proofs::FirstBreach::first_is))]
pub fn first_breach_comes_first()
    ensures { (w : World) (b : Inconsistency) → first_breach w ≡ Some b → IsFirstBreach w b }
{}

/// Consistent knowledge gives the facts on contexts and keys.
#[tactic(auto, using(crate::proofs::Gives::consistent_is_good))]
pub fn consistent_knowledge_is_good()
    ensures { (w : World) → IsDescribed w → IsConsistent w → Good w }
{}

/// Each name of a described world has the normal forms of its texts, and keeps to the limits of names, so a pin has 16 RDNs at most.
#[tactic(auto, using(crate::proofs::Stored::prefix_stored, crate::proofs::Stored::entry_stored, crate::proofs::Stored::nssr_stored, crate::proofs::Stored::reference_stored, crate::proofs::Stored::pins_short))]
pub fn described_names_are_stored()
    ensures prefixes { (w : World) → IsDescribed w → (m : Mastered) → In m (mastered w) → IsStored m.context.prefix }
    ensures entries { (w : World) → IsDescribed w → (m : Mastered) (e : Named) → In m (mastered w) → In e m.context.entries → IsStored e.name }
    ensures nssrs { (w : World) → IsDescribed w → (m : Mastered) (n : Nssr) → In m (mastered w) → In n m.context.nssrs → IsStored n.at }
    ensures references { (w : World) → IsDescribed w → (place : ℕ) (a : Agent) (k : Specific) → In (place, a) (numbered w) → In k a.subordinate ⊎ In k a.cross → IsStored k.pin }
    ensures short { (w : World) → IsDescribed w → (q : Key) → In q (pins w) → length q ≤ 16 }
{}

/// Where resolution stops at a master, and no agent of an NSSR there masters a longer prefix, the lowest entry on the way is the lowest of the whole tree; a first-level agent that knows no pin on the way proves that nothing is there.
#[tactic(auto, using(crate::proofs::Resolution::lowest_of_all, crate::proofs::Resolution::nothing_there))]
pub fn resolution_is_right()
    ensures lowest_of_all { (w : World) (good : Good w) (c : Mastered) (a : Agent) (name : Key) (at : Named) → Reached w c a name at → NoneLonger w c name at → NoLower w name (length (key_at at)) }
    ensures nothing_there { (w : World) (good : Good w) (place : ℕ) (a : Agent) (name : Key) → a.superior ≡ None → KnowsNone w place a name → NoLower w name 0 }
{}

/// The whole tree of consistent knowledge is a tree, the part of each pin is its context's entries, and what a master has, and has not, the tree has and has not.
#[tactic(auto, using(crate::proofs::WholeTree::whole_is_tree, crate::proofs::WholeTree::part_is_context, crate::proofs::WholeTree::found_there, crate::proofs::WholeTree::lowest_there, crate::proofs::WholeTree::none_there))]
pub fn whole_tree_is_its_parts()
    ensures is_tree { (w : World) → Good w → Once (pins w) → IsTree (whole w) }
    ensures parts { (w : World) → Good w → Once (pins w) → (m : Mastered) → In m (mastered w) → part (whole w) (pin_of m) ≡ sorted_entries m.context.entries }
    ensures found { (w : World) → Good w → Once (pins w) → (m : Mastered) (e : Named) (key : Key) → In m (mastered w) → In e m.context.entries → key_at e ≡ key → entry_at (whole w).entries key ≡ Some e }
    ensures lowest_there { (w : World) → Good w → Once (pins w) → (m : Mastered) (e : Named) (key : Key) → In m (mastered w) → In e m.context.entries → IsPrefix (key_at e) key → NoLower w key (length (key_at e)) → lowest (whole w).entries key ≡ Some e }
    ensures none_there { (w : World) → Good w → Once (pins w) → (key : Key) → NoLower w key 0 → lowest (whole w).entries key ≡ None }
{}
