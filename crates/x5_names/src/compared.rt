//! Pairs and RDNs as they're compared: by type numbers and normal values, so spelling doesn't count.

ghost use Rattle.std.specs.Cmp.{on_equiv, on_per, on_po, on_total};
ghost use Rattle.std.specs.Cmp.Lexicographic.{lists_per, lists_equiv};
ghost use Rattle.std.specs.Ordering.{as_partial_cmp};
ghost use Rattle.std.proofs.Common.{refl, ap};
ghost use Rattle.x5_model.specs.Keys as model;
ghost use Rattle.x5_model.specs.Values.{key_of_pair, key_of_rdn};
ghost use Rattle.x5_model.proofs.KeyLaws.{pair_cmp_total, pair_ties, pair_decides, rdn_cmp_total, rdn_ties, rdn_decides};
ghost use Rattle.x5_names.specs.KeyHash as model_hash;
ghost use Rattle.x5_names.specs.KeyOrder.{same_pair_laws, same_pair_equivalence, pair_partial_order, rdn_partial_order};

use crate::spelled::{Pair, Rdn};
use std::cmp::Ordering;
use std::hash::{Hash, Hasher};

impl PartialEq for Pair {
    ghost eq = { λ a b. model.same_pair (key_of_pair a) (key_of_pair b) };

    ghost laws = { on_per key_of_pair same_pair_laws };

    fn eq(&self, other: &Pair) -> bool {
        self.kind().number() == other.kind().number()
            && self.normal().as_slice() == other.normal().as_slice()
    }
}

impl Eq for Pair {
    ghost laws = { on_equiv key_of_pair same_pair_equivalence };
}

impl PartialOrd for Pair {
    ghost partial_cmp = { λ a b. as_partial_cmp model.pair_cmp (key_of_pair a) (key_of_pair b) };

    ghost laws = { on_po key_of_pair pair_partial_order };

    fn partial_cmp(&self, other: &Pair) -> Option<Ordering> {
        Some(self.cmp(other))
    }
}

impl Ord for Pair {
    ghost cmp = { λ a b. model.pair_cmp (key_of_pair a) (key_of_pair b) };

    ghost total = { on_total key_of_pair pair_cmp_total };

    ghost matches_partial_cmp = { λ x y. refl };

    ghost matches_eq = { λ x y. pair_ties (key_of_pair x) (key_of_pair y) };

    fn cmp(&self, other: &Pair) -> Ordering {
        match self.kind().number().cmp(&other.kind().number()) {
            Ordering::Equal => self.normal().as_slice().cmp(other.normal().as_slice()),
            by_kind => by_kind,
        }
    }
}

impl Hash for Pair {
    ghost hash_input = { λ p. model_hash.pair_writes (key_of_pair p) };

    ghost respects_eq = { λ a b same. ap model_hash.pair_writes ((pair_decides (key_of_pair a) (key_of_pair b)).0 same) };

    fn hash<H: Hasher>(&self, state: &mut H) {
        state.write_u8(self.kind().number());
        self.normal().as_slice().hash(state);
    }
}

impl PartialEq for Rdn {
    ghost eq = { λ a b. model.same_rdn (key_of_rdn a) (key_of_rdn b) };

    ghost laws = { on_per key_of_rdn (lists_per same_pair_laws) };

    #[tactic(auto, using(crate::proofs::ByKeys::same_rdns))]
    fn eq(&self, other: &Rdn) -> bool {
        match (self.pairs(), other.pairs()) {
            ([pair], [other]) => pair == other,
            (pairs, others) => pairs == others,
        }
    }
}

impl Eq for Rdn {
    ghost laws = { on_equiv key_of_rdn (lists_equiv same_pair_equivalence) };
}

impl PartialOrd for Rdn {
    ghost partial_cmp = { λ a b. as_partial_cmp model.rdn_cmp (key_of_rdn a) (key_of_rdn b) };

    ghost laws = { on_po key_of_rdn rdn_partial_order };

    fn partial_cmp(&self, other: &Rdn) -> Option<Ordering> {
        Some(self.cmp(other))
    }
}

impl Ord for Rdn {
    ghost cmp = { λ a b. model.rdn_cmp (key_of_rdn a) (key_of_rdn b) };

    ghost total = { on_total key_of_rdn rdn_cmp_total };

    ghost matches_partial_cmp = { λ x y. refl };

    ghost matches_eq = { λ x y. rdn_ties (key_of_rdn x) (key_of_rdn y) };

    #[tactic(auto, using(crate::proofs::ByKeys::rdns_cmp))]
    fn cmp(&self, other: &Rdn) -> Ordering {
        match (self.pairs(), other.pairs()) {
            ([pair], [other]) => pair.cmp(other),
            (pairs, others) => pairs.cmp(others),
        }
    }
}

impl Hash for Rdn {
    ghost hash_input = { λ r. model_hash.rdn_writes (key_of_rdn r) };

    ghost respects_eq = { λ a b same. ap model_hash.rdn_writes ((rdn_decides (key_of_rdn a) (key_of_rdn b)).0 same) };

    #[tactic(auto, using(crate::proofs::ByKeys::rdn_hash))]
    fn hash<H: Hasher>(&self, state: &mut H) {
        self.pairs().hash(state);
    }
}
