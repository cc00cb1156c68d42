//! Equality, order and hash of URLs: those of their texts, not of the given ones.

ghost use Rattle.std.proofs.Common.{rules};
ghost use Rattle.std.specs.Prelude.{Some, bytes_eq, refl};
ghost use Rattle.std.specs.Cmp.{on_equiv, on_total, on_po, on_per, partial_equiv_from_equiv};
ghost use Rattle.std.specs.Cmp.Lexicographic.{slice_cmp, nat_list_eq_equiv, nat_list_cmp_total, texts_ties, texts_po};
ghost use Rattle.std.specs.Cmp.Rules.{hashing};
ghost use Rattle.std.specs.Hash as fed;
ghost use Rattle.std.specs.Ordering.{nat_cmp};
ghost use Rattle.url.specs.Parts.{serialize};

use crate::verbatim_url::VerbatimUrl;
use std::cmp::Ordering;
use std::hash::{Hash, Hasher};

impl PartialEq for VerbatimUrl {
    ghost eq = { λ a b. bytes_eq (serialize a.url) (serialize b.url) };

    ghost laws = { on_per (λ v. serialize v.url) (partial_equiv_from_equiv nat_list_eq_equiv) };

    fn eq(&self, other: &VerbatimUrl) -> bool {
        self.url == other.url
    }
}

impl Eq for VerbatimUrl {
    ghost laws = { on_equiv (λ v. serialize v.url) nat_list_eq_equiv };
}

impl PartialOrd for VerbatimUrl {
    ghost partial_cmp = { λ a b. Some (slice_cmp nat_cmp (serialize a.url) (serialize b.url)) };

    ghost laws = { on_po (λ v. serialize v.url) texts_po };

    fn partial_cmp(&self, other: &VerbatimUrl) -> Option<Ordering> {
        Some(self.cmp(other))
    }
}

impl Ord for VerbatimUrl {
    ghost cmp = { λ a b. slice_cmp nat_cmp (serialize a.url) (serialize b.url) };

    ghost total = { on_total (λ v. serialize v.url) nat_list_cmp_total };

    ghost matches_partial_cmp = { λ a b. refl };

    ghost matches_eq = { λ a b. texts_ties (serialize a.url) (serialize b.url) };

    fn cmp(&self, other: &VerbatimUrl) -> Ordering {
        self.url.cmp(&other.url)
    }
}

impl Hash for VerbatimUrl {
    ghost hash_input = { λ v. fed.str (serialize v.url) };

    ghost respects_eq = { Prim.search (hashing, rules) };

    fn hash<H: Hasher>(&self, state: &mut H) {
        self.url.hash(state);
    }
}
