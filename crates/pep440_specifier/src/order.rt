//! The order, equality and hash of specifiers. Each visits each part once and allocates nothing.

ghost use Rattle.std.specs.Prelude.{◌≡◌, Some, refl};
ghost use Rattle.std.specs.Cmp.{eq_by_cmp_equiv, partial_equiv_from_equiv, po};
ghost use Rattle.std.specs.Ordering.{eq_by_cmp, nat_cmp};
ghost use Rattle.pep440_specifier.specs.HashInput.{specifier_writes};
ghost use Rattle.pep440_specifier.specs.Operator.{rank};
ghost use Rattle.pep440_specifier.specs.Order.{number_count, specifier_cmp};
ghost use Rattle.pep440_specifier.specs.OrderLaws.{specifier_alike, specifier_total};

use crate::operator::Operator;
use crate::specifier::VersionSpecifier;
use std::cmp::Ordering;
use std::hash::{Hash, Hasher};

// The number of release numbers, if specifiers may differ in it.
fn number_count(specifier: &VersionSpecifier) -> usize
    ensures { result ≡ number_count specifier.now }
{
    match specifier.operator {
        Operator::EqualStar | Operator::NotEqualStar | Operator::TildeEqual => {
            specifier.version.release().len()
        }
        _ => 0,
    }
}

fn cmp_operators(a: Operator, b: Operator) -> Ordering
    ensures { result ≡ nat_cmp (rank a) (rank b) }
{
    a.cmp(&b)
}

impl PartialEq for VersionSpecifier {
    ghost eq = { eq_by_cmp specifier_cmp };

    ghost laws = { partial_equiv_from_equiv (eq_by_cmp_equiv specifier_total) };

    fn eq(&self, other: &VersionSpecifier) -> bool {
        cmp_operators(self.operator, other.operator).is_eq()
            && self.version == other.version
            && number_count(self) == number_count(other)
    }
}

impl Eq for VersionSpecifier {
    ghost laws = { eq_by_cmp_equiv specifier_total };
}

impl PartialOrd for VersionSpecifier {
    ghost partial_cmp = { λ a b. Some (specifier_cmp a b) };

    ghost laws = { po specifier_total (λ a b. refl) };

    fn partial_cmp(&self, other: &VersionSpecifier) -> Option<Ordering> {
        Some(self.cmp(other))
    }
}

impl Ord for VersionSpecifier {
    ghost cmp = { specifier_cmp };

    ghost total = { specifier_total };

    ghost matches_partial_cmp = { λ a b. refl };

    ghost matches_eq = { λ a b. refl };

    fn cmp(&self, other: &VersionSpecifier) -> Ordering {
        cmp_operators(self.operator, other.operator)
            .then_with(|| self.version.cmp(&other.version))
            .then_with(|| number_count(self).cmp(&number_count(other)))
    }
}

impl Hash for VersionSpecifier {
    ghost hash_input = { specifier_writes };

    ghost respects_eq = { specifier_alike.fed };

    fn hash<H: Hasher>(&self, state: &mut H) {
        self.operator.hash(state);
        self.version.hash(state);
        number_count(self).hash(state);
    }
}
