//! The comparisons of a range of texts.

ghost use Rattle.std.specs.Prelude.{◌≡◌, true};
ghost use Rattle.std.specs.Option.{option_map};
ghost use Rattle.marker_words.specs.Compare.{pair_of, lower_pair, upper_pair, pairs_of, text_bound, text_eq};

use crate::operator::MarkerOperator;
use std::ops::Bound;

/// The comparisons whose conjunction is a range of texts, the one of the lower bound first. There
/// are at most two.
#[derive(Drop)]
pub struct MarkerOperatorBounds<'a> {
    lower: Option<(MarkerOperator, &'a String)>,
    upper: Option<(MarkerOperator, &'a String)>,
}

impl<'a> Iterator for MarkerOperatorBounds<'a> {
    ghost use Rattle.std.specs.Iterator.{YieldsFirstBy, item_count};
    ghost use Rattle.marker_words.specs.Bounds.{pairs_left};

    type Item = (MarkerOperator, &'a String);

    ghost next_gives = { YieldsFirstBy pair_of pairs_left };

    ghost remaining = { item_count pairs_left };

    fn next(&mut self) -> Option<(MarkerOperator, &'a String)> {
        match self.lower.take() {
            Some(pair) => Some(pair),
            None => self.upper.take(),
        }
    }
}

impl MarkerOperator {
    ghost use Rattle.marker_words.specs.Bounds.{HoldBetween, HoldsFrom, HoldsUntil, pairs_left};

    /// Returns the comparisons that together are true exactly for the texts between the bounds: one
    /// `==` if both bounds include the same text, otherwise one for each bound. If no text is
    /// between the bounds, none satisfies all of them.
    pub fn from_bounds<'a>(
        bounds: (Bound<&'a String>, Bound<&'a String>),
    ) -> MarkerOperatorBounds<'a>
        ensures pairs { pairs_left result
            ≡ pairs_of text_eq (text_bound bounds.entry.0) (text_bound bounds.entry.1) }

        // The conjunction is the range, at each point.
        ensures range { HoldBetween (pairs_left result)
            (text_bound bounds.entry.0) (text_bound bounds.entry.1) }
    {
        let (lower, upper) = bounds;
        match (&lower, &upper) {
            (Bound::Included(first), Bound::Included(last)) if first == last => {
                MarkerOperatorBounds {
                    lower: Some((MarkerOperator::Equal, *first)),
                    upper: None,
                }
            }
            _ => MarkerOperatorBounds {
                lower: MarkerOperator::from_lower_bound(lower),
                upper: MarkerOperator::from_upper_bound(upper),
            },
        }
    }

    /// Returns the comparison that is true for the texts not below the bound: `>=` if it is
    /// included, `>` if it is excluded. `None` without a bound.
    pub fn from_lower_bound<'a>(bound: Bound<&'a String>) -> Option<(MarkerOperator, &'a String)>
        ensures pair { option_map pair_of result ≡ lower_pair (text_bound bound.entry) }
        ensures range { HoldsFrom (option_map pair_of result) (text_bound bound.entry) }
    {
        match bound {
            Bound::Included(text) => Some((MarkerOperator::GreaterEqual, text)),
            Bound::Excluded(text) => Some((MarkerOperator::GreaterThan, text)),
            Bound::Unbounded => None,
        }
    }

    /// Returns the comparison that is true for the texts not above the bound: `<=` if it is
    /// included, `<` if it is excluded. `None` without a bound.
    pub fn from_upper_bound<'a>(bound: Bound<&'a String>) -> Option<(MarkerOperator, &'a String)>
        ensures pair { option_map pair_of result ≡ upper_pair (text_bound bound.entry) }
        ensures range { HoldsUntil (option_map pair_of result) (text_bound bound.entry) }
    {
        match bound {
            Bound::Included(text) => Some((MarkerOperator::LessEqual, text)),
            Bound::Excluded(text) => Some((MarkerOperator::LessThan, text)),
            Bound::Unbounded => None,
        }
    }
}
