//! Laws of functions and sets. Each is a function that does nothing, whose contract is the law.
ghost use Rattle.std.specs.Prelude.{◌≡◌, ℕ, Bool, List, true};
ghost use Rattle.std.specs.String.{string_eq};
ghost use Rattle.std.specs.declared.cmp.Ordering.TheVariants.{Less};
ghost use Rattle.version_ranges.specs.Alike.{HasPointAlike, TiesWithNone};
ghost use Rattle.version_ranges.specs.Point.{Point, point_cmp};
ghost use Rattle.version_ranges.specs.Cuts.{value_of, AgreeEverywhere, AgreeOnTexts, FindsPoint, IsMerged, IsNamed, IsOrderOfNames, text_value};
ghost use Rattle.version_ranges.specs.Ranges.{HaveSamePoints};
ghost use Rattle.version_ranges.specs.Parts.{Part, parts_of, same_parts, HoldsOfPieces, HoldsOfPoints, IsIn, IsPiece};
ghost use Rattle.version_ranges.specs.Intervals.{intervals_of, same_intervals};

use crate::cuts::Cuts;
use crate::ranges::Ranges;

/// Functions whose neighboring pieces differ, such as those of `with_values`, are equal by `==` if
/// they have equal values at every point. Equal functions have equal pieces: as many, with equal
/// bounds and equal values. Functions with equal pieces have equal values at every point.
pub fn same_values_make_same_pieces<T: Ord, V: Eq>(left: &Cuts<T, V>, right: &Cuts<T, V>)
    requires left_merged { IsMerged V.eq left.now }
    requires right_merged { IsMerged V.eq right.now }
    ensures equal { AgreeEverywhere T.cmp V.eq left.now right.now
        → ⟦<Cuts<T, V> as PartialEq>⟧.eq left.now right.now ≡ true }
    ensures pieces { ⟦<Cuts<T, V> as PartialEq>⟧.eq left.now right.now ≡ true
        → same_parts T.eq V.eq (parts_of left.now) (parts_of right.now) ≡ true }
    ensures values { same_parts T.eq V.eq (parts_of left.now) (parts_of right.now) ≡ true
        → AgreeEverywhere T.cmp V.eq left.now right.now }
{}

/// Sets with the same points are equal by `==`. Equal sets have equal intervals: as many, with
/// equal bounds. Sets with equal intervals have the same points.
pub fn same_points_make_same_intervals<T: Ord>(left: &Ranges<T>, right: &Ranges<T>)
    ensures equal { HaveSamePoints T.cmp left.now right.now
        → ⟦<Ranges<T> as PartialEq>⟧.eq left.now right.now ≡ true }
    ensures intervals { ⟦<Ranges<T> as PartialEq>⟧.eq left.now right.now ≡ true
        → same_intervals T.eq (intervals_of left.now) (intervals_of right.now) ≡ true }
    ensures points { same_intervals T.eq (intervals_of left.now) (intervals_of right.now) ≡ true
        → HaveSamePoints T.cmp left.now right.now }
{}

/// Each point is between the bounds of exactly one piece, and the value at the point is that of
/// this piece.
pub fn point_lies_in_one_piece<T: Ord, V>(cuts: &Cuts<T, V>)
    ensures found { (p : Point T)
        → (i : ℕ) × (part : Part T V) × IsPiece cuts.now i part × IsIn T.cmp part p }
    ensures alone { (p : Point T) (i j : ℕ) (x y : Part T V)
        → IsPiece cuts.now i x → IsPiece cuts.now j y → IsIn T.cmp x p → IsIn T.cmp y p → i ≡ j }
    ensures value { (p : Point T) (i : ℕ) (part : Part T V)
        → IsPiece cuts.now i part → IsIn T.cmp part p → value_of T.cmp cuts.now p ≡ part.value }
{}

/// What is true of the value of each piece is true of the value at each point, and the other way
/// round: each piece has a point.
pub fn pieces_have_the_values_of_points<T: Ord, V>(cuts: &Cuts<T, V>)
    ensures points { (t : V → Bool) → HoldsOfPieces t cuts.now → HoldsOfPoints T.cmp t cuts.now }
    ensures pieces { (t : V → Bool) → HoldsOfPoints T.cmp t cuts.now → HoldsOfPieces t cuts.now }
    ensures inhabited { (i : ℕ) (part : Part T V) → IsPiece cuts.now i part
        → (p : Point T) × IsIn T.cmp part p × (value_of T.cmp cuts.now p ≡ part.value) }
{}

/// Here texts name the values of the order, and the order is that of the bytes of the texts. A
/// point of the order has the same value by its name. And two functions cannot distinguish a point
/// of any name, even of a name of no value, from some point of the order.
pub fn names_have_the_values_of_points<T: Ord, V, W>(left: &Cuts<T, V>, right: &Cuts<T, W>)
    ensures named { (name : T → List ℕ) → IsOrderOfNames T.cmp name
        → (p : Point T) → IsNamed T.cmp name left.now right.now p }
    ensures found { (name : T → List ℕ) → IsOrderOfNames T.cmp name
        → (q : Point (List ℕ)) → FindsPoint T.cmp name left.now right.now q }
{}

/// The same for functions of texts, whose points are known by bytes: two functions with equal
/// values at each point are equal by `==` and have equal pieces; the value at a point is that of a
/// piece; and what is true of the value of each piece is true of the value at each point.
pub fn functions_of_texts<V: Eq>(left: &Cuts<String, V>, right: &Cuts<String, V>)
    requires left_merged { IsMerged V.eq left.now }
    requires right_merged { IsMerged V.eq right.now }
    ensures equal { AgreeOnTexts V.eq left.now right.now
        → ⟦<Cuts<String, V> as PartialEq>⟧.eq left.now right.now ≡ true }
    ensures pieces { AgreeOnTexts V.eq left.now right.now
        → same_parts string_eq V.eq (parts_of left.now) (parts_of right.now) ≡ true }
    ensures value { (q : Point (List ℕ))
        → (i : ℕ) × (part : _) × IsPiece left.now i part × (text_value left.now q ≡ part.value) }
    ensures each { (holds : V → Bool) → HoldsOfPieces holds left.now
        → (q : Point (List ℕ)) → holds (text_value left.now q) ≡ true }
{
    same_values_make_same_pieces(left, right);
    names_have_the_values_of_points(left, right);
    point_lies_in_one_piece(left);
    pieces_have_the_values_of_points(left);
}

/// If none of some points is equal to a point, there is another one right before it, as far as they
/// can distinguish: it comes before the point, not before a given lower one, and before the same of
/// them. So what compares points only with finitely many points changes only at these.
pub fn point_before_is_alike<T: Ord>()
    ensures { (ends : List (Point T)) (low p : Point T) → TiesWithNone T.cmp p ends
        → point_cmp T.cmp low p ≡ Less → HasPointAlike T.cmp low p ends }
{}
