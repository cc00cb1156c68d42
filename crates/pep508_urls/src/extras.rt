//! Extras at the end of a URL.

ghost use Rattle.std.specs.Prelude.{IfNone, IfSome, List, ℕ};
ghost use Rattle.pep508_urls.specs.Extras.{SplitsExtras};

/// Splits `[..]` off the end of a text: `a.whl[dev,test]` gives `a.whl` and `[dev,test]`. `None` if
/// the text does not end in `[`, a text without brackets, and `]`.
pub fn split_extras(text: &str) -> Option<(&str, &str)>
    ensures found { IfSome result (λ parts. SplitsExtras text.now parts.0.now parts.1.now) }
    ensures none { IfNone result (
        (before extras : List ℕ) → ¬ SplitsExtras text.now before extras) }
{
    let Some(inside) = text.strip_suffix(']') else {
        return None;
    };
    let Some(open) = inside.rfind('[') else {
        return None;
    };
    if inside.split_at(open).1.contains(']') {
        return None;
    }
    Some(text.split_at(open))
}
