//! Parts of texts.

ghost use Rattle.std.specs.Prelude.{◌≡◌, ◌≢◌, ◌++◌, ◌-◌, ℕ, List, drop, length, IfNone, IfSome};
ghost use Rattle.pep508_text.specs.Suffix.{IsSuffix};
ghost use Rattle.formatting_commands.specs.Finding.{Lacks};

// The text before this end of it.
pub(crate) fn before_end<'a>(text: &'a str, rest: &str) -> &'a str
    requires { IsSuffix text.now rest.now }
    ensures { text.now ≡ result.now ++ rest.now }
{
    text.split_at(text.len() - rest.len()).0
}

// The text after this front of it.
fn after_front<'a>(text: &'a str, front: &str) -> Option<&'a str>
    ensures found { IfSome result (λ rest. text.now ≡ front.now ++ rest.now) }
    ensures lacking { IfNone result ((rest : List ℕ) → text.now ≢ front.now ++ rest) }
{
    text.strip_prefix(front)
}

// The texts before and after the part that begins at this byte.
pub(crate) fn split_around<'a>(
    text: &'a str,
    start: usize,
    part: &str,
) -> Option<(&'a str, &'a str)>
    ensures found { IfSome result (λ x. text.now ≡ x.0.now ++ (part.now ++ x.1.now)) }
    ensures start { IfSome result (λ x. length x.0.now ≡ start) }
    ensures lacking { IfNone result (Lacks text.now part.now start) }
{
    let (front, rest) = text.split_at_checked(start)?;
    let back = after_front(rest, part)?;
    Some((front, back))
}

// The bytes from this one on.
pub(crate) fn bytes_from(text: &str, start: usize) -> &[u8]
    ensures { result.now ≡ drop start text.now }
{
    let bytes = text.as_bytes();
    if start < bytes.len() {
        &bytes[start..]
    } else {
        &[]
    }
}
