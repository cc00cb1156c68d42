//! Variables in texts, such as `${NAME}`.

// Whether the text is the name of a variable, as pip has them.
fn is_name(text: &str) -> bool {
    !text.is_empty()
        && text.bytes().all(|b| b.is_ascii_uppercase() || b.is_ascii_digit() || b == b'_')
}

// Whether the text has a variable.
fn has_variable(text: &str) -> bool {
    for after in text.split("${").skip(1) {
        if let Some((name, _)) = after.split_once('}') {
            if is_name(name) {
                return true;
            }
        }
    }
    false
}

// Whether the text of a requirement has a variable before or after its URL.
pub(crate) fn has_variable_outside(text: &str, url: Option<&str>) -> bool {
    match text.split_once(url.unwrap_or("")) {
        Some((front, back)) => has_variable(front) || has_variable(back),
        None => has_variable(text),
    }
}
