//! Laws of the definitions that contracts cite. Each is a function with an empty body.

ghost use Rattle.std.specs.Prelude.{◌≡◌, codes, false, List, None, Ok, Option, Some, ℕ};
ghost use Rattle.percent_encoding.specs.AsciiSet.{should_percent_encode};
ghost use Rattle.url.specs.Parser.{parse_url};
ghost use Rattle.url.specs.Parts.{has_host, Parts};
ghost use Rattle.pep508_urls.specs.declared.path.TheConstants.{FILE_PART};
ghost use Rattle.pep508_urls.specs.Cut.{CutsOnce};
ghost use Rattle.pep508_urls.specs.Extras.{SplitsExtras};
ghost use Rattle.pep508_urls.specs.Path.{file_text, is_escaped, normalized};
ghost use Rattle.pep508_urls.specs.PathUrl.{absolute, HasPathUrl};
ghost use Rattle.pep508_urls.specs.Scheme.{SplitsScheme};
ghost use Rattle.pep508_urls.specs.Meaning.{Meaning, StandsFor};
ghost use Rattle.pep508_urls.specs.Variables.{Expands};

/// A text expands to one text, whatever the values of its variables.
pub fn text_expands_to_one_text()
    ensures { (value : List ℕ → List ℕ) (text a b : List ℕ)
        → Expands value text a → Expands value text b → a ≡ b }
{}

/// A text denotes one URL or one path.
pub fn text_stands_for_one_thing()
    ensures { (text : List ℕ) (a b : Meaning) → StandsFor text a → StandsFor text b → a ≡ b }
{}

/// A text is split after one scheme, and before one list of extras.
pub fn text_is_cut_at_one_place()
    ensures scheme { CutsOnce SplitsScheme }
    ensures extras { CutsOnce SplitsExtras }
{}

/// A part of a path escapes exactly the listed bytes in a file URL.
pub fn file_texts_escape_the_listed_bytes()
    ensures { (b : ℕ) → should_percent_encode FILE_PART b ≡ is_escaped b }
{}

/// The URL Standard accepts the text of each file URL, as a URL of the scheme `file` without a
/// host.
pub fn file_text_is_read()
    ensures { (path : List ℕ) → (url : Parts) × (parse_url None (file_text path) ≡ Ok url)
        × (url.scheme ≡ codes "file") × (has_host url ≡ false) }
{}

/// A path that is absolute after its folder, and can be normalized, has a URL. So a fault of such a
/// path is one of size.
pub fn path_has_a_url()
    ensures { (base : Option (List ℕ)) (path whole normal : List ℕ)
        → absolute base path ≡ Some whole → normalized whole ≡ Some normal
        → HasPathUrl base path }
{}
