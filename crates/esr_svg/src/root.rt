//! The element `svg`, which pictures and timelines are.
//!
//! No contract specifies the drawing, so `svg_element` tests it: an unclosed element, or a nested `svg`, would break a
//! page that contains the picture. Such a body is replaced by an empty one. This does not occur, since each part closes
//! the elements that it opens, and none is named `svg`.

ghost use Rattle.std.specs.Prelude.{◌≡◌, IfOk, codes, true, string_bytes};
ghost use Rattle.esr_text.specs.Markup.{Attributes, IsMarkup};
ghost use Rattle.esr_svg.specs.Svg.{IsSvg, IsWithin, Lacks};

use esr_text::{is_attributes, is_markup};
use std::alloc::{AllocError, Global};

/// Returns whether a text does not contain a word.
fn lacks(text: &str, word: &str) -> bool
    ensures { result ≡ true → Lacks word.now text.now }
{
    !text.contains(word)
}

/// Returns whether a text may be the content of a picture's element.
fn is_within(alloc: Global, body: &str) -> Result<bool, AllocError>
    ensures { IfOk result (λ is. is ≡ true → IsWithin body.now) }
{
    let is_markup = is_markup(alloc, body)?;
    Ok(is_markup && lacks(body, "<svg") && lacks(body, "</svg"))
}

/// Returns the body, or an empty text if it may not be the content of a picture's element.
fn within_one(alloc: Global, body: String) -> Result<String, AllocError>
    ensures { IfOk result (λ kept. IsWithin (string_bytes kept)) }
{
    if is_within(alloc, body.as_str())? {
        Ok(body)
    } else {
        Ok(String::new(alloc))
    }
}

/// Returns the attributes, or none if they are not well-formed.
fn in_quotes(alloc: Global, attributes: String) -> String
    ensures { Attributes (string_bytes result) }
{
    if is_attributes(attributes.as_str()) {
        attributes
    } else {
        String::new(alloc)
    }
}

/// Returns the element `svg` with these attributes and this body. Attributes or a body that are not well-formed are left
/// out.
pub fn svg_element(alloc: Global, attributes: String, body: String) -> Result<String, AllocError>
    ensures { IfOk result (λ text. IsSvg (string_bytes text)) }
{
    let attributes = in_quotes(alloc, attributes);
    let body = within_one(alloc, body)?;
    let text = format!(in alloc; "<svg{attributes}>{body}</svg>\n")?;
    Ok(text)
}
