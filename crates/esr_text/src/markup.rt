//! Checks that a text is markup: each element is closed in its turn, and attributes are in quotes.
//!
//! The functions that write pictures and pages do not promise this. A proof of each would have to state, for each,
//! the elements open before and after it. So the whole text is read once more, tag by tag, before it is used: a few
//! functions, with a contract that states the requirement. The names of the open elements are one text, each after a
//! slash, so texts alone describe the elements open before and after a tag.

ghost use Rattle.std.specs.Prelude.{◌≡◌, ◌<◌, ◌++◌, ◌∷◌, ℕ, List, IfOk, IfSome, length, string_bytes, true};
ghost use Rattle.esr_text.specs.Markup.{Attributes, Closes, HasNo, IsMarkup, IsName, IsNameByte, IsPlain, Tag};

use std::alloc::{AllocError, Global};

/// Returns whether a byte may be in a name.
fn is_name_byte(byte: u8) -> bool
    ensures { result ≡ true → IsNameByte byte }
{
    matches!(byte, b'a'..=b'z' | b'A'..=b'Z' | b'0'..=b'9' | b'-')
}

/// Returns whether a text is a name.
fn is_name(text: &str) -> bool
    ensures { result ≡ true → IsName text.now }
{
    for byte in text.as_bytes() {
        if !is_name_byte(*byte) {
            return false;
        }
    }
    !text.is_empty()
}

/// Returns whether no character of a text is that one, of ASCII.
fn has_no(text: &str, mark: char) -> bool
    requires { mark < 128 }
    ensures { result ≡ true → HasNo mark text.now }
{
    !text.contains(mark)
}

/// Returns whether a text has nothing that would have to be escaped.
fn is_plain(text: &str) -> bool
    ensures { result ≡ true → IsPlain text.now }
{
    has_no(text, '<') && has_no(text, '&')
}

/// Returns the text after the first attribute.
fn after_attribute(text: &str) -> Option<&str>
    ensures shorter { IfSome result (λ remainder. length remainder.now < length text.now) }
    ensures continues { IfSome result (λ remainder. Attributes remainder.now → Attributes text.now) }
{
    let attribute = text.strip_prefix(' ')?;
    let (name, quoted) = attribute.split_once("='")?;
    let (value, remainder) = quoted.split_once('\'')?;
    if is_name(name) && is_plain(value) {
        Some(remainder)
    } else {
        None
    }
}

/// Returns whether a text is attributes.
pub fn is_attributes(text: &str) -> bool
    ensures { result ≡ true → Attributes text.now }
{
    let mut rest = text;
    while !rest.is_empty() {
        match after_attribute(rest) {
            Some(remainder) => rest = remainder,
            None => return false,
        }
    }
    true
}

/// Returns the name of the element at the start of a tag, if attributes follow it.
fn element_of(tag: &str) -> Option<&str>
    ensures { IfSome result (λ name. (attributes : List ℕ) × (tag.now ≡ name.now ++ attributes) × IsName name.now × Attributes attributes) }
{
    let name = match tag.split_once(' ') {
        Some((name, _)) => name,
        None => tag,
    };
    let attributes = tag.strip_prefix(name)?;
    if is_name(name) && is_attributes(attributes) {
        Some(name)
    } else {
        None
    }
}

/// Returns the elements open around the innermost one, if that has this name.
fn around<'a>(path: &'a str, name: &str) -> Option<&'a str>
    ensures { IfSome result (λ outer. path.now ≡ outer.now ++ (47 ∷ name.now)) }
{
    path.strip_suffix(name)?.strip_suffix('/')
}

/// Returns the open elements after one more is opened within them.
fn within(alloc: Global, path: &str, name: &str) -> Result<String, AllocError>
    ensures { IfOk result (λ inner. string_bytes inner ≡ path.now ++ (47 ∷ name.now)) }
{
    let mut inner = String::from_str(alloc, path)?;
    inner.push('/')?;
    inner.push_str(name)?;
    Ok(inner)
}

/// Returns the elements open after the tag that closes an element, if it is the innermost.
fn after_end(alloc: Global, path: &str, name: &str) -> Result<Option<String>, AllocError>
    ensures { IfOk result (λ found. IfSome found (λ remainder. Tag path.now (47 ∷ name.now) (string_bytes remainder))) }
{
    match around(path, name) {
        Some(outer) if is_name(name) => Ok(Some(String::from_str(alloc, outer)?)),
        _ => Ok(None),
    }
}

/// Returns the elements open after a tag that does not close an earlier element.
fn after_start(alloc: Global, path: &str, tag: &str) -> Result<Option<String>, AllocError>
    ensures { IfOk result (λ found. IfSome found (λ remainder. Tag path.now tag.now (string_bytes remainder))) }
{
    if let Some(element) = tag.strip_suffix('/') {
        return match element_of(element) {
            Some(_) => Ok(Some(String::from_str(alloc, path)?)),
            None => Ok(None),
        };
    }
    match element_of(tag) {
        Some(name) => Ok(Some(within(alloc, path, name)?)),
        None => Ok(None),
    }
}

/// Returns the elements open after a tag, if the tag is permitted in these open elements.
fn open_after(alloc: Global, path: &str, tag: &str) -> Result<Option<String>, AllocError>
    ensures { IfOk result (λ found. IfSome found (λ remainder. Tag path.now tag.now (string_bytes remainder))) }
{
    match tag.strip_prefix('/') {
        Some(name) => after_end(alloc, path, name),
        None => after_start(alloc, path, tag),
    }
}

/// Returns the text before the first tag, the tag's content, and the text after it.
fn parts(text: &str) -> Option<(&str, &str, &str)>
    ensures plain { IfSome result (λ p. IsPlain p.0.now) }
    ensures shorter { IfSome result (λ p. length p.2.now < length text.now) }
    ensures whole { IfSome result (λ p. text.now ≡ p.0.now ++ (60 ∷ (p.1.now ++ (62 ∷ p.2.now)))) }
{
    let (plain, remainder) = text.split_once('<')?;
    let (tag, rest) = remainder.split_once('>')?;
    if is_plain(plain) {
        Some((plain, tag, rest))
    } else {
        None
    }
}

/// Returns whether the rest of a text, after which nothing follows, closes all open elements.
fn is_end(path: &str, text: &str) -> bool
    ensures { result ≡ true → Closes path.now text.now }
{
    path.is_empty() && is_plain(text)
}

/// Returns whether a text is markup.
///
/// # Errors
///
/// If an allocation fails.
pub fn is_markup(alloc: Global, text: &str) -> Result<bool, AllocError>
    ensures { IfOk result (λ is. is ≡ true → IsMarkup text.now) }
{
    let mut path = String::new(alloc);
    let mut rest = text;
    while let Some((_, tag, remainder)) = parts(rest) {
        match open_after(alloc, path.as_str(), tag)? {
            Some(open) => path = open,
            None => return Ok(false),
        }
        rest = remainder;
    }
    Ok(is_end(path.as_str(), rest))
}

/// Returns a text, or the empty text if it is not markup.
///
/// # Errors
///
/// If an allocation fails.
pub fn markup_or_nothing(alloc: Global, text: String) -> Result<String, AllocError>
    ensures { IfOk result (λ kept. IsMarkup (string_bytes kept)) }
{
    if is_markup(alloc, text.as_str())? {
        Ok(text)
    } else {
        Ok(String::new(alloc))
    }
}
