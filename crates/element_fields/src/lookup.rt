// Attributes and children of an element, in a list of elements in the order of their start tags.
ghost use Rattle.std.specs.Prelude.{◌≡◌, ◌<◌, ◌+◌, length, IfSome, option_map};
ghost use Rattle.element_fields.specs.Lookup.{value_of, child, next_child, is_child};

use base_types::Name;
use tag_outline::Element;

/// The value of the attribute of a name.
pub fn value_of<'a>(name: &str, attributes: &'a [(Name, Name)]) -> Option<&'a str>
    ensures { option_map (λ x. x.now) result ≡ value_of name.now attributes.now }
{
    for a in attributes {
        if a.0.as_str() == name {
            return Some(a.1.as_str());
        }
    }
    None
}

// Whether an element that lies within one at a depth is its child of a name.
fn is_child(depth: u32, name: &str, e: &Element) -> bool
    requires { depth < e.now.depth }
    ensures { result ≡ is_child depth name.now e.now }
{
    e.depth - depth == 1 && e.name.as_str() == name
}

/// The first child of a name, and the elements that follow it, where `below` are the elements that
/// follow the parent, which has this depth.
pub fn child<'a>(
    depth: u32,
    name: &str,
    below: &'a [Element],
) -> Option<(&'a Element, &'a [Element])>
    ensures exact { option_map (λ x. (x.0.now, x.1.now)) result ≡ child depth name.now below.now }
    ensures shorter { IfSome result (λ x. length x.1.now < length below.now) }
{
    for (i, e) in below.iter().enumerate() {
        if e.depth <= depth {
            return None;
        }
        if is_child(depth, name, e) {
            return Some((e, &below[i + 1..]));
        }
    }
    None
}

/// The next child, and the elements that follow it, where `below` are elements that follow the
/// parent, which has this depth.
pub fn next_child(depth: u32, below: &[Element]) -> Option<(&Element, &[Element])>
    ensures exact { option_map (λ x. (x.0.now, x.1.now)) result ≡ next_child depth below.now }
    ensures shorter { IfSome result (λ x. length x.1.now < length below.now) }
{
    for (i, e) in below.iter().enumerate() {
        if e.depth <= depth {
            return None;
        }
        if e.depth - depth == 1 {
            return Some((e, &below[i + 1..]));
        }
    }
    None
}
