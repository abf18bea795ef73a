//! Identifiers, and texts of one character: parts of a line that are the same in any spelling.
ghost use Rattle.std.specs.Prelude.{◌≡◌, IfSome};
ghost use Rattle.std.specs.Str.{chars};
ghost use Rattle.rga_ops.specs.Identifier.{identifier};
ghost use Rattle.rga_lines.specs.Table.{only_char, if_in_range, if_root_or_in_range, IsElement, IsElementOrRoot};

use rga_ops::Id;

/// The text's only character. `None` where it has none or more than one.
pub fn only_char(text: &str) -> Option<char>
    ensures { result ≡ only_char (chars text.now) }
{
    let mut chars = text.chars();
    let first = chars.next()?;
    match chars.next() {
        None => Some(first),
        Some(_) => None,
    }
}

/// The identifier of an element that has this counter and this replica. `None` where one of them is
/// out of its range.
pub fn element(counter: u64, replica: u16) -> Option<Id>
    ensures exact { result ≡ if_in_range (counter, replica) }
    ensures ok { IfSome result (λ id. (id ≡ identifier counter replica) × IsElement id) }
{
    Id::new(counter, replica).ok()
}

/// The same, or the root where both are 0.
pub fn element_or_root(counter: u64, replica: u16) -> Option<Id>
    ensures exact { result ≡ if_root_or_in_range (counter, replica) }
    ensures ok { IfSome result (λ id. (id ≡ identifier counter replica) × IsElementOrRoot id) }
{
    if counter == 0 && replica == 0 {
        return Some(Id::ROOT);
    }
    element(counter, replica)
}
