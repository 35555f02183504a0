// The rows of the table.

ghost use Rattle.std.specs.Prelude.{◌≡◌, ◌≤◌, ◌+◌, ◌++◌, [], Some, None, length, take};
ghost use Rattle.iec_grammar.specs.Lines.{line_of, takes, passes};

use crate::item::Item;
use iec_tree::Part;
use std::marker::Model;

/// The most items that a row expects.
const MOST_ITEMS: usize = 10;

/// A few items. Contracts see them as a list.
#[derive(Drop)]
pub struct Items {
    items: [Item; 10],
    len: usize,
}

impl Model for Items {
    ghost use Rattle.std.specs.Prelude.{List};
    ghost use Rattle.iec_grammar.specs.declared.item.Item.{Item};

    ghost Value = { List Item };

    ghost use Rattle.iec_grammar.specs.ItemLists.{items_of, IsItems};

    ghost view = { items_of };

    ghost invariant = { IsItems };
}

impl Items {
    // These items, and then those behind.
    fn of(first: &[Item], behind: &[Item]) -> Items
        requires { length first.now + length behind.now ≤ 10 }
        ensures { result ≡ first.now ++ behind.now }
    {
        let mut items = [Item::Name; MOST_ITEMS];
        let both = first.len() + behind.len();
        items[..first.len()].copy_from_slice(first);
        items[first.len()..both].copy_from_slice(behind);
        Items { items, len: both }
    }

    /// The items, in their order.
    pub fn as_slice(&self) -> &[Item]
        ensures { result.now ≡ self.now }
    {
        &self.items[..self.len]
    }
}

/// What a token does where an item is expected.
#[derive(Drop)]
pub enum Row {
    /// It is taken, and these items are expected in the item's place.
    Takes(Option<Part>, Items),
    /// The item ends in front of it.
    Passes(Option<Part>),
    /// It doesn't fit.
    Refuses,
    /// The name in front of it is none that may stand there.
    Misnamed,
}

// The token is taken as this part, and these items are expected.
pub fn take(part: Part, items: &[Item]) -> Row
    requires { length items.now ≤ 10 }
    ensures { line_of result ≡ takes (Some part) items.now }
{
    Row::Takes(Some(part), Items::of(items, &[]))
}

// The token is taken and says nothing by itself.
pub fn skip(items: &[Item]) -> Row
    requires { length items.now ≤ 10 }
    ensures { line_of result ≡ takes None items.now }
{
    Row::Takes(None, Items::of(items, &[]))
}

// The token is taken as this part, where it is one, and begins what these items stand behind.
pub fn begin(part: Option<Part>, items: &[Item], behind: &[Item]) -> Row
    requires { length items.now + length behind.now ≤ 10 }
    ensures { line_of result ≡ takes part (items.now ++ behind.now) }
{
    Row::Takes(part, Items::of(items, behind))
}
