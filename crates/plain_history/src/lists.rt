//! Lists that are made item by item, and a page of a list.

ghost use Rattle.std.specs.Prelude.{◌≡◌, ◌++◌, [], IfOk, OnErr, OnOk};
ghost use Rattle.std.specs.List.{cons_option};
ghost use Rattle.farm_entry.specs.RunPages.{lines_from};

use farm_entry::PAGE_LINES;
use farm_types::Memory;

/// Adds an item to the end of a list, where there is one. Without memory the list stays as it was.
pub fn push_some<X: Drop>(list: &mut Vec<X>, item: Option<X>) -> Result<(), Memory>
    ensures added { OnOk result (list.new.items ≡ list.old.items ++ cons_option item []) }
    ensures kept { OnErr result (list.new.items ≡ list.old.items) }
{
    if let Some(item) = item {
        list.push(item)?;
    }
    Ok(())
}

/// A page of a list: so many of its items at most, from the item with a number on, where they are numbered from 1.
pub fn lines_from<X: Drop>(items: Vec<X>, from: u32) -> Result<Vec<X>, Memory>
    ensures { IfOk result (λ page. page.items ≡ lines_from from items.items) }
{
    let mut items = items;
    let before = (from.saturating_sub(1) as usize).min(items.len());
    let mut page = items.split_off(before)?;
    page.truncate(PAGE_LINES as usize);
    Ok(page)
}
