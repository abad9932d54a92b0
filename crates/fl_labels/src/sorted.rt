//! Slices that rise.
ghost use Rattle.std.specs.Prelude.{IsTrue, ◌↔◌};
ghost use Rattle.std.specs.List.Sorted.{IsStrictlySortedBy};
ghost use Rattle.fl_labels.specs.Arranged.{IsArranged};
ghost use Rattle.fl_labels.specs.Found.{Found};
ghost use Rattle.fl_labels.specs.SetBy.{In, of_list};

use std::cmp::Ordering;

/// Whether each item is above the one before it. One pass.
pub fn rises<T: Ord>(items: &[T]) -> bool
    ensures { IsTrue result ↔ IsStrictlySortedBy T.cmp items.now }
{
    items.is_sorted_by(|a, b| a.cmp(b).is_lt())
}

/// Puts the items in order, each once. Linear where they rise already, and else sorts them in
/// place; takes no memory.
pub fn arrange<T: Ord + Drop>(items: &mut Vec<T>)
    ensures { IsArranged T.cmp items.old.items items.new.items }
{
    if !rises(items) {
        items.sort_unstable();
        items.dedup();
    }
}

/// The least of these items that is not among those, or `None` where each is. Both rise. One walk
/// along the two.
pub fn first_outside<T: Ord + Copy + Drop>(these: &[T], those: &[T]) -> Option<T>
    requires these { IsStrictlySortedBy T.cmp these.now }
    requires those { IsStrictlySortedBy T.cmp those.now }
    ensures { Found T.cmp (In (of_list {R = T.cmp} these.now))
        (In (of_list {R = T.cmp} those.now)) result }
{
    let mut i = 0;
    let mut j = 0;
    while i < these.len() {
        let item = these[i];
        if j == those.len() {
            return Some(item);
        }
        match item.cmp(&those[j]) {
            Ordering::Less => return Some(item),
            Ordering::Equal => {
                i += 1;
                j += 1;
            }
            Ordering::Greater => j += 1,
        }
    }
    None
}
