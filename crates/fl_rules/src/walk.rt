//! The way from one list of tags to another.
ghost use Rattle.std.specs.Prelude.{◌≡◌, [], MatchOption};
ghost use Rattle.std.specs.List.Sorted.{IsStrictlySortedBy};
ghost use Rattle.fl_labels.specs.Name.{name_cmp};
ghost use Rattle.fl_rules.specs.parts.Walk.{Splits};

use fl_labels::cap::Cap;
use fl_labels::name::Name;
use std::cmp::Ordering;

/// What comes first on the way from one list of tags to another, and what is left of the way.
#[derive(Clone, Copy)]
pub(crate) struct Step<'a> {
    pub cap: Option<Cap>,
    pub from: &'a [Name],
    pub to: &'a [Name],
}

/// The first step from one list to the other, or none where both are empty.
pub(crate) fn split_change<'a>(from: &'a [Name], to: &'a [Name]) -> Option<Step<'a>>
    requires from_rises { IsStrictlySortedBy name_cmp from.now }
    requires to_rises { IsStrictlySortedBy name_cmp to.now }
    ensures { MatchOption result ((from.now ≡ []) × (to.now ≡ []))
        (λ step. Splits from.now to.now step.cap step.from.now step.to.now) }
{
    match (from.split_first(), to.split_first()) {
        (None, None) => None,
        (Some((lost, from)), None) => Some(Step {
            cap: Some(Cap::Minus(*lost)),
            from,
            to,
        }),
        (None, Some((gained, to))) => Some(Step {
            cap: Some(Cap::Plus(*gained)),
            from,
            to,
        }),
        (Some((lost, others)), Some((gained, rest))) => Some(match lost.cmp(gained) {
            Ordering::Less => Step {
                cap: Some(Cap::Minus(*lost)),
                from: others,
                to,
            },
            Ordering::Equal => Step {
                cap: None,
                from: others,
                to: rest,
            },
            Ordering::Greater => Step {
                cap: Some(Cap::Plus(*gained)),
                from,
                to: rest,
            },
        }),
    }
}

/// The same, up to where nothing is left of the first list: from there on nothing is lost.
pub(crate) fn split_loss<'a>(from: &'a [Name], to: &'a [Name]) -> Option<Step<'a>>
    requires from_rises { IsStrictlySortedBy name_cmp from.now }
    requires to_rises { IsStrictlySortedBy name_cmp to.now }
    ensures { MatchOption result (from.now ≡ [])
        (λ step. Splits from.now to.now step.cap step.from.now step.to.now) }
{
    if from.is_empty() {
        return None;
    }
    split_change(from, to)
}
