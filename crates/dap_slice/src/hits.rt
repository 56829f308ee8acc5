//! Hit counts of breakpoints.
ghost use Rattle.std.specs.Prelude.{◌≡◌, min, ◌+◌};
ghost use Rattle.dap_slice.specs.Hits.{fits, is_wanted, once_more, none_yet};

/// The hits at which a breakpoint acts (Debug Adapter Protocol, "SourceBreakpoint": `hitCondition`).
#[derive(Clone, Copy)]
pub enum HitCondition {
    Exactly(u32),
    AtLeast(u32),
    AtMost(u32),
    /// Each time after so many.
    Every(u32),
}

/// At which of its hits a breakpoint acts, and how many there were.
#[derive(Clone, Copy)]
pub struct Hits {
    pub condition: HitCondition,
    pub count: u64,
}

fn fits(condition: HitCondition, count: u64) -> bool
    ensures { result ≡ fits condition count }
{
    match condition {
        HitCondition::Exactly(number) => count == u64::from(number),
        HitCondition::AtLeast(number) => u64::from(number) <= count,
        HitCondition::AtMost(number) => count <= u64::from(number),
        HitCondition::Every(number) => {
            if number == 0 {
                false
            } else {
                count % u64::from(number) == 0
            }
        }
    }
}

/// Whether a breakpoint acts at the last of its hits.
pub(crate) fn is_wanted(hits: Option<Hits>) -> bool
    ensures { result ≡ is_wanted hits }
{
    match hits {
        None => true,
        Some(hits) => 0 < hits.count && fits(hits.condition, hits.count),
    }
}

/// The count with one hit more.
pub(crate) fn once_more(hits: Option<Hits>) -> Option<Hits>
    ensures { result ≡ once_more hits }
{
    match hits {
        None => None,
        Some(hits) => Some(Hits {
            condition: hits.condition,
            count: hits.count.saturating_add(1),
        }),
    }
}

/// The same condition, with no hits yet.
pub(crate) fn none_yet(hits: Option<Hits>) -> Option<Hits>
    ensures { result ≡ none_yet hits }
{
    match hits {
        None => None,
        Some(hits) => Some(Hits {
            condition: hits.condition,
            count: 0,
        }),
    }
}
