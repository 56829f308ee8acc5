//! How long a running cell and a subscriber wait, how often a running cell's posts are looked for, and how
//! full a journal is.
ghost use Rattle.std.specs.Prelude.{◌≡◌, ◌<◌, ◌≤◌, ◌+◌, ◌*◌, ◌-◌, ◌↔◌, IsTrue, min, max};
ghost use Rattle.kern_pace.specs.Pacing.{pause, slice_pause, lag_pause, subscription_pause, next_gap};

/// The most entries that a server's journal may have.
pub const JOURNAL_LIMIT: u32 = 4_194_304;

// How many of them are reserved for the writers, which fetch what was posted, once no more slices are made.
const RESERVE: u64 = 32_768;

// Subscriptions aren't signed, and each is an entry of the journal.
const SUBSCRIPTIONS_AT_FULL_SPEED: u64 = 65_536;

/// The shortest time from one look for the posts of a running cell to the next, in microseconds.
pub const SHORTEST_GAP: u64 = 5_000;

const LONGEST_GAP: u64 = 100_000;

const SIX_HOURS: u64 = 21_600_000_000;

const LONGEST_PAUSE_OF_A_RUN: u64 = 50_000;

const LONGEST_PAUSE_OF_A_SUBSCRIPTION: u64 = 1_000_000;

// The time for each slice if readers lag behind, in microseconds: at one post a slice, the 4,096 posts that
// are kept last a second.
const LAGGING_SLICE: u64 = 250;

/// What the last look for the posts of a running cell found.
#[derive(Clone, Copy, PartialEq, Eq)]
pub enum Look {
    Posts,
    Nothing,
}

// The pause after `spent` entries in a journal that has `entries`, in microseconds, and at most `most`.
#[tactic(auto, unfolding(crate::specs::Pacing::pause))]
fn pause(spent: u64, entries: u64, most: u64) -> u64
    ensures { result ≡ pause most (min spent 4194304) (max (4194304 - entries) 1) }
{
    let limit = u64::from(JOURNAL_LIMIT);
    let rest = limit.saturating_sub(entries).max(1);
    (spent.min(limit) * SIX_HOURS / rest).min(most)
}

/// The worker's pause after this many slices of a run, in microseconds, where the journal has this many
/// entries: 50 milliseconds at most.
pub fn slice_pause(slices: u64, entries: u64) -> u64
    ensures { result ≡ slice_pause slices entries }
{
    pause(slices, entries, LONGEST_PAUSE_OF_A_RUN)
}

/// The worker's pause after this many slices whose posts the readers haven't read yet, in microseconds: 50
/// milliseconds at most.
pub fn lag_pause(slices: u64) -> u64
    ensures { result ≡ lag_pause slices }
{
    let limit = u64::from(JOURNAL_LIMIT);
    (slices.min(limit) * LAGGING_SLICE).min(LONGEST_PAUSE_OF_A_RUN)
}

/// A subscriber's pause, in microseconds and a second at most. The journal has `entries` entries, and had
/// `before` at the last subscription on this connection.
pub fn subscription_pause(entries: u64, before: u64) -> u64
    ensures { result ≡ subscription_pause (entries - before) entries }
{
    pause(
        entries.saturating_sub(before),
        entries,
        LONGEST_PAUSE_OF_A_SUBSCRIPTION,
    )
}

/// Whether a subscription is taken without a pause, after this many others on all connections.
pub fn is_free_subscription(others: u64) -> bool
    ensures { IsTrue result ↔ (others < 65536) }
{
    others < SUBSCRIPTIONS_AT_FULL_SPEED
}

/// The time from a look for posts to the next one, in microseconds; `gap` is the time before it.
#[tactic(auto, unfolding(crate::specs::Pacing::next_gap))]
pub fn next_gap(gap: u64, last: Look) -> u64
    requires { gap ≤ 100000 }
    ensures gap { result ≡ next_gap gap last }
    ensures bound { result ≤ 100000 }
{
    match last {
        Look::Posts => SHORTEST_GAP,
        Look::Nothing => (2 * gap).min(LONGEST_GAP),
    }
}

/// Whether no more slices are made in a journal of this many entries. The last 32,768 are reserved for the
/// writers, which fetch what was posted.
pub fn is_full(entries: u64) -> bool
    ensures { IsTrue result ↔ (4194304 ≤ entries + 32768) }
{
    entries >= u64::from(JOURNAL_LIMIT) - RESERVE
}

// How many entries are left before the reserve.
pub(crate) fn entries_left(entries: u64) -> u64
    ensures { result ≡ 4161536 - entries }
{
    (u64::from(JOURNAL_LIMIT) - RESERVE).saturating_sub(entries)
}

/// Whether a journal of this many entries is at least 90 percent full.
pub fn is_nearly_full(entries: u64) -> bool
    ensures { IsTrue result ↔ (9 * 4194304 ≤ 10 * entries) }
{
    entries >= (u64::from(JOURNAL_LIMIT) * 9).div_ceil(10)
}
