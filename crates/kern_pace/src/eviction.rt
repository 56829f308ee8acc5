//! Which connection loses its slot where all slots of a port are taken and another connection waits.
ghost use Rattle.std.specs.Prelude.{◌≡◌, position, ℕ, List, Option, Some, HoldsAt};
ghost use Rattle.kern_pace.specs.Evictions.{can_leave, is_in, arrival_in, newest_arrival, leaves};
ghost use Rattle.kern_pace.specs.Evictions.{newest_of, leaver, IsNext};

/// How far a connection has come.
#[derive(Clone, Copy)]
pub enum Stage {
    /// Its handshake isn't done.
    Handshake,
    /// No message of it has opened yet. On iopub, where nothing is signed, none does.
    Silent,
    /// A message of it has opened, so its peer has the key.
    Heard,
    /// On the heartbeat: it hasn't beaten yet, whether or not its handshake is done.
    Quiet,
    /// On the heartbeat: it has beaten.
    Beats,
}

/// A connection that has a slot: when it came, how far it has come, and for how long it has been there. Times
/// are in milliseconds.
#[derive(Clone, Copy)]
pub struct Occupancy {
    pub came: u64,
    pub stage: Stage,
    pub millis: u64,
}

// Which connections may leave.
#[derive(Clone, Copy)]
enum Group {
    // Those that take too long for what an honest peer does at once.
    Late,
    // Those whose peers haven't shown the key, or haven't beaten for long.
    Unproven,
}

impl Occupancy {
    fn can_leave(self) -> bool
        ensures { result ≡ can_leave self }
    {
        match self.stage {
            Stage::Handshake => self.millis >= 1_000,
            Stage::Silent => self.millis >= 5_000,
            Stage::Heard => false,
            Stage::Quiet => self.millis >= 500,
            Stage::Beats => self.millis >= 60_000,
        }
    }

    fn is_in(self, group: Group) -> bool
        ensures { result ≡ is_in group self }
    {
        match (group, self.stage) {
            (Group::Late, Stage::Handshake | Stage::Quiet) => self.can_leave(),
            (Group::Late, _) => false,
            (Group::Unproven, Stage::Handshake | Stage::Silent | Stage::Quiet) => true,
            (Group::Unproven, Stage::Heard) => false,
            (Group::Unproven, Stage::Beats) => self.can_leave(),
        }
    }
}

// When a slot's connection came, if it is in a group.
fn arrival_in(slot: Option<Occupancy>, group: Group) -> Option<u64>
    ensures { result ≡ arrival_in group slot }
{
    match slot {
        Some(it) if it.is_in(group) => Some(it.came),
        _ => None,
    }
}

// When the newest connection of a group came.
fn newest_arrival(slots: &[Option<Occupancy>], group: Group) -> Option<u64>
    ensures { result ≡ newest_arrival group slots.now }
{
    slots
        .iter()
        .filter_map(|slot| arrival_in(*slot, group))
        .max()
}

// Whether a slot's connection is the one of a group that came then, and can leave.
fn leaves(slot: Option<Occupancy>, group: Group, came: u64) -> bool
    ensures { result ≡ leaves group came slot }
{
    match slot {
        Some(it) => it.is_in(group) && it.came == came && it.can_leave(),
        None => false,
    }
}

// The place of the connection of a group that came then, if it can leave.
fn place_of(slots: &[Option<Occupancy>], group: Group, came: u64) -> Option<usize>
    ensures { result ≡ position (leaves group came) slots.now }
{
    slots.iter().position(|slot| leaves(*slot, group, came))
}

// The place of the newest connection of a group, if it can leave.
fn newest_of(slots: &[Option<Occupancy>], group: Group) -> Option<usize>
    ensures { result ≡ newest_of group slots.now }
{
    match newest_arrival(slots, group) {
        Some(came) => place_of(slots, group, came),
        None => None,
    }
}

/// The place of the connection that loses its slot now to another one that waits, if one does. Strangers who
/// fill the slots come last, so it is the newest of those that may leave, and who was there before stays.
pub fn leaver(slots: &[Option<Occupancy>]) -> Option<usize>
    ensures { result ≡ leaver slots.now }
{
    match newest_of(slots, Group::Late) {
        Some(place) => Some(place),
        None => newest_of(slots, Group::Unproven),
    }
}

/// Who leaves can leave, and takes too long for what an honest peer does at once or is the newest of those
/// that haven't shown the key. So a peer that shows it stays, and so does one that is silent but came before
/// those that fill the slots.
pub fn the_newest_leaves()
    ensures { (slots : List (Option Occupancy)) (place : ℕ) → leaver slots ≡ Some place
        → HoldsAt (IsNext slots) slots place }
{}
