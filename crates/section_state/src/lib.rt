//! The word of a section: how far the section is, how many of its levels are open, and which of them can be undone.
//!
//! A **section** is what a thread does from the entry of a monitor, made while it has no section open, to the exit
//! that leaves it no monitor, or until it has been undone. Each has a number of its own, and a word. Level 1 opens with
//! the section, and each further monitor that the thread enters opens the next **level**. A thread of higher priority
//! may revoke a live section to a level that isn't pinned: what was done since that level opened is then undone.
//!
//! No call here takes memory.
#![tactic(auto)]

ghost use Rattle.std.specs.Prelude.{◌≡◌, ◌↔◌, IsTrue, MatchOption, ◌&&◌, nat_eq};
ghost use Rattle.section_state.specs.SectionWord.{number_of, section_word, with_state, with_pinned, with_depth, with_revoke, opened_of, revoked_of, committed_of, undone_of, state_of, pinned_of, depth_of, revoke_of, HasState, IsInNoState, HasParts, MayComeTo, MayFollow};

pub mod laws;

/// How far a section is.
#[derive(Clone, Copy)]
pub enum State {
    /// It is open. Its levels above the pinned depth can be revoked.
    Live,
    /// It was revoked to a level: its thread has yet to undo what was done since that level opened, and holds its
    /// monitors until then.
    Revoking,
    /// All that was done in it is undone.
    Undone,
    /// It has ended, and what was done in it stays.
    Committed,
}

impl State {
    /// The state's number in section words: 1, 3, 4 or 5.
    pub fn number(self) -> u8
        ensures { result ≡ number_of self }
    {
        match self {
            State::Live => 1,
            State::Revoking => 3,
            State::Undone => 4,
            State::Committed => 5,
        }
    }

    /// The state that has a number, or `None` where none has it.
    pub fn numbered(number: u8) -> Option<State>
        ensures { MatchOption result (IsInNoState number) (HasState number) }
    {
        match number {
            1 => Some(State::Live),
            3 => Some(State::Revoking),
            4 => Some(State::Undone),
            5 => Some(State::Committed),
            _ => None,
        }
    }
}

/// What the word of a section says.
#[derive(Clone, Copy)]
pub struct SectionParts {
    /// How far it is.
    pub state: State,
    /// The number of the thread whose section it is, from 1.
    pub owner: u8,
    /// That thread's priority, 1 to 10 in Java.
    pub priority: u8,
    /// The pinned depth: no level up to this one can be undone. It may be above the open depth.
    pub pinned: u8,
    /// The open depth: how many levels are open.
    pub depth: u8,
    /// The level to which it is revoked, or 0 where it isn't being revoked.
    pub revoke: u8,
}

/// The word that says this of a section.
#[tactic(auto, unfolding(crate::specs::SectionWord::section_word))]
pub fn section_word(parts: SectionParts) -> u64
    ensures { result ≡ section_word (number_of parts.state) parts.owner parts.priority parts.pinned parts.depth parts.revoke }
{
    parts.state.number() as u64
        + parts.owner as u64 * 0x100
        + parts.priority as u64 * 0x1_0000
        + parts.pinned as u64 * 0x100_0000
        + parts.depth as u64 * 0x1_0000_0000
        + parts.revoke as u64 * 0x100_0000_0000
}

/// What a word says of a section: `None` exactly where its lowest eight bits are the number of no state. The bits
/// from 48 on say nothing.
#[tactic(auto, unfolding(crate::specs::SectionWord::state_of, crate::specs::SectionWord::owner_of, crate::specs::SectionWord::priority_of))]
pub fn section_parts(word: u64) -> Option<SectionParts>
    ensures { MatchOption result (IsInNoState (state_of word)) (HasParts word) }
{
    let state = State::numbered((word % 256) as u8)?;
    Some(SectionParts {
        state,
        owner: (word / 0x100 % 256) as u8,
        priority: (word / 0x1_0000 % 256) as u8,
        pinned: pinned_of(word),
        depth: depth_of(word),
        revoke: revoke_of(word),
    })
}

/// The pinned depth that a section's word says, whatever its state.
#[tactic(auto, unfolding(crate::specs::SectionWord::pinned_of))]
pub fn pinned_of(word: u64) -> u8
    ensures { result ≡ pinned_of word }
{
    (word / 0x100_0000 % 256) as u8
}

/// The open depth that it says.
#[tactic(auto, unfolding(crate::specs::SectionWord::depth_of))]
pub fn depth_of(word: u64) -> u8
    ensures { result ≡ depth_of word }
{
    (word / 0x1_0000_0000 % 256) as u8
}

/// The level to which it says that the section is revoked.
#[tactic(auto, unfolding(crate::specs::SectionWord::revoke_of))]
pub fn revoke_of(word: u64) -> u8
    ensures { result ≡ revoke_of word }
{
    (word / 0x100_0000_0000 % 256) as u8
}

// The word with another part, all else as it is.
#[tactic(auto, unfolding(crate::specs::SectionWord::with_state))]
fn with_state(word: u64, state: State) -> u64
    ensures { result ≡ with_state word (number_of state) }
{
    word / 256 * 256 + state.number() as u64
}

#[tactic(auto, unfolding(crate::specs::SectionWord::with_depth))]
fn with_depth(word: u64, depth: u8) -> u64
    ensures { result ≡ with_depth word depth }
{
    word / 0x100_0000_0000 * 0x100_0000_0000 + depth as u64 * 0x1_0000_0000 + word % 0x1_0000_0000
}

#[tactic(auto, unfolding(crate::specs::SectionWord::with_revoke))]
fn with_revoke(word: u64, revoke: u8) -> u64
    ensures { result ≡ with_revoke word revoke }
{
    word / 0x1_0000_0000_0000 * 0x1_0000_0000_0000
        + revoke as u64 * 0x100_0000_0000
        + word % 0x100_0000_0000
}

/// The word of a section that is pinned to this level. All else that it said stays.
#[tactic(auto, unfolding(crate::specs::SectionWord::with_pinned))]
pub fn pinned_to(word: u64, level: u8) -> u64
    ensures { result ≡ with_pinned word level }
{
    word / 0x1_0000_0000 * 0x1_0000_0000 + level as u64 * 0x100_0000 + word % 0x100_0000
}

/// The word with one level more open. One that had 255 open then has 0; no thread opens a level there.
pub fn opened(word: u64) -> u64
    ensures { result ≡ opened_of word }
{
    let depth = depth_of(word);
    with_depth(word, if depth == 255 { 0 } else { depth + 1 })
}

/// The word with its inner levels closed down to this open depth.
pub fn closed_to(word: u64, depth: u8) -> u64
    ensures { result ≡ with_depth word depth }
{
    with_depth(word, depth)
}

/// The word of a section that was revoked to this level.
pub fn revoked_to(word: u64, level: u8) -> u64
    ensures { result ≡ revoked_of word level }
{
    with_revoke(with_state(word, State::Revoking), level)
}

/// The word of a section that was committed.
pub fn committed(word: u64) -> u64
    ensures { result ≡ committed_of word }
{
    with_state(word, State::Committed)
}

/// The word of a section that was undone to the level to which it was revoked: it goes on with the levels below, or is
/// undone as a whole where there are none.
pub fn undone(word: u64) -> u64
    ensures { result ≡ undone_of word }
{
    let level = revoke_of(word);
    let stays = if level <= 1 {
        with_state(word, State::Undone)
    } else {
        with_depth(with_state(word, State::Live), level - 1)
    };
    with_revoke(stays, 0)
}

// What a live section may become that stays live.
fn may_go_on(old: SectionParts, new: SectionParts) -> bool
    ensures { IsTrue result ↔ MayComeTo State.Live State.Live old new }
{
    let stays = new.revoke == old.revoke;
    let pinned = new.pinned > old.pinned && new.depth == old.depth;
    let opened = new.pinned == old.pinned && new.depth as u16 == old.depth as u16 + 1;
    let closed = new.pinned == old.pinned && new.depth >= 1 && new.depth < old.depth;
    stays && (pinned || opened || closed)
}

// The same levels are open and pinned.
fn keeps_levels(old: SectionParts, new: SectionParts) -> bool
    ensures { result ≡ (nat_eq new.pinned old.pinned && nat_eq new.depth old.depth) }
{
    new.pinned == old.pinned && new.depth == old.depth
}

/// Whether a section may come from what one word says to what another one says. There are seven such moves: a live
/// section is pinned deeper, its next level is opened, inner levels are closed, it is revoked to a level, or it is
/// committed; and a revoked one goes on with the levels below, or is undone.
pub fn may_follow(old: SectionParts, new: SectionParts) -> bool
    ensures { IsTrue result ↔ MayFollow old new }
{
    let same = new.owner == old.owner && new.priority == old.priority;
    let comes = match (old.state, new.state) {
        (State::Live, State::Live) => may_go_on(old, new),
        (State::Live, State::Revoking) => {
            keeps_levels(old, new) && old.pinned < new.revoke && new.revoke <= old.depth
        }
        (State::Live, State::Committed) => keeps_levels(old, new) && new.revoke == old.revoke,
        (State::Revoking, State::Live) => {
            new.pinned == old.pinned
                && new.depth as u16 + 1 == old.revoke as u16
                && new.depth > 0
                && new.revoke == 0
        }
        (State::Revoking, State::Undone) => {
            keeps_levels(old, new) && old.revoke == 1 && new.revoke == 0
        }
        _ => false,
    };
    same && comes
}
