//! Tests of the words of sections, of each change of them, and of which word may follow which.

use section_state::{
    SectionParts, State, closed_to, committed, may_follow, opened, pinned_to, revoked_to,
    section_parts, section_word, undone,
};

/// The state's number, the owner, the priority, the pinned depth, the open depth, the level to which the section is
/// revoked, and the word.
const SECTIONS: [([u8; 6], u64); 4] = [
    ([1, 2, 1, 0, 1, 0], 0x00_01_00_01_02_01),
    ([3, 3, 10, 1, 3, 2], 0x02_03_01_0A_03_03),
    ([4, 255, 1, 0, 1, 0], 0x00_01_00_01_FF_04),
    ([5, 4, 255, 255, 255, 0], 0x00_FF_FF_FF_04_05),
];

/// What a word says, in the order of the table.
fn shown(word: u64) -> Option<[u8; 6]> {
    let parts = section_parts(word)?;
    Some([
        parts.state.number(),
        parts.owner,
        parts.priority,
        parts.pinned,
        parts.depth,
        parts.revoke,
    ])
}

#[test]
fn section_words_have_six_parts(rt: HostRuntime) {
    for (numbers, word) in SECTIONS {
        assert!(rt; shown(word) == Some(numbers));
        let [number, owner, priority, pinned, depth, revoke] = numbers;
        let state = State::numbered(number).unwrap_or(State::Live);
        assert!(rt;
            section_word(SectionParts {
                state,
                owner,
                priority,
                pinned,
                depth,
                revoke
            }) == word
        );
    }
    for word in [0, 2, 6, 0x01_00_01_02_00, 0x01_00_01_02_FF] {
        assert!(rt; section_parts(word).is_none());
    }
}

/// A live section with two open levels, of which the first is pinned.
const LIVE: u64 = 0x00_02_01_05_03_01;

#[test]
fn each_change_leaves_what_it_does_not_name(rt: HostRuntime) {
    assert!(rt; pinned_to(LIVE, 2) == 0x00_02_02_05_03_01);
    assert!(rt; opened(LIVE) == 0x00_03_01_05_03_01);
    assert!(rt; closed_to(LIVE, 1) == 0x00_01_01_05_03_01);
    assert!(rt; revoked_to(LIVE, 2) == 0x02_02_01_05_03_03);
    assert!(rt; committed(LIVE) == 0x00_02_01_05_03_05);
    assert!(rt; undone(0x02_02_01_05_03_03) == 0x00_01_01_05_03_01);
    assert!(rt; undone(0x01_02_00_05_03_03) == 0x00_02_00_05_03_04);
}

/// Two words, and whether the second may follow the first.
const MOVES: [(u64, u64, bool); 24] = [
    // It is pinned deeper, also than levels are open; never less deep.
    (LIVE, 0x00_02_02_05_03_01, true),
    (LIVE, 0x00_02_07_05_03_01, true),
    (LIVE, 0x00_02_00_05_03_01, false),
    (LIVE, LIVE, false),
    // One level more is open, or inner ones are closed.
    (LIVE, 0x00_03_01_05_03_01, true),
    (LIVE, 0x00_04_01_05_03_01, false),
    (LIVE, 0x00_01_01_05_03_01, true),
    (LIVE, 0x00_00_01_05_03_01, false),
    (LIVE, 0x00_03_02_05_03_01, false),
    // It is revoked to a level that is open and not pinned.
    (LIVE, 0x02_02_01_05_03_03, true),
    (LIVE, 0x01_02_01_05_03_03, false),
    (LIVE, 0x03_02_01_05_03_03, false),
    (LIVE, 0x02_03_01_05_03_03, false),
    // It is committed, and not undone.
    (LIVE, 0x00_02_01_05_03_05, true),
    (LIVE, 0x00_02_01_05_03_04, false),
    // Owner and priority stay.
    (LIVE, 0x00_02_02_05_04_01, false),
    (LIVE, 0x00_02_02_06_03_01, false),
    // One that was revoked to level 2 goes on with one level.
    (0x02_02_01_05_03_03, 0x00_01_01_05_03_01, true),
    (0x02_02_01_05_03_03, 0x00_02_01_05_03_01, false),
    (0x02_02_01_05_03_03, 0x00_02_01_05_03_04, false),
    // One that was revoked to level 1 is undone.
    (0x01_02_00_05_03_03, 0x00_02_00_05_03_04, true),
    (0x01_02_00_05_03_03, 0x00_00_00_05_03_01, false),
    // Nothing follows an undone or a committed one.
    (0x00_01_00_05_03_04, 0x00_01_00_05_03_05, false),
    (0x00_01_00_05_03_05, 0x00_01_01_05_03_05, false),
];

#[test]
fn seven_moves_are_lawful(rt: HostRuntime) {
    for (old, new, may) in MOVES {
        let follows = match (section_parts(old), section_parts(new)) {
            (Some(old), Some(new)) => Some(may_follow(old, new)),
            _ => None,
        };
        assert!(rt; follows == Some(may));
    }
}
