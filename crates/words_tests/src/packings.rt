//! Tests of how tags, heap words, headers, monitor words, wait words and class words are packed.

use heap_words::{ClassWord, Header, HeapWord, Tag, WaitWord, notified};
use monitor_core::MonitorWord;

/// The low and the high half, and the word.
const HALVES: [(u32, u32, u64); 4] = [
    (1, 0, 1),
    (0, 1, 0x1_0000_0000),
    (11, 3, 0x3_0000_000B),
    (0xFFFF_FFFF, 0xFFFF_FFFE, 0xFFFF_FFFE_FFFF_FFFF),
];

#[test]
fn heap_words_and_headers_have_two_halves(rt: HostRuntime) {
    for (low, high, word) in HALVES {
        assert!(rt;
            HeapWord {
                value: low,
                tag: high
            }
            .pack()
                == word
        );
        let heap_word = HeapWord::unpack(word);
        assert!(rt; heap_word.value == low && heap_word.tag == high);
        assert!(rt;
            Header {
                class: low,
                length: high
            }
            .pack()
                == word
        );
        let header = Header::unpack(word);
        assert!(rt; header.class == low && header.length == high);
    }
}

/// The section, the level, and the tag.
const TAGS: [(u32, u8, u32); 4] = [
    (0, 0, 0),
    (1, 1, 0x01_00_00_01),
    (5, 2, 0x02_00_00_05),
    (16_777_215, 255, 0xFFFF_FFFF),
];

#[test]
fn tags_have_a_section_and_a_level(rt: HostRuntime) {
    for (section, level, tag) in TAGS {
        assert!(rt; Tag { section, level }.pack() == tag);
        let found = Tag::unpack(tag);
        assert!(rt; found.section == section && found.level == level);
    }
}

/// The section, the depth, the level, and the word.
const MONITORS: [(u32, u16, u8, u64); 3] = [
    (0, 0, 0, 0),
    (9, 2, 1, 0x01_0002_0000_0009),
    (16_777_215, 65_535, 255, 0xFF_FFFF_00FF_FFFF),
];

#[test]
fn monitor_words_have_a_section_a_depth_and_a_level(rt: HostRuntime) {
    for (section, depth, level, word) in MONITORS {
        assert!(rt;
            MonitorWord {
                section,
                depth,
                level
            }
            .pack()
                == word
        );
        let monitor = MonitorWord::unpack(word);
        assert!(rt; monitor.section == section && monitor.depth == depth && monitor.level == level);
    }
    assert!(rt; MonitorWord::unpack(0x0101_0002_0000_0009).level == 1);
}

const WAITS: [(WaitWord, u64); 3] = [
    (WaitWord::Awake, 0),
    (WaitWord::Waiting(6), 0x1_0000_0006),
    (WaitWord::Notified(6), 0x2_0000_0006),
];

#[test]
fn wait_words_have_a_state_and_an_object(rt: HostRuntime) {
    for (wait, word) in WAITS {
        assert!(rt; wait.pack() == word);
        assert!(rt; WaitWord::unpack(word).map(WaitWord::pack) == Some(word));
    }
    assert!(rt; WaitWord::unpack(0x3_0000_0006).is_none());
    assert!(rt; notified(0x1_0000_0006) == 0x2_0000_0006);
}

const CLASSES: [(ClassWord, u64); 4] = [
    (ClassWord::Unready, 0),
    (ClassWord::Claimed(2), 0x0201),
    (ClassWord::Ready, 2),
    (ClassWord::Bad, 3),
];

#[test]
fn class_words_have_a_state_and_a_thread(rt: HostRuntime) {
    for (class, word) in CLASSES {
        assert!(rt; class.pack() == word);
        assert!(rt; ClassWord::unpack(word).map(ClassWord::pack) == Some(word));
    }
    assert!(rt; ClassWord::unpack(4).is_none());
}
