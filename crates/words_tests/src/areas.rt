//! Tests of where each area of the table of shared words begins and ends.

use crate::setting::LIMITS;
use heap_words::{Area, Areas};

/// The first and the last word of each area, with the places where they are: 3 sections, 2 classes, 25 words of
/// fixed objects and 10 of the heap.
const PLACES: [(Area, u64); 12] = [
    (Area::Control(0), 0),
    (Area::Control(7), 7),
    (Area::Section(0), 8),
    (Area::Section(3), 11),
    (Area::Thread(0), 12),
    (Area::Thread(255), 267),
    (Area::Wait(0), 268),
    (Area::Wait(255), 523),
    (Area::Class(0), 524),
    (Area::Class(2), 526),
    (Area::Object(0), 527),
    (Area::Object(35), 562),
];

/// The number of an area, and the number of the word in it.
fn shown(area: Area) -> (u8, u32) {
    let kind = match area {
        Area::Control(_) => 0,
        Area::Section(_) => 1,
        Area::Thread(_) => 2,
        Area::Wait(_) => 3,
        Area::Class(_) => 4,
        Area::Object(_) => 5,
    };
    (kind, area.number())
}

fn place(areas: Areas, area: Area) -> Option<u64> {
    if areas.contains(area) {
        Some(areas.place(area))
    } else {
        None
    }
}

fn area_at(areas: Areas, place: u64) -> Option<(u8, u32)> {
    if place < areas.size() {
        Some(shown(areas.area_of(place)))
    } else {
        None
    }
}

#[test]
fn areas_stand_one_behind_another(rt: HostRuntime) {
    let areas = Areas::of(&LIMITS, 2, 25);
    for (area, at) in PLACES {
        assert!(rt; place(areas, area) == Some(at));
        assert!(rt; area_at(areas, at) == Some(shown(area)));
    }
    assert!(rt; areas.size() == 563 && area_at(areas, 563).is_none());
}

/// The words after the last of each area.
const PAST: [Area; 6] = [
    Area::Control(8),
    Area::Section(4),
    Area::Thread(256),
    Area::Wait(256),
    Area::Class(3),
    Area::Object(36),
];

#[test]
fn past_its_end_an_area_has_no_word(rt: HostRuntime) {
    let areas = Areas::of(&LIMITS, 2, 25);
    for area in PAST {
        assert!(rt; !areas.contains(area));
    }
}
