//! Tests of finding an instruction's row by its mnemonic.

use instructions::{row, row_named};

#[test]
fn rows_are_found_by_mnemonic(rt: HostRuntime) {
    for number in 0..=255u8 {
        let found = row(number).and_then(|row| row_named(row.mnemonic));
        assert!(rt; found.map(|row| row.number) == row(number).map(|row| row.number));
    }
}

/// Instructions that the table leaves out, parts of mnemonics and other spellings.
const OTHERS: [&str; 8] = [
    "",
    "fadd",
    "jsr",
    "invokedynamic",
    "iad",
    "iadd ",
    "IADD",
    "dup2_x",
];

#[test]
fn other_mnemonics_have_none(rt: HostRuntime) {
    for mnemonic in OTHERS {
        assert!(rt; row_named(mnemonic).is_none());
    }
}
