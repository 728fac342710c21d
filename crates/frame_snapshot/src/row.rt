//! A row of words, cut by cut.

ghost use Rattle.std.specs.Prelude.{◌≡◌, ◌≤◌, ◌+◌, ◌-◌, ◌++◌, length, take, drop, replicate, OnOk, OnErr};

use std::alloc::AllocError;

/// Makes the words from one place up to another 0, and sees that there are words up to a limit.
pub fn make_room(
    words: &mut Vec<u32>,
    from: usize,
    floor: usize,
    limit: usize,
) -> Result<(), AllocError>
    requires from { from ≤ length words.old.items }
    requires floor { from ≤ floor }
    requires limit { floor ≤ limit }
    ensures before { take from words.new.items ≡ take from words.old.items }
    ensures grown { length words.old.items ≤ length words.new.items }
    ensures zeros { OnOk result (take (floor - from) (drop from words.new.items) ≡ replicate (floor - from) 0) }
    ensures room { OnOk result (limit ≤ length words.new.items) }
    ensures err { OnErr result (words.new.items ≡ words.old.items) }
{
    if words.len() < limit {
        words.resize(limit, 0)?;
    }
    words[from..floor].fill(0);
    Ok(())
}

/// Copies words to a lower place.
pub fn move_down(words: &mut [u32], from: usize, to: usize, count: usize)
    requires down { to ≤ from }
    requires inside { from + count ≤ length words.old }
    ensures before { take to words.new ≡ take to words.old }
    ensures moved { take count (drop to words.new) ≡ take count (drop from words.old) }
{
    for place in 0..count {
        words[to + place] = words[from + place];
    }
}

/// Appends the words from one place up to another.
pub fn append_cut(
    kept: &mut Vec<u32>,
    words: &[u32],
    from: usize,
    to: usize,
) -> Result<(), AllocError>
    requires order { from ≤ to }
    requires inside { to ≤ length words.now }
    ensures ok { OnOk result (kept.new.items ≡ kept.old.items ++ take (to - from) (drop from words.now)) }
    ensures err { OnErr result (kept.new.items ≡ kept.old.items) }
{
    kept.extend_from_slice(&words[from..to])
}

/// Copies `count` kept words to a place.
pub fn put_back(words: &mut [u32], to: usize, kept: &[u32], from: usize, count: usize)
    requires inside { to + count ≤ length words.old }
    requires kept { from + count ≤ length kept.now }
    ensures before { take to words.new ≡ take to words.old }
    ensures copied { take count (drop to words.new) ≡ take count (drop from kept.now) }
{
    words[to..to + count].copy_from_slice(&kept[from..from + count]);
}
