//! The numbers that a seed draws, and the thread that gets a turn which no item of an order gives.

ghost use Rattle.std.specs.Prelude.{◌≡◌, ◌<◌, [], length, slice_get, MatchOption};
ghost use Rattle.schedules.specs.Schedule.{next_of, place_of};

/// The number that a seed draws after `number`, by a linear congruential generator modulo 2^64.
pub fn next_number(number: u64) -> u64
    ensures { result ≡ next_of number }
{
    number
        .wrapping_mul(6364136223846793005)
        .wrapping_add(1442695040888963407)
}

/// The place of the picked thread among `count` enabled ones, by rising number from place 0: where a number
/// was drawn its upper 31 bits decide, and without one it is the first place. There must be a thread.
pub fn place_among(count: usize, drawn: Option<u64>) -> usize
    requires { 0 < count }
    ensures { result ≡ place_of drawn count }
{
    match drawn {
        Some(number) => (number >> 33) as usize % count,
        None => 0,
    }
}

/// The thread that gets a turn which no item of an order gives, or `None` where no thread is enabled.
/// `enabled` has the numbers of the enabled threads, rising; `drawn` is the number that the seed drew.
pub fn pick(enabled: &[u8], drawn: Option<u64>) -> Option<u8>
    ensures { MatchOption result (enabled.now ≡ [])
        (λ thread. slice_get enabled.now (place_of drawn (length enabled.now)) ≡ Some thread) }
{
    if enabled.is_empty() {
        return None;
    }
    Some(enabled[place_among(enabled.len(), drawn)])
}
