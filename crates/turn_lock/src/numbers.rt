//! Sets of seat numbers, as rows of 256 marks: a number is in the set where the place of that number is true. Place 0 is never true.

ghost use Rattle.std.specs.Prelude.{◌≡◌, ℕ, ◌≤◌, ◌<◌, true, false, length, slice_index_or};
ghost use Rattle.turn_lock.specs.Numbers.{has, least, greatest, united, HasAll, HasNoOther, HasTwo, only, without};

/// The numbers from 1 to `seats`.
pub(crate) fn first_numbers(seats: u8) -> [bool; 256]
    ensures all { HasAll seats result }
    ensures no_other { HasNoOther seats result }
{
    let mut numbers = [false; 256];
    for n in 1..seats as usize + 1 {
        numbers[n] = true;
    }
    numbers
}

/// The least number, of one or more.
pub(crate) fn least_of(numbers: &[bool; 256]) -> u64
    requires { (n : ℕ) × (has numbers.now n ≡ true) }
    ensures { result ≡ least numbers.now }
{
    let mut at = 0;
    while at < 256 {
        if numbers[at] {
            return at as u64;
        }
        at += 1;
    }
    unreachable!()
}

/// The greatest number, or 0 where there is none.
pub(crate) fn greatest_of(numbers: &[bool; 256]) -> usize
    ensures same { result ≡ greatest numbers.now }
    ensures small { result < 256 }
{
    let mut top = 0;
    for at in 0..256 {
        if numbers[at] {
            top = at;
        }
    }
    top
}

/// Just this number.
pub(crate) fn one_number(number: usize) -> [bool; 256]
    requires { number < 256 }
    ensures { result ≡ only number }
{
    let mut numbers = [false; 256];
    numbers[number] = true;
    numbers
}

/// Adds the numbers of others.
pub(crate) fn unite(numbers: &mut [bool; 256], others: &[bool; 256])
    ensures { numbers.new ≡ united numbers.old others.now }
{
    for at in 0..256 {
        if others[at] {
            numbers[at] = true;
        }
    }
}

/// Whether each number from 1 to `seats` is there.
pub(crate) fn has_all(numbers: &[bool; 256], seats: u8) -> bool
    ensures every { result ≡ true → HasAll seats numbers.now }
    ensures missing { HasAll seats numbers.now → result ≡ true }
{
    for n in 1..seats as usize + 1 {
        if !numbers[n] {
            return false;
        }
    }
    true
}
