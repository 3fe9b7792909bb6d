// Finding a number among entries that ascend.

ghost use Rattle.std.specs.Prelude.{◌≡◌, ℕ, ◌-◌, ◌<◌, ◌≤◌, true, length, get_or, MatchResult};
ghost use Rattle.copy_state.specs.Entries.{Rise, IsAt, GoesTo};
ghost use Rattle.copy_state.specs.Listed.{numbers_of};

use crate::entry::Entry;

/// How many entries have lesser numbers, by binary search.
pub(crate) fn count_before<T>(entries: &[Entry<T>], number: u32) -> usize
    requires { Rise (numbers_of entries.now) }
    ensures within { result ≤ length entries.now }
    ensures before { (place : ℕ) → place < result → get_or (numbers_of entries.now) place 0 < number }
    ensures after { (place : ℕ) → result ≤ place → place < length entries.now → number ≤ get_or (numbers_of entries.now) place 0 }
{
    entries.partition_point(|entry| entry.number < number)
}

/// Whether the entry before a place, if there is one, has a lesser number.
fn is_behind<T>(entries: &[Entry<T>], number: u32, place: usize) -> bool
    requires { place ≤ length entries.now }
    ensures { result ≡ true → 0 < place → get_or (numbers_of entries.now) (place - 1) 0 < number }
{
    if place == 0 {
        return true;
    }
    let before = &entries[place - 1];
    before.number < number
}

/// Whether the entry at a place, if there is one, has no lesser number.
fn is_ahead<T>(entries: &[Entry<T>], number: u32, place: usize) -> bool
    ensures { result ≡ true → place < length entries.now → number ≤ get_or (numbers_of entries.now) place 0 }
{
    if place >= entries.len() {
        return true;
    }
    let next = &entries[place];
    number <= next.number
}

/// How many entries have lesser numbers. Where the hint is right it takes no search.
pub(crate) fn count_near<T>(entries: &[Entry<T>], number: u32, hint: usize) -> usize
    requires { Rise (numbers_of entries.now) }
    ensures within { result ≤ length entries.now }
    ensures before { (place : ℕ) → place < result → get_or (numbers_of entries.now) place 0 < number }
    ensures after { (place : ℕ) → result ≤ place → place < length entries.now → number ≤ get_or (numbers_of entries.now) place 0 }
{
    if entries.len() < hint {
        return count_before(entries, number);
    }
    if !is_behind(entries, number, hint) {
        return count_before(entries, number);
    }
    if !is_ahead(entries, number, hint) {
        return count_before(entries, number);
    }
    hint
}

/// The place of a number's entry; where it isn't there, the place to which it would go.
pub(crate) fn find<T>(entries: &[Entry<T>], number: u32) -> Result<usize, usize>
    requires { Rise (numbers_of entries.now) }
    ensures { MatchResult result (λ place. IsAt (numbers_of entries.now) place number) (λ place. GoesTo (numbers_of entries.now) place number) }
{
    let place = count_before(entries, number);
    if place < entries.len() && entries[place].number == number {
        return Ok(place);
    }
    Err(place)
}
