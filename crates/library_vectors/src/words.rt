// Words of a line.
use num_traits::Bounded;
use std::str::SplitWhitespace;

// The word that stands `n` places behind the word `key`.
pub(crate) fn after<'a>(line: &'a str, key: &str, n: usize) -> Option<&'a str> {
    words_after(line, key).nth(n)
}

// The words behind the word `key`.
pub(crate) fn words_after<'a>(line: &'a str, key: &str) -> SplitWhitespace<'a> {
    let mut words = line.split_whitespace();
    let _ = words.find(|word| *word == key);
    words
}

pub(crate) fn number(line: &str, key: &str, n: usize) -> Option<u32> {
    after(line, key, n)?.parse::<u32>().ok()
}

// A number that is too wide for its place stands at the widest one, which every rule refuses. As in replay_list: a line
// in each program is no more than a library for it.
pub(crate) fn narrow<T: Bounded + TryFrom<u32, Error: Drop>>(number: u32) -> T {
    T::try_from(number).unwrap_or(T::max_value())
}

pub(crate) fn first(line: &str) -> &str {
    line.split_whitespace().next().unwrap_or("")
}
