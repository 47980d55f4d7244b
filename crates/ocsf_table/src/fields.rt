// The fields of a row.

/// What stands before the mark and behind it; all stands before a mark that isn't there.
pub fn halves<'a>(row: &'a str, mark: &str) -> (&'a str, &'a str) {
    match row.split_once(mark) {
        Some(halves) => halves,
        None => (row, ""),
    }
}

/// The first field that begins with that word, without the word. Where there is none it is empty.
pub fn field<'a>(row: &'a str, word: &str) -> &'a str {
    for field in row.split(" | ") {
        if let Some(rest) = field.strip_prefix(word) {
            return rest;
        }
    }
    ""
}

/// The number that the word is, or else 0.
pub fn number(word: &str) -> u64 {
    word.parse::<u64>().unwrap_or(0)
}

/// The line at the position that the word gives, from 0; empty where there is none.
pub fn nth_line<'a>(text: &'a str, word: &str) -> &'a str {
    let at = word.parse::<usize>().unwrap_or(0);
    text.lines().nth(at).unwrap_or_default()
}
