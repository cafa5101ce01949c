use std::alloc::Global;
use sub_base::{NoMemory, Words};

/// The words of a command line, parted by blanks.
pub fn words_of(alloc: Global, line: &str) -> Result<Words, NoMemory> {
    let mut words = Words::make(alloc);
    for word in line.split(' ') {
        words.push(word)?;
    }
    Ok(words)
}
