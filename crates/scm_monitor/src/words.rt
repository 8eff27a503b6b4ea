//! The words of the command line.

use std::alloc::Global;
use std::rt::Env;
use std::{env, io};

/// The words after the program's name.
pub fn read_words(rt: &(impl Env + Alloc<A = Global>)) -> io::Result<Vec<String>> {
    let mut words = Vec::new(rt.alloc());
    for word in env::args(rt)?.skip(1) {
        words.push(word)?;
    }
    Ok(words)
}
