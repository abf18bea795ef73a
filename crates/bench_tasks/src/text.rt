//! The words that say a task, texts, and documents.
use rga_doc::Doc;
use rga_ops::Refusal;
use rga_store::{MAX_LIMIT, TextStore};
use std::alloc::{AllocError, Global};

/// What the words say is to be done, on a text of so many characters, so many times.
#[derive(Drop)]
pub struct Task<T: Copy> {
    pub work: T,
    pub size: usize,
    pub times: usize,
}

/// The task that the words say, of which the last two are numbers: its work is what the third word
/// names, by a table of names.
pub fn task_of<T: Copy>(words: &[String], names: &[(&str, T)]) -> Option<Task<T>> {
    let count = words.len();
    Some(Task {
        work: named(words, names)?,
        size: number_at(words, count.saturating_sub(2))?,
        times: number_at(words, count.saturating_sub(1))?,
    })
}

/// What the third word names, by a table of names.
pub fn named<T: Copy>(words: &[String], names: &[(&str, T)]) -> Option<T> {
    let word = words.get(2)?.as_str();
    for (name, work) in names {
        if *name == word {
            return Some(*work);
        }
    }
    None
}

/// The number that the word at an index says.
pub fn number_at(words: &[String], index: usize) -> Option<usize> {
    words.get(index)?.parse::<usize>().ok()
}

/// So many characters: words of five letters, in lines of 72 characters.
pub fn paragraph(alloc: Global, size: usize) -> Result<Vec<char>, AllocError> {
    let mut text = Vec::new(alloc);
    for i in 0..size {
        text.push(character_at(i))?;
    }
    Ok(text)
}

fn character_at(i: usize) -> char {
    match (i % 6, i % 72) {
        (5, 71) => '\n',
        (5, _) => ' ',
        (0, _) => 'w',
        _ => 'o',
    }
}

/// A document with this text, put in at once.
pub fn document<S: TextStore>(alloc: Global, text: &[char]) -> Result<Doc<S>, Refusal> {
    let mut doc = Doc::new(alloc, S::new(alloc, MAX_LIMIT)?, 1)?;
    drop(doc.splice(0, 0, text)?);
    Ok(doc)
}
