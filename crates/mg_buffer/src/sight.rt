//! What is seen of a buffer.
use std::borrow::CowSlice;

/// The text, the places of point and mark in it, and the line of point, from 0. The text is lent by
/// the buffer if it has it at hand, and else is made anew.
#[derive(Drop)]
pub struct Sight<'a> {
    pub text: CowSlice<'a, char>,
    pub point: usize,
    pub mark: Option<usize>,
    pub line: usize,
}
