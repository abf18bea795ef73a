//! The open buffers, of which one is current.
ghost use Rattle.std.specs.Prelude.{[], ◌∷◌, IfOk, ◌≡◌, ◌<◌, Some, length, slice_get, chars, nat_eq, OnOk, OnErr, IfErr, IfSome};
ghost use Rattle.std.specs.Cmp.Lexicographic.{pointwise};
ghost use Rattle.mg_plain.specs.declared.view.Kind.TheVariants.{Plain};
ghost use Rattle.mg_workspace.specs.Buffers as spec;
ghost use Rattle.mg_workspace.specs.Names as names;

use mg_buffer::{Memo, VisitedBuffer};
use rga_store::TextStore;
use std::alloc::{AllocError, Global};
use std::marker::Model;

/// Buffers in the order in which they were opened.
#[derive(Drop)]
pub struct Buffers<S: TextStore> {
    all: Vec<VisitedBuffer<S>>,
    current: usize,
}

impl<S: TextStore> Model for Buffers<S> {
    ghost use Rattle.std.specs.Prelude.{◌<◌, length};
    ghost use Rattle.mg_workspace.specs.Buffers as spec;
    ghost use Rattle.std.specs.Coded.{codes};
    ghost use Rattle.mg_buffer.specs.OpenState.{open_state_code};

    ghost Value = { spec.Buffers };

    ghost coded = { Prim.hlevel (codes, open_state_code) };

    ghost view = { λ b. record { all = b.all.items; current = b.current } };

    ghost invariant = { λ b. b.current < length b.all.items };
}

impl<S: TextStore> Buffers<S> {
    ghost use Rattle.std.specs.Borrow.{Lends, sem};
    ghost use Rattle.mg_buffer.specs.contracts.visited_buffer.VisitedBuffer.{the_row as of_buffer};
    ghost use Rattle.mg_workspace.specs.contracts.buffers.Buffers.{the_row};

    /// One buffer, which is current. `AllocError` alone.
    pub fn new(alloc: Global, opened: VisitedBuffer<S>) -> Result<Buffers<S>, AllocError>
        ensures { IfOk result (λ b. b ≡ record { all = opened ∷ []; current = 0 }) }
    {
        let mut all = Vec::new(alloc);
        all.push(opened)?;
        Ok(Buffers { all, current: 0 })
    }

    /// The current buffer. Takes no memory.
    pub fn current(&self) -> &VisitedBuffer<S>
        ensures { result.now ≡ spec.current_buffer self.now }
    {
        &self.all[self.current]
    }

    /// The current buffer, to be changed. Takes no memory.
    pub fn current_mut(&mut self) -> &mut VisitedBuffer<S>
        ensures* writes_back { sem 𝓛 (Lends (the_row S.row S.Taker) (of_buffer S.row S.Taker)
            self.entry result (spec.with_current self.old)) }
        ensures value { result.now ≡ spec.current_buffer self.old }
    {
        &mut self.all[self.current]
    }

    /// The index of the current buffer. Takes no memory.
    pub fn current_index(&self) -> usize
        ensures exact { result ≡ self.now.current }
        ensures within { result < length self.now.all }
    {
        self.current
    }

    /// How many there are. Takes no memory.
    pub fn count(&self) -> usize
        ensures { result ≡ length self.now.all }
    {
        self.all.as_slice().len()
    }

    /// The buffer at an index. Takes no memory.
    pub fn at(&self, index: usize) -> &VisitedBuffer<S>
        requires { index < length self.now.all }
        ensures { slice_get self.now.all index ≡ Some result.now }
    {
        &self.all[index]
    }

    /// The buffer at an index, to be changed. Takes no memory.
    pub fn at_mut(&mut self, index: usize) -> &mut VisitedBuffer<S>
        requires { index < length self.old.all }
        ensures* writes_back { sem 𝓛 (Lends (the_row S.row S.Taker) (of_buffer S.row S.Taker)
            self.entry result (spec.with_at index self.old)) }
        ensures value { result.now ≡ spec.buffer_at index self.old }
    {
        &mut self.all[index]
    }

    /// The index of the buffer of a name. Takes no memory.
    pub fn named(&self, name: &[char]) -> Option<usize>
        ensures exact { result ≡ names.buffer_named name.now self.now.all }
        ensures within { IfSome result (λ i. i < length self.now.all) }
    {
        self.all.iter().position(|opened| is_named(opened, name))
    }

    /// The index of the buffer that an answer asks for. Without a name that is another one. Takes no
    /// memory.
    pub fn asked(&self, name: &[char], otherwise: usize) -> Option<usize>
        requires { otherwise < length self.now.all }
        ensures exact { result ≡ names.asked name.now otherwise self.now.all }
        ensures within { IfSome result (λ i. i < length self.now.all) }
    {
        if name.is_empty() {
            return Some(otherwise);
        }
        self.named(name)
    }

    /// The index behind the current one, round. Takes no memory.
    pub fn next(&self) -> usize
        ensures exact { result ≡ names.next_round (length self.now.all) self.now.current }
        ensures within { result < length self.now.all }
    {
        behind_round(self.count(), self.current)
    }

    /// The buffer at an index is current. Takes no memory.
    pub fn go_to(&mut self, index: usize)
        requires { index < length self.old.all }
        ensures { self.new ≡ record self.old { current = index } }
    {
        self.current = index;
    }

    /// One more buffer, which is current. `AllocError` alone, and nothing changes then.
    pub fn open(&mut self, opened: VisitedBuffer<S>) -> Result<(), AllocError>
        ensures opened { OnOk result (self.new ≡ spec.with_buffer opened self.old) }
        ensures same { OnErr result (self.new ≡ self.old) }
    {
        let newest = self.all.as_slice().len();
        self.all.push(opened)?;
        self.current = newest;
        Ok(())
    }

    /// The buffer at an index is no more. Where it was current, the first of those left is. Takes no
    /// memory.
    pub fn remove(&mut self, index: usize)
        requires within { index < length self.old.all }
        requires others { 1 < length self.old.all }
        ensures { self.new ≡ spec.without_buffer index self.old }
    {
        self.current = moved(index, self.current);
        self.all.remove(index);
    }

    /// Lists the buffer at an index, if there is memory.
    pub fn list_at(&mut self, index: usize)
        requires { index < length self.old.all }
        ensures same { self.new ≡ self.old }
    {
        self.all[index].buffer.list();
    }

    /// Lists all buffers, as far as there is memory.
    pub fn list_all(&mut self)
        ensures same { self.new ≡ self.old }
    {
        for index in 0..self.all.as_slice().len() {
            self.list_at(index);
        }
    }

    /// Whether any buffer is changed. Takes no memory.
    pub fn are_changed(&self) -> bool
        ensures { result ≡ spec.are_changed self.now }
    {
        self.all.iter().any(|b| b.is_changed())
    }

    /// A run of commands ends in the current buffer. Takes no memory.
    pub fn idle(&mut self, memo: &mut Memo)
        ensures buffers { self.new ≡ spec.idled self.old }
        ensures count { length self.new.all ≡ length self.old.all }
        ensures memo { memo.new ≡ record memo.old { kind = Plain } }
    {
        self.current_mut().buffer.idle(memo);
    }
}

/// The index behind one of so many, round.
fn behind_round(count: usize, index: usize) -> usize
    requires { index < count }
    ensures exact { result ≡ names.next_round count index }
    ensures within { result < count }
{
    if index + 1 < count { index + 1 } else { 0 }
}

/// Whether the characters are a buffer's name.
fn is_named<S: TextStore>(opened: &VisitedBuffer<S>, name: &[char]) -> bool
    ensures { result ≡ names.is_named name.now opened.now }
{
    is_spelled(opened.buffer.name(), name)
}

/// Whether a text has these characters.
fn is_spelled(text: &str, characters: &[char]) -> bool
    ensures { result ≡ pointwise nat_eq (chars text.now) characters.now }
{
    text.chars().eq(characters.iter().copied())
}

/// Where a buffer stands once the one at an index is removed. What was that one is the first. Takes
/// no memory.
pub fn moved(gone: usize, index: usize) -> usize
    ensures { result ≡ names.moved gone index }
{
    if index == gone {
        0
    } else if gone < index {
        index - 1
    } else {
        index
    }
}
