//! What is put is characters.
ghost use Rattle.std.specs.Prelude.{ℕ};
ghost use Rattle.std.specs.Char.{IsScalar};
ghost use Rattle.std.specs.List.{AllByRecursion};
ghost use Rattle.rga_ops.specs.Prelude.{Identifier};
ghost use Rattle.rga_world.specs.Together.{PutsCharacters};

use crate::event::Event;
use rga_ops::Id;

/// What an event puts is within the range of its type.
pub(crate) fn puts_characters(event: &Event)
    ensures { PutsCharacters event.now }
{
    match event {
        Event::Edit { put, .. } => are_characters(put),
        Event::Revert { back, .. } => are_restored_characters(back),
        Event::Save { .. }
        | Event::SaveOne { .. }
        | Event::Deliver { .. }
        | Event::DeliverList { .. }
        | Event::Restart { .. } => {}
    }
}

fn are_characters(chars: &[char])
    ensures { AllByRecursion IsScalar chars.now }
{
    let mut rest = chars;
    'chars: while let Some((ch, behind)) = rest.split_first() {
        let _ch = *ch;
        rest = behind;
    }
}

fn are_restored_characters(back: &[(Id, char)])
    ensures { AllByRecursion (λ (b : Identifier × ℕ). IsScalar b.1) back.now }
{
    let mut rest = back;
    'chars: while let Some((first, behind)) = rest.split_first() {
        let (_id, _ch) = *first;
        rest = behind;
    }
}
