//! The words of events that a terminal sends.
ghost use Rattle.std.specs.Prelude.{◌≡◌, ◌++◌, IfOk, OnOk, string_bytes};
ghost use Rattle.scm_c_values.specs.EventWords.{name_of, place_of, word_of_event, words_of_events, words_of_list};

use scm_record::{Event, TerminalEvent};
use std::alloc::{AllocError, Global};

/// Returns the word of `event`, without the place of a click.
fn name(event: Event) -> &'static str
    ensures { result.now ≡ name_of event }
{
    match event {
        Event::None => "none",
        Event::QuitAccept => "c",
        Event::QuitCancel => "q",
        Event::QuitInterrupt => "ctrl-c",
        Event::QuitEscape => "esc",
        Event::TakeScreenshot(_) => "shot",
        Event::Redraw => "redraw",
        Event::EnsureSelectionInViewport => "ensure",
        Event::ScrollUp => "wheel-up",
        Event::ScrollDown => "wheel-down",
        Event::PageUp => "ctrl-b",
        Event::PageDown => "ctrl-f",
        Event::FocusPrev => "k",
        Event::FocusPrevSameKind => "pageup",
        Event::FocusPrevPage => "ctrl-u",
        Event::FocusNext => "j",
        Event::FocusNextSameKind => "pagedown",
        Event::FocusNextPage => "ctrl-d",
        Event::FocusInner => "l",
        Event::FocusOuter { fold_section } => { if fold_section { "h" } else { "shift-h" } }
        Event::ToggleItem => "space",
        Event::ToggleItemAndAdvance => "enter",
        Event::ToggleAll => "a",
        Event::ToggleAllUniform => "shift-A",
        Event::ExpandItem => "f",
        Event::ExpandAll => "shift-F",
        Event::Click { .. } => "click",
        Event::ToggleCommitViewMode => "view",
        Event::EditCommitMessage => "e",
        Event::Help => "?",
    }
}

/// Returns the place of a click as its word has it, or no text for any other event.
fn place(alloc: Global, event: Event) -> Result<String, AllocError>
    ensures { IfOk result (λ text. string_bytes text ≡ place_of event) }
{
    match event {
        Event::Click { row, column } => Ok(format!(in alloc; ":{row}:{column}")?),
        Event::None
        | Event::QuitAccept
        | Event::QuitCancel
        | Event::QuitInterrupt
        | Event::QuitEscape
        | Event::TakeScreenshot(_)
        | Event::Redraw
        | Event::EnsureSelectionInViewport
        | Event::ScrollUp
        | Event::ScrollDown
        | Event::PageUp
        | Event::PageDown
        | Event::FocusPrev
        | Event::FocusPrevSameKind
        | Event::FocusPrevPage
        | Event::FocusNext
        | Event::FocusNextSameKind
        | Event::FocusNextPage
        | Event::FocusInner
        | Event::FocusOuter { .. }
        | Event::ToggleItem
        | Event::ToggleItemAndAdvance
        | Event::ToggleAll
        | Event::ToggleAllUniform
        | Event::ExpandItem
        | Event::ExpandAll
        | Event::ToggleCommitViewMode
        | Event::EditCommitMessage
        | Event::Help => Ok(String::new(alloc)),
    }
}

/// Adds the word of `event` to `words`, and a space behind it.
fn push_word(alloc: Global, words: &mut String, event: Event) -> Result<(), AllocError>
    ensures { OnOk result
        (string_bytes words.new ≡ string_bytes words.old ++ word_of_event event) }
{
    let place = place(alloc, event)?;
    words.push_str(name(event))?;
    words.push_str(&place)?;
    words.push_str(" ")
}

/// Returns the words of `events` of a terminal, each with a space behind it.
pub fn words_of(alloc: Global, events: &[TerminalEvent]) -> Result<String, AllocError>
    ensures { IfOk result (λ words. string_bytes words ≡ words_of_events events.now) }
{
    let mut words = String::new(alloc);
    for event in events {
        push_word(alloc, &mut words, Event::from(*event))?;
    }
    Ok(words)
}

/// Returns the words of `events`, each with a space behind it.
pub fn words_of_list(alloc: Global, events: &[Event]) -> Result<String, AllocError>
    ensures { IfOk result (λ words. string_bytes words ≡ words_of_list events.now) }
{
    let mut words = String::new(alloc);
    for event in events {
        push_word(alloc, &mut words, *event)?;
    }
    Ok(words)
}
