//! Key and mouse events of a terminal.

/// The modifier keys that are held during a key or mouse event.
#[derive(Clone, Copy, Debug, PartialEq, Eq)]
pub struct KeyModifiers {
    /// Whether a shift key is held.
    pub shift: bool,
    /// Whether a control key is held.
    pub control: bool,
    /// Whether an alt key is held.
    pub alt: bool,
    /// Whether any other modifier key is held.
    pub other: bool,
}

impl KeyModifiers {
    /// No modifier key.
    pub const NONE: KeyModifiers = KeyModifiers {
        shift: false,
        control: false,
        alt: false,
        other: false,
    };

    /// The shift key alone.
    pub const SHIFT: KeyModifiers = KeyModifiers {
        shift: true,
        control: false,
        alt: false,
        other: false,
    };

    /// The control key alone.
    pub const CONTROL: KeyModifiers = KeyModifiers {
        shift: false,
        control: true,
        alt: false,
        other: false,
    };
}

/// A key.
#[derive(Clone, Copy, Debug, PartialEq, Eq)]
pub enum KeyCode {
    /// The key that types this character; shift is already applied.
    Char(char),
    /// The arrow up.
    Up,
    /// The arrow down.
    Down,
    /// The arrow to the left.
    Left,
    /// The arrow to the right.
    Right,
    /// Page up.
    PageUp,
    /// Page down.
    PageDown,
    /// Home.
    Home,
    /// End.
    End,
    /// Enter.
    Enter,
    /// Escape.
    Esc,
    /// Any other key.
    Other,
}

/// The kind of a key event.
#[derive(Clone, Copy, Debug, PartialEq, Eq)]
pub enum KeyEventKind {
    /// The key is pressed.
    Press,
    /// The key is held and repeats.
    Repeat,
    /// The key is released.
    Release,
}

/// A key event.
#[derive(Clone, Copy, Debug, PartialEq, Eq)]
pub struct KeyEvent {
    /// The key that the event is about.
    pub code: KeyCode,
    /// The modifiers held with it.
    pub modifiers: KeyModifiers,
    /// Whether the key is pressed, repeated or released.
    pub kind: KeyEventKind,
}

/// A button of the mouse.
#[derive(Clone, Copy, Debug, PartialEq, Eq)]
pub enum MouseButton {
    /// The left button.
    Left,
    /// The right button.
    Right,
    /// The middle button.
    Middle,
}

/// The kind of a mouse event.
#[derive(Clone, Copy, Debug, PartialEq, Eq)]
pub enum MouseEventKind {
    /// A button is pressed.
    Down(MouseButton),
    /// A button is released.
    Up(MouseButton),
    /// The mouse moves while a button is held.
    Drag(MouseButton),
    /// The mouse moves.
    Moved,
    /// The wheel turns up.
    ScrollUp,
    /// The wheel turns down.
    ScrollDown,
    /// Any other event of the mouse.
    Other,
}

/// A mouse event and its place.
#[derive(Clone, Copy, Debug, PartialEq, Eq)]
pub struct MouseEvent {
    /// The kind of the mouse event.
    pub kind: MouseEventKind,
    /// The column of the mouse, counted from 0 on the left.
    pub column: u16,
    /// The row of the mouse, counted from 0 at the top.
    pub row: u16,
    /// The modifiers held during the event.
    pub modifiers: KeyModifiers,
}

/// An event of a terminal.
#[derive(Clone, Copy, Debug, PartialEq, Eq)]
pub enum TerminalEvent {
    /// A key event.
    Key(KeyEvent),
    /// A mouse event.
    Mouse(MouseEvent),
    /// Any other event of the terminal.
    Other,
}
