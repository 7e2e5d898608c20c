//! The bytes that terminals send, and their events. `TMUX` was recorded from tmux 3.3a.
use crate::checks::check_equal;
use scm_input::{
    KeyCode, KeyEvent, KeyEventKind, KeyModifiers, MouseButton, MouseEvent, MouseEventKind,
    TerminalEvent,
};
use scm_terminal::Decoder;
use std::alloc::{AllocError, Global};
use std::process::Abort;
use std::test::Fail;

/// No modifier.
const NONE: KeyModifiers = KeyModifiers::NONE;

/// Shift alone.
const SHIFT: KeyModifiers = KeyModifiers::SHIFT;

/// Control alone.
const CONTROL: KeyModifiers = KeyModifiers::CONTROL;

/// Alt alone.
const ALT: KeyModifiers = KeyModifiers {
    shift: false,
    control: false,
    alt: true,
    other: false,
};

/// Keys as tmux sends them.
const TMUX: &[(&[u8], KeyCode, KeyModifiers)] = &[
    (b"\x1b[A", KeyCode::Up, NONE),
    (b"\x1b[B", KeyCode::Down, NONE),
    (b"\x1b[D", KeyCode::Left, NONE),
    (b"\x1b[C", KeyCode::Right, NONE),
    (b"\x1b[1;5A", KeyCode::Up, CONTROL),
    (b"\x1b[1;5B", KeyCode::Down, CONTROL),
    (b"\x1b[1;2C", KeyCode::Right, SHIFT),
    (b"\x1b[1;2D", KeyCode::Left, SHIFT),
    (b"\x1b[1;3A", KeyCode::Up, ALT),
    (b"\x1b[5~", KeyCode::PageUp, NONE),
    (b"\x1b[6~", KeyCode::PageDown, NONE),
    (b"\x1b[5;5~", KeyCode::PageUp, CONTROL),
    (b"\x1b[6;5~", KeyCode::PageDown, CONTROL),
    (b"\x1b[1~", KeyCode::Home, NONE),
    (b"\x1b[4~", KeyCode::End, NONE),
    (b"\x1b[1;5H", KeyCode::Home, CONTROL),
    (b"\x1b[1;5F", KeyCode::End, CONTROL),
    (b"\x1b[1;2H", KeyCode::Home, SHIFT),
    (b"\x1b[1;2F", KeyCode::End, SHIFT),
    (b"\r", KeyCode::Enter, NONE),
    (b" ", KeyCode::Char(' '), NONE),
    (b"A", KeyCode::Char('A'), SHIFT),
    (b"H", KeyCode::Char('h'), SHIFT),
    (b"L", KeyCode::Char('l'), SHIFT),
    (b"\x03", KeyCode::Char('c'), CONTROL),
    (b"\x1ba", KeyCode::Char('a'), ALT),
    (b"\xc3\xa4", KeyCode::Char('ä'), NONE),
    (b"\xf0\x9f\x99\x82", KeyCode::Char('🙂'), NONE),
];

/// Other forms of keys: xterm's application mode and its older modifiers, xterm's and rxvt's Home
/// and End, rxvt's arrows and paging keys, and the two forms in which a key is its code:
/// `CSI code ; modifiers u` and xterm's `CSI 27 ; modifiers ; code ~`.
const OTHER_FORMS: &[(&[u8], KeyCode, KeyModifiers)] = &[
    (b"\x1bOA", KeyCode::Up, NONE),
    (b"\x1bO5A", KeyCode::Up, CONTROL),
    (b"\x1bO1;5B", KeyCode::Down, CONTROL),
    (b"\x1b[5A", KeyCode::Up, CONTROL),
    (b"\x1b[1A", KeyCode::Up, NONE),
    (b"\x1b[c", KeyCode::Right, SHIFT),
    (b"\x1b[d", KeyCode::Left, SHIFT),
    (b"\x1bOa", KeyCode::Up, CONTROL),
    (b"\x1bOb", KeyCode::Down, CONTROL),
    (b"\x1b[5^", KeyCode::PageUp, CONTROL),
    (b"\x1b[6^", KeyCode::PageDown, CONTROL),
    (b"\x1b[H", KeyCode::Home, NONE),
    (b"\x1b[F", KeyCode::End, NONE),
    (b"\x1bOH", KeyCode::Home, NONE),
    (b"\x1bOF", KeyCode::End, NONE),
    (b"\x1bO5H", KeyCode::Home, CONTROL),
    (b"\x1b[7~", KeyCode::Home, NONE),
    (b"\x1b[8~", KeyCode::End, NONE),
    (b"\x1b[7^", KeyCode::Home, CONTROL),
    (b"\x1b[8^", KeyCode::End, CONTROL),
    (b"\x1b[1;2~", KeyCode::Home, SHIFT),
    (b"\x1b[4;5~", KeyCode::End, CONTROL),
    (b"\x1b[97u", KeyCode::Char('a'), NONE),
    (b"\x1b[97;1u", KeyCode::Char('a'), NONE),
    (b"\x1b[97;2u", KeyCode::Char('A'), SHIFT),
    (b"\x1b[65;2u", KeyCode::Char('A'), SHIFT),
    (b"\x1b[104;2u", KeyCode::Char('h'), SHIFT),
    (b"\x1b[99;5u", KeyCode::Char('c'), CONTROL),
    (b"\x1b[32u", KeyCode::Char(' '), NONE),
    (b"\x1b[63;2u", KeyCode::Char('?'), NONE),
    (b"\x1b[27u", KeyCode::Esc, NONE),
    (b"\x1b[13u", KeyCode::Enter, NONE),
    (b"\x1b[13;2u", KeyCode::Enter, SHIFT),
    (b"\x1b[9u", KeyCode::Char('\t'), NONE),
    (b"\x1b[27;5;99~", KeyCode::Char('c'), CONTROL),
    (b"\x1b[27;2;76~", KeyCode::Char('l'), SHIFT),
    (b"\x1b[27;2;63~", KeyCode::Char('?'), NONE),
    (b"\x1b[27;5;13~", KeyCode::Enter, CONTROL),
    (b"\x1b[27;1;27~", KeyCode::Esc, NONE),
    (b"\x1b[97;3u", KeyCode::Char('a'), ALT),
];

/// Bytes that act as no key: keys outside the table, as tmux, xterm, kitty, VTE and the Linux
/// console send them, reports, and late answers.
const OTHERS: &[&[u8]] = &[
    b"\x1b[2~",
    b"\x1b[3~",
    b"\x1b[9~",
    b"\x1b[E",
    b"\x1b[G",
    b"\x1bOG",
    b"\x1b[2;5H",
    b"\x1b[h",
    b"\x1bOP",
    b"\x1b[15~",
    b"\x1b[1;5P",
    b"\x1b[Z",
    b"\x1b[[A",
    b"\x1b[0201~",
    b"\x1b[201;5~",
    b"\x1b[M qq",
    b"\x1b[[B",
    b"\x1b[3^",
    b"\x1b[5;5^",
    b"\x1b[1a",
    b"\x1b[3u",
    b"\x1b[127u",
    b"\x1b[57414u",
    b"\x1b[97;1:3u",
    b"\x1b[97;5;97u",
    b"\x1b[28;5;99~",
    b"\x1b[2;5A",
    b"\x1b[31;5;5M",
    b"\x1b[I",
    b"\x1b[12;40R",
    b"\x1b[48;24;80;480;800t",
    b"\x1b]11;rgb:cccc/aaaa/ffff\x07",
];

/// A click in rxvt's form, where the button is 32 more than in xterm's SGR form.
const RXVT_CLICK: &[u8] = b"\x1b[32;5;3M";

/// Returns the event of a key that goes down.
fn key(code: KeyCode, modifiers: KeyModifiers) -> TerminalEvent {
    TerminalEvent::Key(KeyEvent {
        code,
        modifiers,
        kind: KeyEventKind::Press,
    })
}

/// Returns the first event of `bytes`, and the number of events.
fn first_event(bytes: &[u8]) -> (Option<TerminalEvent>, usize) {
    let mut decoder = Decoder::new();
    let mut first = None;
    let mut count = 0_usize;
    for byte in bytes {
        let pair = decoder.push(*byte);
        if pair.first.is_some() {
            first = first.or(pair.first);
            count = count.saturating_add(1);
        }
        if pair.second.is_some() {
            count = count.saturating_add(1);
        }
    }
    (first, count)
}

/// Checks that the bytes of each row are the one key that goes down with these modifiers.
fn check_keys(rt: &impl Abort, rows: &[(&[u8], KeyCode, KeyModifiers)]) {
    for (bytes, code, modifiers) in rows {
        check_equal(rt, first_event(*bytes), (Some(key(*code, *modifiers)), 1));
    }
}

#[test]
fn keys(rt: HostRuntime) {
    check_keys(&rt, TMUX);
    check_keys(&rt, OTHER_FORMS);
    for bytes in OTHERS {
        check_equal(&rt, first_event(*bytes), (Some(TerminalEvent::Other), 1));
    }
    check_equal(
        &rt,
        first_event(RXVT_CLICK),
        (Some(event_of(Told::Click)), 1),
    );
}

/// An event, as a constant.
#[derive(Clone, Copy)]
enum Told {
    /// A key without modifiers.
    Plain(KeyCode),
    /// A character with Control.
    Control(char),
    /// The Up key with Control.
    ControlUp,
    /// A click of the left button in column 4 of row 2.
    Click,
    /// No key and no click.
    Other,
}

/// Returns the event `told`.
fn event_of(told: Told) -> TerminalEvent {
    match told {
        Told::Plain(code) => key(code, NONE),
        Told::Control(letter) => key(KeyCode::Char(letter), CONTROL),
        Told::ControlUp => key(KeyCode::Up, CONTROL),
        Told::Click => TerminalEvent::Mouse(MouseEvent {
            kind: MouseEventKind::Down(MouseButton::Left),
            column: 4,
            row: 2,
            modifiers: NONE,
        }),
        Told::Other => TerminalEvent::Other,
    }
}

/// A step of a session: what comes, or what has come of it.
#[derive(Clone, Copy)]
enum Step {
    /// Bytes.
    Bytes(&'static [u8]),
    /// A silence, and the event that comes of it, if any.
    Silence(Option<Told>),
    /// All events of bytes so far.
    All(&'static [Told]),
    /// The last event of bytes.
    Last(Told),
}

/// Checks that `events` are `wanted`.
fn check_all(rt: &impl Abort, events: &[TerminalEvent], wanted: &[Told]) {
    check_equal(rt, events.len(), wanted.len());
    for (event, told) in events.iter().zip(wanted) {
        check_equal(rt, *event, event_of(*told));
    }
}

/// Takes a step of a session, whose bytes made `events` so far.
fn take_step(
    rt: &impl Abort,
    decoder: &mut Decoder,
    events: &mut Vec<TerminalEvent>,
    step: Step,
) -> Result<(), AllocError> {
    match step {
        Step::Bytes(bytes) => decoder.feed(bytes, events)?,
        Step::Silence(None) => check_equal(rt, decoder.idle(), None),
        Step::Silence(Some(told)) => check_equal(rt, decoder.idle(), Some(event_of(told))),
        Step::All(wanted) => check_all(rt, events.as_slice(), wanted),
        Step::Last(told) => check_equal(rt, events.last().copied(), Some(event_of(told))),
    }
    Ok(())
}

/// Takes the steps of a session.
fn check_session(rt: &impl Abort, alloc: Global, steps: &[Step]) -> Result<(), AllocError> {
    let mut events = Vec::new(alloc);
    let mut decoder = Decoder::new();
    for step in steps {
        take_step(rt, &mut decoder, &mut events, *step)?;
    }
    Ok(())
}

/// Keys that are not in the key table, and that a front end may use, come in their order.
const FRONT_END_KEYS: &[Step] = &[
    Step::Bytes(b"j\t\x0c\x1ak"),
    Step::All(&[
        Told::Plain(KeyCode::Char('j')),
        Told::Plain(KeyCode::Char('\t')),
        Told::Control('l'),
        Told::Control('z'),
        Told::Plain(KeyCode::Char('k')),
    ]),
];

/// A click comes in two pieces, and an Esc after it.
const CLICK: &[Step] = &[
    Step::Bytes(b"\x1b[<0;5"),
    Step::All(&[]),
    Step::Bytes(b";3M\x1b"),
    Step::All(&[Told::Click]),
    Step::Silence(Some(Told::Plain(KeyCode::Esc))),
    Step::Silence(None),
];

/// A paste acts as no key.
const PASTE: &[Step] = &[
    Step::Bytes(b"\x1b[200~q\x03\x1b[20"),
    Step::Silence(None),
    Step::Bytes(b"1~\r"),
    Step::All(&[
        Told::Other,
        Told::Other,
        Told::Other,
        Told::Other,
        Told::Plain(KeyCode::Enter),
    ]),
];

/// A silence may tear the Up key anywhere, and be reported twice: its letter is no key.
const TORN_ARROW: &[Step] = &[
    Step::Bytes(b"\x1b"),
    Step::Silence(Some(Told::Plain(KeyCode::Esc))),
    Step::Silence(None),
    Step::Bytes(b"["),
    Step::Silence(None),
    Step::Bytes(b"A\x1b[1;"),
    Step::Silence(None),
    Step::Bytes(b"5A"),
    Step::All(&[Told::Plain(KeyCode::Up), Told::ControlUp]),
];

/// After a real Esc a letter is a key at once. Alt with a byte that begins a control string is no
/// key, and hides none after a silence. The rest of a torn answer on colours is no key.
const SILENCES: &[Step] = &[
    Step::Bytes(b"\x1b"),
    Step::Silence(Some(Told::Plain(KeyCode::Esc))),
    Step::Bytes(b"c\x1b]"),
    Step::Silence(Some(Told::Other)),
    Step::Bytes(b"q\x1b]11;rgb:c"),
    Step::Silence(None),
    Step::Bytes(b"ccc\x07"),
    Step::All(&[
        Told::Plain(KeyCode::Char('c')),
        Told::Plain(KeyCode::Char('q')),
        Told::Other,
    ]),
];

/// A paste whose end mark is lost ends with Ctrl-C between two silences, and with no other Ctrl-C.
const LOST_MARK: &[Step] = &[
    Step::Bytes(b"\x1b[200~a\x1b["),
    Step::Silence(None),
    Step::Bytes(b"\x03q"),
    Step::Silence(None),
    Step::Bytes(b"q\x03"),
    Step::Silence(None),
    Step::All(&[
        Told::Other,
        Told::Other,
        Told::Other,
        Told::Other,
        Told::Other,
        Told::Other,
        Told::Other,
    ]),
    Step::Bytes(b"\x03"),
    Step::Silence(Some(Told::Control('c'))),
    Step::Bytes(b"q"),
    Step::Last(Told::Plain(KeyCode::Char('q'))),
];

/// All sessions.
const SESSIONS: &[&[Step]] = &[
    FRONT_END_KEYS,
    CLICK,
    PASTE,
    TORN_ARROW,
    SILENCES,
    LOST_MARK,
];

#[test]
fn keys_after_silences(rt: HostRuntime) -> Result<(), Fail> {
    for steps in SESSIONS {
        check_session(&rt, rt.alloc(), *steps)?;
    }
    Ok(())
}
