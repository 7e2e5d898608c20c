//! A pager that is driven by the bytes of a terminal.
ghost use Rattle.std.specs.Prelude.{◌≡◌, IfErr, IfOk, false, true};
ghost use Rattle.scm_pager.specs.Heard.{IsTyped, count_on, counts_of, heard, heard_all};
ghost use Rattle.scm_errors.specs.declared.error.RecordError.TheVariants.{OutOfMemory};

use crate::counts::line_count;
use crate::pager::Pager;
use scm_errors::RecordError;
use scm_input::TerminalEvent;
use scm_terminal::Decoder;
use scm_types::File;
use std::alloc::Global;

/// How many lines each side of a file has, or the greatest number.
#[derive(Clone, Copy)]
pub(crate) struct SideCounts {
    /// Those of the selected side.
    selected: usize,
    /// Those of the other side.
    other: usize,
}

/// Returns how many lines each side of `file` has.
fn counts_of(file: &File<'_>) -> SideCounts
    ensures { result ≡ counts_of file.now }
{
    SideCounts {
        selected: line_count(file, true),
        other: line_count(file, false),
    }
}

impl SideCounts {
    /// Returns the number of the selected side, or of the other one.
    fn on(self, selected: bool) -> usize
        ensures { result ≡ count_on self selected }
    {
        if selected { self.selected } else { self.other }
    }
}

impl Pager {
    /// Returns the pager after `event` of a terminal of `width` columns and `height` rows, if the sides have
    /// `counts` lines. Nothing is heard once it is closed.
    fn hear_open(self, event: TerminalEvent, counts: SideCounts, width: u16, height: u16) -> Pager
        ensures { result ≡ heard counts width height self event }
    {
        if self.is_open {
            self.hear(event, counts.on(self.selected), width, height)
        } else {
            self
        }
    }

    /// Returns the pager after `events`, as [`Pager::hear_open`] does with each.
    fn hear_all(
        self,
        events: &[TerminalEvent],
        counts: SideCounts,
        width: u16,
        height: u16,
    ) -> Pager
        ensures { result ≡ heard_all counts width height self events.now }
    {
        let mut pager = self;
        for event in events {
            pager = pager.hear_open(*event, counts, width, height);
        }
        pager
    }
}

/// Returns `pager` over `file` after `bytes` from a terminal of `width` columns and `height` rows, and the
/// silence behind them. After the key that closes it, the other bytes are dropped: they were typed at a screen
/// that is gone.
///
/// # Errors
///
/// - `OutOfMemory`: an allocation failed.
pub fn hear(
    alloc: Global,
    pager: Pager,
    file: &File<'_>,
    bytes: &[u8],
    width: u16,
    height: u16,
) -> Result<Pager, RecordError>
    ensures ok { IfOk result (λ next. IsTyped pager file.now bytes.now width height next) }
    ensures err { IfErr result (λ e. e ≡ OutOfMemory) }
{
    let counts = counts_of(file);
    let mut decoder = Decoder::new();
    let found = decoder.decode(alloc, bytes)?;
    let pager = pager.hear_all(found.as_slice(), counts, width, height);
    match decoder.idle() {
        None => Ok(pager),
        Some(event) => Ok(pager.hear_all(&[event], counts, width, height)),
    }
}
