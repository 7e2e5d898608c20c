//! What is true of views and of what is painted of them.
ghost use Rattle.std.specs.Prelude.{◌≡◌, ◌⊎◌, ◌≤◌, ◌<◌, ℕ, ◌+◌, ◌∷◌, [], List, IsTrue, true, false, drop, slice_index_or};
ghost use Rattle.std.specs.List.{flat_map};
ghost use Rattle.scm_types.specs.Limits.{is_accepted_state};
ghost use Rattle.scm_types.specs.declared.keys.SelectionKey.{SelectionKey};
ghost use Rattle.scm_types.specs.declared.state.RecordState.{RecordState};
ghost use Rattle.scm_input.specs.declared.inputs.TerminalKind.{TerminalKind};
ghost use Rattle.scm_cells.specs.Screen.{IsScreen, Screen};
ghost use Rattle.scm_cells.specs.declared.style.Style.{Style};
ghost use Rattle.scm_terminal.specs.StyledCell.{First, Later, StyledCell, laters, picture};
ghost use Rattle.scm_terminal.specs.Terminal.{Terminal, bytes_of};
ghost use Rattle.scm_record.specs.Session.{start};
ghost use Rattle.scm_record.specs.Keeping.{IsKept};
ghost use Rattle.scm_record.specs.Live.{Live};
ghost use Rattle.scm_record.specs.LiveCalls.{AreRuns};
ghost use Rattle.scm_record.specs.declared.live.Turn.TheVariants as turns;
ghost use Rattle.scm_front.specs.Fronts.{beneath_of};
ghost use Rattle.scm_front_paint.specs.declared.labels.Label.{Label};
ghost use Rattle.scm_front_paint.specs.declared.runs.Run.{Run};
ghost use Rattle.scm_front_paint.specs.declared.syntax.Syntax.{Syntax};
ghost use Rattle.scm_front_paint.specs.declared.syntax.SyntaxSpan.{SyntaxSpan};
ghost use Rattle.scm_front_paint.specs.declared.themes.Theme.{Theme};
ghost use Rattle.scm_front_paint.specs.declared.view.ViewTurn.{ViewTurn};
ghost use Rattle.scm_front_paint.specs.declared.columns.Columns.{Columns};
ghost use Rattle.scm_front_paint.specs.AnyWidths.{KeepsBoth};
ghost use Rattle.scm_front_paint.specs.Below.{AreWhole, Before, LeadsToBoth, PaintsBoth, Pictures, StayApart, commands_of, rows_shown, session_picture, shown_style, view_pictures, width_of};
ghost use Rattle.scm_front_paint.specs.Seen.{IsSeen, Seen};
ghost use Rattle.scm_front_paint.specs.Sideways.{sideways_picture, sideways_row};
ghost use Rattle.scm_front_paint.specs.Symbols.{symbols_of};
ghost use Rattle.scm_front_paint.specs.Syntax.{Lines, line_runs, syntax_style, with_runs};
ghost use Rattle.scm_front_paint.specs.SyntaxLaws.{AreAlikeOn, IsBeside, ShowsSpans, symbols_shown};
ghost use Rattle.scm_front_paint.specs.SyntaxRows.{runs_on};
ghost use Rattle.scm_front_paint.specs.Views.{LeadsBy, ViewInput, ViewPath, front_turn};

use scm_record::live::sessions_are_runs;

/// Proves that the session beneath a view goes through calls of a live session.
///
/// Whatever is typed at a view, each thing that it does is a list of calls of the session beneath: events,
/// messages and resizes. So [`sessions_are_runs`] is true of the session beneath.
///
/// This is a law: the function does nothing, and is there for its contract.
pub fn views_are_runs()
    // inputs are calls of the session beneath
    ensures path { (turn last : ViewTurn) (inputs : List ViewInput)
        → ViewPath turn inputs last → LeadsBy turn last }
    // so they are runs
    ensures runs { (given : RecordState) (kind : TerminalKind) (turn last : ViewTurn)
        → IsTrue (is_accepted_state given) → beneath_of (front_turn turn)
        ≡ turns.Waiting (record { session = start given; kind = kind })
        → (leads : LeadsBy turn last)
        → AreRuns (start given) kind leads.calls (beneath_of (front_turn last)) }
    // and an accepted state is the given one but for marks and messages
    ensures kept { (given state : RecordState) (kind : TerminalKind) (turn last : ViewTurn)
        → IsTrue (is_accepted_state given) → beneath_of (front_turn turn)
        ≡ turns.Waiting (record { session = start given; kind = kind })
        → LeadsBy turn last → beneath_of (front_turn last) ≡ turns.Accepted state
        → IsKept given state }
{
    sessions_are_runs();
}

/// Proves which columns a view sideways shows.
///
/// Column `c` of the terminal is column `x + c` of the window. If a symbol begins further left, its columns
/// are blank, in the styles of their places. At `x` = 0 the picture is that of the window.
///
/// This is a law: the function does nothing, and is there for its contract.
pub fn sideways_rows_are_cut()
    ensures zero { (style : ℕ → ℕ → Style) (s : Screen) → IsScreen s
        → sideways_picture 0 style (symbols_of s) ≡ picture style s }
    ensures column { (style : ℕ → Style) (x c : ℕ) (cells : List StyledCell)
        → laters (drop x cells) ≤ c
        → slice_index_or (sideways_row style x cells) c Later ≡ slice_index_or cells (x + c) Later }
    ensures halved { (style : ℕ → Style) (x c : ℕ) (cells : List StyledCell)
        → c < laters (drop x cells)
        → slice_index_or (sideways_row style x cells) c Later ≡ First (32 ∷ []) (style (x + c)) }
    // the terminal has as many columns and rows as the picture, and the status row
    ensures size { (v : Seen) → IsSeen v → 1 ≤ v.pane.height
        → v.pane.height ≤ 65535
        → (width_of v ≡ v.pane.width) × (rows_shown v.front.beneath + 1 ≡ v.pane.height) }
{}

/// Proves that the session's rows and the status row below them are painted apart.
///
/// A model terminal has one row more than the session's screen. If nothing is known of
/// it, or if it shows what a [`FrontPainter`](crate::FrontPainter) painted last, then after the bytes of
/// the next paint its first rows show the session, and its last row the status row. If the size is that of
/// the last paint, the status row's commands stay on its row, and the session's commands above it.
///
/// This is a law: the function does nothing, and is there for its contract.
pub fn status_rows_stand_below()
    ensures shows { (width height : ℕ) (known new : Pictures) (bytes : List ℕ) (t : Terminal)
        (p : PaintsBoth width known new bytes) → AreWhole width height new
        → Before width height known t → LeadsToBoth width height (commands_of p) t new }
    // the bytes are those of the commands
    ensures written { (width : ℕ) (known new : Pictures) (bytes : List ℕ)
        (p : PaintsBoth width known new bytes) → bytes ≡ flat_map bytes_of (commands_of p) }
    // the row below the session is the status row, and those above it are blank
    ensures whole { (theme : Theme) (words : List (List Columns)) (lines : Lines)
        (labels : List Label) (v : Seen) (accept : List ℕ)
        → AreWhole (width_of v) (rows_shown v.front.beneath)
        (view_pictures theme words lines labels v accept) }
    // once both are shown, each stays on its rows
    ensures apart { (width height : ℕ) (known new : Pictures) (bytes : List ℕ)
        (p : PaintsBoth width known new bytes) → AreWhole width height known
        → AreWhole width height new → StayApart height p }
{}

/// Proves what a terminal of any widths shows of a view.
///
/// A terminal may give a symbol of several bytes other columns than ours, or leave it out. It has room for the
/// session's rows and the status row. Then a paint changes only rows that changed, nothing scrolls, and each
/// symbol of one byte stands at its place in its style.
///
/// This is a law: the function does nothing, and is there for its contract.
pub fn views_keep_places()
    ensures { (width height : ℕ) (known new : Pictures) (bytes : List ℕ)
        (p : PaintsBoth width known new bytes) → AreWhole width height new
        → KeepsBoth width height known new (commands_of p) }
{}

/// Proves what spans leave as it is.
///
/// A view shows the same symbols with any spans. A row shows the spans of its own line alone, as long as that has the
/// text for which they were set. They change no place beside the text, and none of a selected line. No span underlines
/// or reverses a symbol.
///
/// This is a law: the function does nothing, and is there for its contract.
pub fn spans_change_styles_alone()
    ensures symbols { (theme : Theme) (words : List (List Columns)) (one other : Lines)
        (labels : List Label) (v : Seen)
        → symbols_shown (session_picture theme words one labels v)
        ≡ symbols_shown (session_picture theme words other labels v) }
    // spans of lines that a row does not show do nothing there
    ensures others { (theme : Theme) (anchor : SelectionKey) (words : List (List Columns))
        (one other : Lines) (l : Live) (row column : ℕ) → AreAlikeOn one other l row
        → shown_style theme anchor words one l row column
        ≡ shown_style theme anchor words other l row column }
    ensures own { (lines : Lines) (l : Live) (row : ℕ)
        → (runs_on lines l row ≡ []) ⊎ ShowsSpans lines l row }
    // the columns of spans are columns of the text
    ensures text { (text : List ℕ) (spans : List SyntaxSpan) (c : ℕ) (style : Style)
        → IsBeside text c → with_runs (line_runs text spans).runs c style ≡ style }
    // a selected line is reversed
    ensures selected { (runs : List Run) (c : ℕ) (style : Style) → style.reversed ≡ true
        → with_runs runs c style ≡ style }
    ensures attributes { (syntax : Syntax) → ((syntax_style syntax).reversed ≡ false)
        × ((syntax_style syntax).underlined ≡ false) }
{}
