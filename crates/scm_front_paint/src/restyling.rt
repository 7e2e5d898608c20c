//! What becomes of the styles of a row: spans have the styles of what they say, words are set off, a range is
//! underlined, and a theme has its colours.
ghost use Rattle.std.specs.Prelude.{◌≡◌, ◌<◌, ℕ, length, slice_index_or};
ghost use Rattle.scm_terminal.specs.Style.{plain_style};
ghost use Rattle.scm_front_paint.specs.Range.{underlined_if};
ghost use Rattle.scm_front_paint.specs.Restyling.{AreRestyled, IsRestyled, restyled_by, style_after};
ghost use Rattle.scm_front_paint.specs.Syntax.{in_syntax, with_runs};
ghost use Rattle.scm_front_paint.specs.Themes.{themed};
ghost use Rattle.scm_front_paint.specs.Words.{with_words};

use crate::columns::{Columns, set_off};
use crate::runs::Run;
use crate::themes::{Theme, themed};
use scm_record::{NumberedStyle, Style};

/// What changes a style.
#[derive(Clone, Copy)]
enum Effect {
    /// It becomes that of a span.
    InSyntax(NumberedStyle),
    /// It is set off.
    SetOff,
    /// It is underlined.
    Underlined,
    /// It is put in a theme.
    InTheme(Theme),
}

/// A style, and what becomes of it.
#[derive(Clone, Copy)]
struct Restyled {
    /// The style.
    from: NumberedStyle,
    /// What becomes of it.
    to: NumberedStyle,
}

/// Returns `style`, underlined if `is_in`.
pub(crate) fn underlined(is_in: bool, style: Style) -> Style
    ensures { result ≡ underlined_if is_in style }
{
    Style {
        underlined: style.underlined | is_in,
        ..style
    }
}

/// Returns what `style` becomes where a span has the style `own`.
fn in_own(own: NumberedStyle, style: NumberedStyle) -> NumberedStyle
    ensures { result ≡ in_syntax own style }
{
    if style.style().reversed { style } else { own }
}

/// Returns what `style` becomes by `effect`.
fn restyled_by(effect: &Effect, style: NumberedStyle) -> NumberedStyle
    ensures { result ≡ restyled_by effect.now style }
{
    match effect {
        Effect::InSyntax(own) => in_own(*own, style),
        Effect::SetOff => NumberedStyle::new(set_off(true, style.style())),
        Effect::Underlined => NumberedStyle::new(underlined(true, style.style())),
        Effect::InTheme(theme) => NumberedStyle::new(themed(*theme, style.style())),
    }
}

/// Returns `style` with what it becomes by `effect`.
fn restyle(effect: &Effect, style: NumberedStyle) -> Restyled
    ensures from { result.from ≡ style }
    ensures restyled { IsRestyled effect.now result }
{
    Restyled {
        from: style,
        to: restyled_by(effect, style),
    }
}

/// Four styles, and what becomes of them: the last ones that were seen.
#[derive(Clone, Copy)]
struct Known {
    /// The last style.
    first: Restyled,
    /// The one before it.
    second: Restyled,
    /// The one before both.
    third: Restyled,
    /// The one before these.
    fourth: Restyled,
}

/// Returns `known` with `style`, which it lacks, as the last style, in place of the fourth.
fn known_more(known: &Known, effect: &Effect, style: NumberedStyle) -> Known
    requires { AreRestyled effect.now known.now }
    ensures from { result.first.from ≡ style }
    ensures restyled { AreRestyled effect.now result }
{
    Known {
        first: restyle(effect, style),
        second: known.first,
        third: known.second,
        fourth: known.third,
    }
}

/// Returns `known` with `style` as the last style, which is not the last one or the one before it.
fn known_further(known: &Known, effect: &Effect, style: NumberedStyle) -> Known
    requires { AreRestyled effect.now known.now }
    ensures from { result.first.from ≡ style }
    ensures restyled { AreRestyled effect.now result }
{
    if style.is_same(known.third.from) {
        Known {
            first: known.third,
            second: known.first,
            third: known.second,
            fourth: known.fourth,
        }
    } else if style.is_same(known.fourth.from) {
        Known {
            first: known.fourth,
            second: known.first,
            third: known.second,
            fourth: known.third,
        }
    } else {
        known_more(known, effect, style)
    }
}

/// Returns `known` with `style` as the last style.
fn known_after(known: &Known, effect: &Effect, style: NumberedStyle) -> Known
    requires { AreRestyled effect.now known.now }
    ensures from { result.first.from ≡ style }
    ensures restyled { AreRestyled effect.now result }
{
    if style.is_same(known.first.from) {
        *known
    } else if style.is_same(known.second.from) {
        Known {
            first: known.second,
            second: known.first,
            third: known.third,
            fourth: known.fourth,
        }
    } else {
        known_further(known, effect, style)
    }
}

/// Returns what becomes of the last style.
fn last_of(known: &Known) -> NumberedStyle
    ensures { result ≡ known.now.first.to }
{
    known.first.to
}

/// Returns what is known of `first` alone.
fn known_of(effect: &Effect, first: &Restyled) -> Known
    requires { IsRestyled effect.now first.now }
    ensures { AreRestyled effect.now result }
{
    Known {
        first: *first,
        second: *first,
        third: *first,
        fourth: *first,
    }
}

/// Returns the style at place `from`, or the plain one if there is none.
fn style_at(styles: &[NumberedStyle], from: usize) -> NumberedStyle
    ensures { result ≡ slice_index_or styles.now from plain_style }
{
    match styles.get(from) {
        Some(style) => *style,
        None => NumberedStyle::new(Style::PLAIN),
    }
}

/// Makes each of `styles` at the places `from..end` what it becomes by `effect`.
fn restyle_run(effect: &Effect, styles: &mut [NumberedStyle], from: usize, end: usize)
    ensures length { length styles.new ≡ length styles.old }
    ensures each { (c : ℕ) → c < length styles.old → slice_index_or styles.new c plain_style
        ≡ style_after effect.now from end c (slice_index_or styles.old c plain_style) }
{
    let stop = end.min(styles.len());
    let first = restyle(effect, style_at(styles, from));
    let mut known = known_of(effect, &first);
    let mut column = from;
    'places: while column < stop {
        known = known_after(&known, effect, styles[column]);
        styles[column] = last_of(&known);
        column += 1;
    }
}

/// Gives those of `styles`, the styles of a row from column 0 on, that are at the columns of `runs` the styles of
/// these.
pub(crate) fn style_runs(runs: &[Run], styles: &mut [NumberedStyle])
    ensures length { length styles.new ≡ length styles.old }
    ensures each { (c : ℕ) → c < length styles.old → slice_index_or styles.new c plain_style
        ≡ with_runs runs.now c (slice_index_or styles.old c plain_style) }
{
    for run in runs {
        let Columns { start, end } = run.columns;
        restyle_run(&Effect::InSyntax(run.style), styles, start, end);
    }
}

/// Sets off those of `styles`, the styles of a row from column 0 on, that are at `columns`.
pub(crate) fn set_off_words(columns: &[Columns], styles: &mut [NumberedStyle])
    ensures length { length styles.new ≡ length styles.old }
    ensures each { (c : ℕ) → c < length styles.old → slice_index_or styles.new c plain_style
        ≡ with_words columns.now c (slice_index_or styles.old c plain_style) }
{
    for run in columns {
        restyle_run(&Effect::SetOff, styles, run.start, run.end);
    }
}

/// Underlines each of `styles`, if `is_in` says so.
pub(crate) fn underline_if(is_in: bool, styles: &mut [NumberedStyle])
    ensures length { length styles.new ≡ length styles.old }
    ensures each { (c : ℕ) → c < length styles.old → slice_index_or styles.new c plain_style
        ≡ underlined_if is_in (slice_index_or styles.old c plain_style) }
{
    let end = styles.len();
    if is_in {
        restyle_run(&Effect::Underlined, styles, 0, end);
    }
}

/// Makes each of `styles` what it becomes in `theme`.
pub(crate) fn put_in_theme(theme: Theme, styles: &mut [NumberedStyle])
    ensures length { length styles.new ≡ length styles.old }
    ensures each { (c : ℕ) → c < length styles.old → slice_index_or styles.new c plain_style
        ≡ themed theme (slice_index_or styles.old c plain_style) }
{
    let end = styles.len();
    restyle_run(&Effect::InTheme(theme), styles, 0, end);
}
