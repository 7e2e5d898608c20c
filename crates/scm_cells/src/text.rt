//! The visible clusters of a text, which are extended grapheme clusters (Unicode Standard Annex
//! 29). Each has the number of columns that a terminal uses for it.
ghost use Rattle.std.specs.Prelude.{◌≡◌, List, ◌+◌, ◌*◌, ◌≤◌, ◌<◌, ◌^◌, length, chars, sum_by, IfSome};
ghost use Rattle.std.specs.Iterator.{YieldsFirstBy, item_count};
ghost use Rattle.unicode_segmentation.specs.Iter.{graphemes_left};
ghost use Rattle.scm_cells.specs.Cluster.{Cluster, cluster, bytes_as_clusters};
ghost use Rattle.scm_cells.specs.Clusters.{has_control, visible_width, visible_clusters, text_width};
ghost use Rattle.scm_cells.specs.Laying.{columns_of};

use crate::frame_text::frame_width;
use crate::printable::{Printable, is_printable};
use unicode_segmentation::{Graphemes, UnicodeSegmentation};
use unicode_width::UnicodeWidthStr;

/// A piece of text that is drawn on one row.
#[derive(Clone, Copy, Debug, Eq, PartialEq)]
pub struct Span<'a>(pub &'a str);

/// Spans that are drawn side by side on one row.
#[derive(Debug, Drop)]
pub struct Line<'a>(pub Vec<Span<'a>>);

/// Returns whether the text has a control character.
#[tactic(auto, unfolding(crate::specs::Clusters::has_control))]
fn has_control(text: &str) -> bool
    ensures { result ≡ has_control text.now }
{
    text.chars().any(|c| c.is_control())
}

/// Returns the width of a grapheme cluster in columns, or `None` if the cluster is dropped.
#[tactic(auto, unfolding(crate::specs::Clusters::visible_width))]
pub(crate) fn visible_width(piece: &str) -> Option<usize>
    ensures value { result ≡ visible_width piece.now }
    ensures bound { IfSome result (λ width. width ≤ 2 * length piece.now) }
{
    if has_control(piece) {
        return None;
    }
    let width = piece.width();
    if width == 0 { None } else { Some(width) }
}

/// An iterator over the clusters of a text.
pub(crate) trait NextCluster<'a>: Drop {
    ghost left: { Self → List Cluster };

    /// Returns the next cluster with its width in columns.
    fn next_cluster(&mut self) -> Option<(&'a str, usize)>
        ensures steps { YieldsFirstBy cluster left self.old result self.new }
        ensures bytes { IfSome result (λ c. 0 < length c.0.now) }
        ensures columns { IfSome result (λ c. 0 < c.1) };

    /// Returns the width of the remaining clusters, in columns.
    fn columns_left(self) -> usize
        requires { columns_of (left self) < 2 ^ 64 }
        ensures { result ≡ columns_of (left self) };
}

impl<'a> NextCluster<'a> for Printable<'a> {
    ghost left = { λ text. bytes_as_clusters text.text.now };

    fn next_cluster(&mut self) -> Option<(&'a str, usize)> {
        if self.text.is_empty() {
            return None;
        }
        let (first, text) = self.text.split_at(1);
        *self = Printable { text };
        Some((first, 1))
    }

    fn columns_left(self) -> usize {
        self.text.len()
    }
}

impl<'a> NextCluster<'a> for Graphemes<'a> {
    ghost left = { λ pieces. visible_clusters (graphemes_left pieces) };

    #[tactic(auto, unfolding(crate::specs::Clusters::visible_clusters, crate::specs::Clusters::with_width))]
    fn next_cluster(&mut self) -> Option<(&'a str, usize)> {
        'pieces: while let Some(piece) = self.next() {
            if let Some(width) = visible_width(piece) {
                return Some((piece, width));
            }
        }
        None
    }

    #[tactic(auto, unfolding(crate::specs::Clusters::visible_clusters, crate::specs::Clusters::with_width))]
    fn columns_left(self) -> usize {
        let mut width = 0;
        'pieces: for piece in self {
            if let Some(columns) = visible_width(piece) {
                width += columns;
            }
        }
        width
    }
}

/// The remaining text: one byte per cluster, or grapheme clusters.
#[derive(Drop)]
pub(crate) enum Rest<'a> {
    /// Printable ASCII.
    Bytes(Printable<'a>),
    /// Any other text.
    Graphemes(Graphemes<'a>),
}

/// An iterator over the visible clusters of a text, each with its width in columns. It drops
/// clusters with a control character (U+0000 to U+001F, U+007F to U+009F) and clusters of width 0.
#[derive(Drop)]
pub struct Clusters<'a> {
    pub(crate) rest: Rest<'a>,
}

impl<'a> Clusters<'a> {
    ghost use Rattle.std.specs.List.{All};
    ghost use Rattle.scm_cells.specs.Cluster.{IsNarrow};
    ghost use Rattle.scm_cells.specs.Clusters.{clusters, clusters_left};

    /// Returns an iterator over the clusters of `text`. A cluster has at most two columns per byte.
    pub fn new(text: &'a str) -> Clusters<'a>
        ensures clusters { clusters_left result ≡ clusters text.now }
        ensures narrow { All IsNarrow (clusters_left result) }
    {
        let rest = if is_printable(text) {
            Rest::Bytes(Printable { text })
        } else {
            Rest::Graphemes(text.graphemes(true))
        };
        Clusters { rest }
    }
}

impl<'a> Iterator for Clusters<'a> {
    ghost use Rattle.scm_cells.specs.Clusters.{clusters_left};

    type Item = (&'a str, usize);

    ghost next_gives = { YieldsFirstBy cluster clusters_left };

    ghost remaining = { item_count clusters_left };

    #[tactic(auto, unfolding(crate::specs::Clusters::clusters_left))]
    fn next(&mut self) -> Option<(&'a str, usize)> {
        match &mut self.rest {
            Rest::Bytes(text) => text.next_cluster(),
            Rest::Graphemes(pieces) => pieces.next_cluster(),
        }
    }
}

/// Returns the width of `text`, in columns: the sum over its visible clusters.
#[tactic(auto, unfolding(crate::specs::Clusters::text_width))]
pub fn text_width(text: &str) -> usize
    ensures value { result ≡ text_width text.now }
    ensures bound { result ≤ 2 * length text.now }
{
    if is_printable(text) {
        return text.len();
    }
    if let Some(width) = frame_width(text) {
        return width;
    }
    text.graphemes(true).columns_left()
}
