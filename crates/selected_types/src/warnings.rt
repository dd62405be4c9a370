//! What a user is told of the objects of an exception.
use sdcv_base::Name;

/// What the objects of an exception leave open. No call tells a `Crossed` or a `Beyond` yet.
#[derive(Drop)]
pub enum Warning {
    /// Nothing goes by this pattern.
    Nothing(Name),
    /// So many of the things that this pattern names can't stand in its place.
    Dropped(Name, u64),
    /// This pattern of no class names things of two classes, and stands for those of the first.
    Several(Name),
    /// So many pairs of the lists are not selected, since no path of the design joins them, and may be joined by paths through
    /// cells that are cut out of it.
    Crossed(u64),
    /// A list is not given, and from so many of the starts, or to so many of the ends, a path leads to where the design is cut,
    /// or from there: what lies beyond is not judged.
    Beyond(u64),
}
