//! Bytes between the parts of a text, which definitions cite.

/// Ends a line of a script.
pub const LINE_FEED: u8 = b'\n';

/// Stands between the words of a line.
pub const SPACE: u8 = b' ';

/// Stands between the items of a JSON array.
pub const COMMA: u8 = b',';

/// Begins each name of a path.
pub const SLASH: u8 = b'/';
