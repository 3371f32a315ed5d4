//! The limits on names and paths, in bytes and in parts.

/// The least number of bytes of a filesystem's name.
pub const FS_NAME_LEAST: usize = 3;

/// The greatest number of bytes of a filesystem's name.
pub const FS_NAME_MOST: usize = 63;

/// The greatest number of bytes of a name.
pub const NAME_MOST: usize = 255;

/// The greatest number of bytes of a path's text without its leading `/`.
pub const PATH_MOST: usize = 1024;

/// The greatest number of parts of a path, the filesystem's name counted.
pub const DEPTH_MOST: usize = 60;
