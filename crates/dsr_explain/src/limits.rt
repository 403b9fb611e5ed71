// How long files may be, and what is told where one is longer.

/// The most bytes of a specification's text.
pub const SPEC_LIMIT: u64 = 65_536;

/// As many bytes as show that a file has more than a specification's text may have.
pub const MORE_THAN_SPEC: u64 = 65_537;

/// The most bytes of an image.
pub const IMAGE_LIMIT: u64 = 67_108_864;

/// As many bytes as show that a file has more than an image may have.
pub const MORE_THAN_IMAGE: u64 = 67_108_865;

/// That a specification is too long.
pub const LONG_SPEC: &str = "error: a specification has at most 65,536 bytes\n";

/// That an image is too long.
pub const LONG_IMAGE: &str =
    "error: an image has at most 4,194,304 bytes in version 1, and 67,108,864 (64 MiB) in version 2\n";

const LONG_CERTIFICATE: &str = "error: a certificate has at most 1,048,576 bytes\n";

const LONG_REPORT: &str = "error: a report has at most 67,108,864 bytes (64 MiB)\n";

const LONG_SCRIPT: &str = "error: a script of edits has at most 1,048,576 bytes\n";

/// Which file is too long, by the line that says so.
pub fn too_long(out: &[u8]) -> &'static str {
    if out.starts_with(b"too long spec") {
        LONG_SPEC
    } else if out.starts_with(b"too long image") {
        LONG_IMAGE
    } else if out.starts_with(b"too long report") {
        LONG_REPORT
    } else if out.starts_with(b"too long script") {
        LONG_SCRIPT
    } else {
        LONG_CERTIFICATE
    }
}
