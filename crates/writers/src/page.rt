//! The writer with a page of its own.
ghost use Rattle.std.specs.Prelude.{◌≡◌, ◌≤◌, length};

pub mod methods;

// The bytes of a page, and how many of its front are written: an array with its length, since the library allocates nothing.
#[derive(Drop)]
struct Page {
    bytes: [u8; 256],
    len: usize,
}

/// Keeps up to 256 bytes.
#[derive(Drop)]
pub struct PageWriter {
    page: Page,
    ghost whole: { length page.bytes ≡ 256 },
    ghost within: { page.len ≤ 256 },
}
