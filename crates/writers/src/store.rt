//! Storing bytes at a place of a buffer.
ghost use Rattle.std.specs.Prelude.{◌≡◌, ◌+◌, ◌≤◌, length};
ghost use Rattle.std.proofs.lemmas.List.Edits.{sets};

// Stores the bytes from the index `at` on, and leaves the others as they were.
pub(crate) fn store(to: &mut [u8], at: usize, bytes: &[u8])
    requires { at + length bytes.now ≤ length to.old }
    ensures { to.new ≡ sets to.old at bytes.now }
{
    to[at..at + bytes.len()].copy_from_slice(bytes);
}
