//! Which file of a name counts.

ghost use Rattle.std.specs.Prelude.{◌≡◌};
ghost use Rattle.std.specs.Option.{option_map};
ghost use Rattle.nt_memory.specs.Named.{kept, stored_in};

use crate::named::NamedFile;

/// The last file of a name.
pub fn newest<'a>(files: &'a [NamedFile], name: &str) -> Option<&'a NamedFile>
    ensures { option_map (λ f. kept f.now) result ≡ stored_in files.now name.now }
{
    for i in (0..files.len()).rev() {
        let file = &files[i];
        if name == file.name.as_str() {
            return Some(file);
        }
    }
    None
}
