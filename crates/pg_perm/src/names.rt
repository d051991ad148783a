//! The names of states and messages, by their numbers in a draft. A number past the last has the empty name.
ghost use Rattle.std.specs.Prelude.{◌≡◌};
ghost use Rattle.pg_perm.specs.Words as word;

use crate::draft::Draft;

/// The name of a cache state.
pub fn cache_name(draft: &Draft, number: usize) -> &str
    ensures { result.now ≡ word.cache_name draft.now number }
{
    match draft.caches.get(number) {
        Some(cache) => cache.name.as_str(),
        None => "",
    }
}

/// The name of a directory state.
pub fn dir_name(draft: &Draft, number: usize) -> &str
    ensures { result.now ≡ word.dir_name draft.now number }
{
    match draft.dirs.get(number) {
        Some(dir) => dir.name.as_str(),
        None => "",
    }
}

/// The name of a request, a forward or a reply.
pub fn message_name(draft: &Draft, number: usize) -> &str
    ensures { result.now ≡ word.message_name draft.now number }
{
    match draft.messages.get(number) {
        Some(message) => message.name.as_str(),
        None => "",
    }
}
