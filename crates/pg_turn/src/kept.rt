/// A value that stands for a root, which never changes, and for a list of entries, each of which names its maker.
pub trait Kept {
    ghost use Rattle.std.specs.Prelude.{ℕ, ◌≡◌, List, length};

    /// What never changes. No value of it is made here.
    type Root;

    /// An entry. No value of it is made here.
    type Entry;

    ghost root: { Self → Self.Root };

    ghost entries: { Self → List Self.Entry };

    ghost maker: { Self.Entry → ℕ };

    /// How many entries it has.
    fn count(&self) -> u64
        ensures { result ≡ length (entries self.now) };
}
