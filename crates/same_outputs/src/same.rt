// Values that can be held against each other.
/// A value that can be held against another.
pub trait Same {
    ghost use Rattle.std.specs.Prelude.{◌≡◌, ◌↔◌, IsTrue};

    /// Whether the two values are one. It takes no memory.
    fn is_same(&self, other: &Self) -> bool
        ensures same { IsTrue result ↔ (self.now ≡ other.now) };
}
