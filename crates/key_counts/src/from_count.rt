ghost use Rattle.std.specs.Prelude.{◌≡◌, ℕ};

/// What a key with its number is listed as.
pub trait FromCount<K: Copy>: Drop {
    // The key with its number.
    ghost count: { Self → K × ℕ };

    /// Of the key with its number. Takes no memory.
    fn from_count(key: K, number: u64) -> Self
        ensures { count result ≡ (key, number) };
}

impl<K: Copy> FromCount<K> for (K, u64) {
    ghost count = { λ e. e };

    fn from_count(key: K, number: u64) -> (K, u64) {
        (key, number)
    }
}
