//! How names are hashed: so that nobody can choose names that collide.
use std::hash::{BuildHasher, DefaultHasher, Hasher};

/// Hashes a name behind all bytes of its file. So which names collide depends on the whole file,
/// and names that were chosen to collide change what collides.
#[derive(Clone, Copy)]
pub struct FileHash {
    begun: DefaultHasher,
}

impl FileHash {
    /// The hash of the names of a file of these bytes.
    pub fn of(bytes: &[u8]) -> FileHash {
        let mut begun = DefaultHasher::new();
        begun.write(bytes);
        FileHash { begun }
    }
}

impl BuildHasher for FileHash {
    type Hasher = DefaultHasher;

    ghost build_hasher = { λ s. s.begun };

    fn build_hasher(&self) -> DefaultHasher {
        self.begun
    }
}
