//! The identity of files.
ghost use Rattle.std.specs.Prelude.{◌≡◌};
ghost use Rattle.program.specs.Identity.{is_same_file};

/// The identity of a file: its device and inode (stat(2)).
#[derive(Clone, Copy)]
pub struct FileIdentity {
    /// Whether it is a regular file: no device, terminal, pipe or directory.
    pub is_regular: bool,
    pub device: u64,
    pub inode: u64,
}

impl FileIdentity {
    /// Whether both are the same regular file. Other files, as terminals and pipes, may be written
    /// and read at once.
    pub fn is_same_file(self, other: FileIdentity) -> bool
        ensures { result ≡ is_same_file self other }
    {
        self.is_regular
            && other.is_regular
            && self.device == other.device
            && self.inode == other.inode
    }
}
