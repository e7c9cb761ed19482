use host_block::BlockSize;

/// A command of the program, with what the words say of it.
#[derive(Clone, Copy, Debug, PartialEq, Eq)]
pub enum Command<'a> {
    /// Plays the script on an image.
    Run {
        image: &'a str,
        /// 512 bytes where no size is given.
        block: BlockSize,
        workers: Option<u32>,
        depth: Option<u32>,
        dry: bool,
        cut: bool,
        steps: bool,
    },
    /// Prints the partition table of an image.
    List {
        image: &'a str,
        block: BlockSize,
    },
    /// Prints a generated script.
    Make {
        seed: u32,
        sessions: u32,
        requests: u32,
    },
    /// Plays a generated script on an image.
    Load {
        image: &'a str,
        seed: u32,
        sessions: u32,
        requests: u32,
        block: BlockSize,
        workers: Option<u32>,
        depth: Option<u32>,
    },
}
