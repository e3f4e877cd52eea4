use hash_rows::Options;
use prefixes::Prefixes;

/// What the words ask for.
#[derive(Drop)]
pub enum Command {
    /// A run on a capture that is read.
    Run(Options),
    /// A run on a generated capture of so many records.
    Load {
        /// 0 to 1,048,576.
        records: u32,
        start: u32,
        options: Options,
    },
    /// A run on the networks of the sources, with a Count-Min in rounds.
    Prefix {
        options: Options,
        /// The watched networks, in the order given.
        watch: Prefixes,
    },
    /// A run with a Count Sketch that is settled after every so many keyed packets.
    Epochs {
        /// The packets of an epoch, 256 to 16,777,216.
        packets: u32,
        /// The least change of a flow that is told, 1 to 2^40.
        change: u64,
        options: Options,
    },
    /// The judging of a journal, which has no options.
    Audit,
}

/// Why words give no command.
#[derive(Clone, Copy, Debug, PartialEq, Eq)]
pub enum WordStop {
    /// The words are not in the grammar.
    Usage,
    NoMemory,
}
